//! The channel of the upstream, and what a subscriber is given of it.

ghost use Rattle.std.specs.Prelude.{◌≡◌};

use mining_msgs::{Mining, OpenExtendedMiningChannelSuccess};
use std::alloc::{AllocError, Global};
use std::marker::Model;
use sv2_types::U256;

/// How many bytes a lead has.
const LEAD_LEN: u16 = 2;

/// How many bytes an extranonce has at most.
const MOST_EXTRANONCE: u16 = 32;

/// A channel that was opened, with the last target.
#[derive(Drop)]
pub(crate) struct UpChannel {
    channel: u32,
    target: U256,
    /// The bytes before those that are rolled.
    lead: Vec<u8>,
    rolled: u16,
}

impl Model for UpChannel {
    ghost use Rattle.v1_translate.specs.Heard.{OpenedChannel};

    ghost Value = { OpenedChannel };

    ghost view = { λ c. record {
      channel = c.channel;
      target = c.target;
      lead = c.lead.items;
      rolled = c.rolled;
    } };
}

impl UpChannel {
    ghost use Rattle.std.specs.Prelude.{◌≡◌, IfOk, IsTrue};
    ghost use Rattle.v1_translate.specs.Heard.{Opened, told_by};
    ghost use Rattle.proxy_core.specs.Reading.{channel_in};
    ghost use Rattle.proxy_rules.specs.Steps.{offer_of, retargeted, serves};

    /// A copy of what the message says.
    pub(crate) fn of(
        alloc: Global,
        message: &OpenExtendedMiningChannelSuccess<'_>,
    ) -> Result<UpChannel, AllocError>
        ensures { IfOk result (λ channel. channel ≡ channel_in message.now) }
    {
        let lead = Vec::from_slice(alloc, message.extranonce_prefix)?;
        Ok(UpChannel {
            channel: message.channel_id,
            target: message.target,
            lead,
            rolled: message.extranonce_size,
        })
    }

    pub(crate) fn retarget(&mut self, target: U256)
        ensures { self.new ≡ retargeted target self.old }
    {
        self.target = target;
    }

    /// Whether a lead leaves a byte at least, and the whole fits an extranonce.
    pub(crate) fn serves(&self) -> bool
        ensures { result ≡ serves self.now }
    {
        LEAD_LEN < self.rolled && self.rolled <= MOST_EXTRANONCE
    }

    /// What a subscriber with this lead is given.
    pub(crate) fn offer(&self, alloc: Global, lead: u16) -> Result<Offer, AllocError>
        requires { IsTrue (serves self.now) }
        ensures { IfOk result (λ offer. offer ≡ offer_of self.now lead) }
    {
        let mut whole = Vec::from_slice(alloc, self.lead.as_slice())?;
        whole.extend_from_slice(&lead.to_be_bytes())?;
        Ok(Offer {
            lead,
            channel: UpChannel {
                channel: self.channel,
                target: self.target,
                lead: whole,
                rolled: self.rolled - LEAD_LEN,
            },
        })
    }

    /// The message by which a session of Stratum V1 hears of it.
    pub(crate) fn opening(&self) -> Mining<'_>
        ensures { told_by result ≡ Opened self.now }
    {
        Mining::OpenExtendedMiningChannelSuccess(OpenExtendedMiningChannelSuccess {
            request_id: 0,
            channel_id: self.channel,
            target: self.target,
            extranonce_size: self.rolled,
            extranonce_prefix: self.lead.as_slice(),
        })
    }
}

/// What a subscriber is given: its lead, and the channel as it is to see it.
#[derive(Drop)]
pub(crate) struct Offer {
    lead: u16,
    channel: UpChannel,
}

impl Model for Offer {
    ghost use Rattle.std.specs.Prelude.{◌≤◌};
    ghost use Rattle.proxy_rules.specs.Steps as steps;

    ghost Value = { steps.Offer };

    ghost view = { λ o. record { lead = o.lead; channel = o.channel } };

    ghost invariant = { λ o. o.channel.rolled ≤ 30 };
}

impl Offer {
    ghost use Rattle.std.specs.Prelude.{◌≡◌};
    ghost use Rattle.v1_translate.specs.Heard.{Opened, told_by};
    ghost use Rattle.proxy_rules.specs.Steps.{seat_of};

    pub(crate) fn seat(&self) -> Seat
        ensures { result ≡ seat_of self.now }
    {
        Seat {
            lead: self.lead,
            channel: self.channel.channel,
            rolled: self.channel.rolled,
        }
    }

    pub(crate) fn opening(&self) -> Mining<'_>
        ensures { told_by result ≡ Opened self.now.channel }
    {
        self.channel.opening()
    }
}

/// What a subscribe gave: a lead, of the channel, and how many bytes are rolled behind it.
#[derive(Drop)]
pub(crate) struct Seat {
    lead: u16,
    channel: u32,
    rolled: u16,
}

impl Model for Seat {
    ghost use Rattle.std.specs.Prelude.{◌≤◌};
    ghost use Rattle.proxy_rules.specs.State as state;

    ghost Value = { state.Seat };

    ghost view = { λ s. record { lead = s.lead; channel = s.channel; rolled = s.rolled } };

    ghost invariant = { λ s. s.rolled ≤ 30 };
}

impl Seat {
    ghost use Rattle.std.specs.Prelude.{◌≡◌, ◌==◌, ◌≤◌};

    pub(crate) fn holds(&self, lead: u16) -> bool
        ensures { result ≡ (self.now.lead == lead) }
    {
        self.lead == lead
    }

    pub(crate) fn lead(&self) -> u16
        ensures { result ≡ self.now.lead }
    {
        self.lead
    }

    pub(crate) fn channel(&self) -> u32
        ensures { result ≡ self.now.channel }
    {
        self.channel
    }

    pub(crate) fn rolled(&self) -> u16
        ensures value { result ≡ self.now.rolled }
        ensures few { result ≤ 30 }
    {
        self.rolled
    }
}
