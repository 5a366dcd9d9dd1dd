//! Whether a proxy can go on with an upstream.

ghost use Rattle.std.specs.Prelude.{◌≡◌, ◌↔◌, IsTrue};
ghost use Rattle.mining_msgs.specs.Seen.{mining_message};
ghost use Rattle.proxy_server.specs.declared.phase.UpPhase.TheVariants.{Unfit, Unset};
ghost use Rattle.proxy_server.specs.Frames.{is_fit_size, next_phase, phase_by_opening};

use mining_msgs::Mining;

/// How far an upstream has come.
#[derive(Clone, Copy)]
pub enum UpPhase {
    /// Its first message is waited for, which has to accept the setup with version 2.
    Unset,
    /// The opening of the channel is waited for.
    Unopened,
    /// The channel is open.
    Opened,
    /// It came with something else, refused the opening, or opened a channel of which less than 3 or more
    /// than 32 bytes are rolled.
    Unfit,
}

impl UpPhase {
    /// Whether no proxy can go on with it.
    pub fn is_unfit(self) -> bool
        ensures { IsTrue result ↔ (self ≡ Unfit) }
    {
        match self {
            UpPhase::Unfit => true,
            UpPhase::Unset | UpPhase::Unopened | UpPhase::Opened => false,
        }
    }

    /// Once it came with this message.
    pub(crate) fn after(self, message: &Mining<'_>) -> UpPhase
        ensures { result ≡ next_phase self (mining_message message.now) }
    {
        match self {
            UpPhase::Unset => after_setup(message),
            UpPhase::Unopened => after_opening(message),
            UpPhase::Opened | UpPhase::Unfit => self,
        }
    }
}

/// The first message.
fn after_setup(message: &Mining<'_>) -> UpPhase
    ensures { result ≡ next_phase Unset (mining_message message.now) }
{
    match message {
        Mining::SetupConnectionSuccess(accepted) if accepted.used_version == 2 => UpPhase::Unopened,
        _ => UpPhase::Unfit,
    }
}

/// A later one, up to the opening.
fn after_opening(message: &Mining<'_>) -> UpPhase
    ensures { result ≡ phase_by_opening (mining_message message.now) }
{
    match message {
        Mining::OpenMiningChannelError(_) => UpPhase::Unfit,
        Mining::OpenExtendedMiningChannelSuccess(opened) if is_fit(opened.extranonce_size) => {
            UpPhase::Opened
        }
        Mining::OpenExtendedMiningChannelSuccess(_) => UpPhase::Unfit,
        _ => UpPhase::Unopened,
    }
}

/// Whether so many bytes of an extranonce can be parted among miners.
fn is_fit(size: u16) -> bool
    ensures { result ≡ is_fit_size size }
{
    3 <= size && size <= 32
}
