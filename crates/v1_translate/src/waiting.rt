//! Requests that wait for the pool's answer.

ghost use Rattle.std.specs.Prelude.{◌≡◌, ◌==◌, ◌∷◌, IfOk, position};
ghost use Rattle.v1_translate.specs.Messages as messages;

use crate::ids::LineId;
use std::alloc::AllocError;
use std::marker::Model;
use sv2_types::Str255;

/// A submission that was sent on and isn't answered.
#[derive(Drop)]
pub(crate) struct WaitingShare {
    number: u32,
    id: LineId,
}

impl Model for WaitingShare {
    ghost use Rattle.v1_translate.specs.State.{Waiting};
    ghost use Rattle.v1_translate.specs.Codes.{waiting_code};

    ghost Value = { Waiting };

    ghost coded = { waiting_code };

    ghost view = { λ share. record { number = share.number; id = share.id } };
}

impl WaitingShare {
    ghost use Rattle.std.specs.Prelude.{◌≡◌};

    /// A submission with this sequence number, by the id of its line.
    pub(crate) fn new(number: u32, id: LineId) -> WaitingShare
        ensures { result ≡ record { number = number; id = id } }
    {
        WaitingShare { number, id }
    }

    pub(crate) fn number(&self) -> u32
        ensures { result ≡ self.now.number }
    {
        self.number
    }

    pub(crate) fn into_id(self) -> LineId
        ensures { result ≡ self.id }
    {
        self.id
    }
}

/// An account that was asked for, and isn't taken or refused.
#[derive(Drop)]
pub(crate) struct WaitingName {
    id: LineId,
    account: Str255,
}

impl Model for WaitingName {
    ghost use Rattle.v1_translate.specs.State.{Naming};
    ghost use Rattle.v1_translate.specs.Codes.{naming_code};

    ghost Value = { Naming };

    ghost coded = { naming_code };

    ghost view = { λ name. record { id = name.id; account = name.account } };
}

impl WaitingName {
    ghost use Rattle.std.specs.Prelude.{◌≡◌};

    /// An account, by the id of the line that asked for it.
    pub(crate) fn new(id: LineId, account: Str255) -> WaitingName
        ensures { result ≡ record { id = id; account = account } }
    {
        WaitingName { id, account }
    }

    pub(crate) fn into_parts(self) -> (LineId, Str255)
        ensures id { result.0 ≡ self.id }
        ensures account { result.1 ≡ self.account }
    {
        (self.id, self.account)
    }
}

/// Puts a submission before the others.
pub(crate) fn put_waiting(
    shares: &mut Vec<WaitingShare>,
    number: u32,
    id: LineId,
) -> Result<(), AllocError>
    ensures { IfOk result (λ done. shares.new.items
        ≡ record { number = number; id = id } ∷ shares.old.items) }
{
    shares.insert(0, WaitingShare::new(number, id))?;
    Ok(())
}

/// Takes the last submission with a number out, and gives the id of its line.
pub(crate) fn take_waiting(shares: &mut Vec<WaitingShare>, number: u32) -> Option<LineId>
    ensures id { result ≡ messages.answered number shares.old.items }
    ensures rest { shares.new.items ≡ messages.still_waiting number shares.old.items }
{
    match place_among(shares.as_slice(), number) {
        Some(place) => {
            let share = shares.remove(place);
            Some(share.into_id())
        }
        None => None,
    }
}

/// The place of the first submission with a number.
fn place_among(shares: &[WaitingShare], number: u32) -> Option<usize>
    ensures { result ≡ position (λ share. share.number == number) shares.now }
{
    shares.iter().position(|share| share.number() == number)
}
