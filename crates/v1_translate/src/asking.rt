//! What is asked of the pool, and its frames.

ghost use Rattle.std.specs.Prelude.{◌≡◌, ◌≤◌, IfOk};
ghost use Rattle.v1_translate.specs.State as state;
ghost use Rattle.v1_translate.specs.Saying.{Asks, asking_of};

use crate::step::V1Step;
use crate::submissions::CheckedShare;
use crate::{open_message, update_message};
use pool_history::Class;
use std::alloc::AllocError;
use sv2_types::Str255;

/// What a session asks of the pool.
#[derive(Drop)]
pub enum V1Ask {
    Nothing,
    /// A channel, by the class of its greatest target.
    Open(Class),
    /// Another target for a channel, by its class.
    Update(u32, Class),
    Share(CheckedShare),
    /// An account for the channel; `V1Session::on_named` takes the pool's answer.
    Name(Str255),
}

/// Appends the frame of what is asked, where it has one.
pub(crate) fn put_ask(ask: V1Ask, up: &mut Vec<u8>) -> Result<V1Step, AllocError>
    ensures { IfOk result (λ step. Asks (asking_of ask) step up.old.items up.new.items) }
{
    match ask {
        V1Ask::Nothing => Ok(V1Step::Said),
        V1Ask::Open(class) => ask_opening(class.value(), up),
        V1Ask::Update(channel, class) => ask_update(channel, class.value(), up),
        V1Ask::Share(share) => ask_share(&share, up),
        V1Ask::Name(account) => Ok(V1Step::Name(account)),
    }
}

/// Appends the request for a channel, by the class of its greatest target.
#[tactic(auto, using(crate::proofs::Fitting::opening_fits), unfolding(crate::specs::Saying::frame_of_message))]
fn ask_opening(class: u8, up: &mut Vec<u8>) -> Result<V1Step, AllocError>
    requires { class ≤ 60 }
    ensures { IfOk result (λ step. Asks (state.Open class) step up.old.items up.new.items) }
{
    // In a tuple, since no proof covers a local of an enum whose structs borrow.
    let message = (open_message(class),);
    message.0.frame(up)?;
    Ok(V1Step::Sent)
}

/// Appends the request for another target, by its class.
#[tactic(auto, using(crate::proofs::Fitting::update_fits), unfolding(crate::specs::Saying::frame_of_message))]
fn ask_update(channel: u32, class: u8, up: &mut Vec<u8>) -> Result<V1Step, AllocError>
    requires { class ≤ 60 }
    ensures { IfOk result (λ step. Asks (state.Update channel class) step up.old.items up.new.items) }
{
    let message = (update_message(channel, class),);
    message.0.frame(up)?;
    Ok(V1Step::Sent)
}

/// Appends a share.
fn ask_share(share: &CheckedShare, up: &mut Vec<u8>) -> Result<V1Step, AllocError>
    ensures { IfOk result (λ step. Asks (state.Share share.now) step up.old.items up.new.items) }
{
    share.put(up)?;
    Ok(V1Step::Sent)
}
