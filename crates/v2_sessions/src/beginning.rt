//! How a session begins.

ghost use Rattle.std.specs.Prelude.{◌≡◌, ◌<◌, length};
ghost use Rattle.v2_sessions.specs.Beginning.{Begins, WaitsForBytes};

use crate::putting::put_greeting;
use crate::{Session, SessionEnd};
use link_turns::Waiting;
use pool_io::{PIECE_LEN, Took};
use pool_network::Link;
use session_steps::Manner;
use std::alloc::Global;

/// The first bytes of a session came.
#[derive(Drop)]
pub struct FirstPiece {
    /// What is still waited for behind them.
    pub waiting: Waiting,
    /// How many they are.
    pub count: usize,
}

/// Takes turns up to the first that brings bytes, which are put into the buffer.
fn first_piece<L: Link>(
    idle_turns: u64,
    buffer: &mut [u8],
    link: &mut L,
) -> Result<FirstPiece, SessionEnd>
    requires waits { 0 < idle_turns }
    requires room { length buffer.old ≡ PIECE_LEN }
    ensures room { length buffer.new ≡ PIECE_LEN }
    ensures waits { WaitsForBytes idle_turns buffer.new (L.seen link.old) (L.seen link.new) result }
{
    let mut waiting = Waiting::new(idle_turns);
    loop {
        match waiting.take(link, buffer) {
            Took::Bytes(count) => return Ok(FirstPiece { waiting, count }),
            Took::Idle if waiting.idles == 0 => return Err(SessionEnd::IdleOut),
            Took::Idle => {}
            Took::End => return Err(SessionEnd::Done),
            Took::Failed => return Err(SessionEnd::ReadFault),
        }
    }
}

/// Puts what a session is greeted with, and takes turns up to the first that brings bytes, which
/// are put into the buffer. Nothing is asked for, and a session that is over by then has nothing to
/// leave.
pub fn begin<L: Link>(
    alloc: Global,
    link: &mut L,
    manner: Manner,
    buffer: &mut [u8],
) -> Result<FirstPiece, SessionEnd>
    requires waits { 0 < manner.idle_turns }
    requires room { length buffer.old ≡ PIECE_LEN }
    ensures room { length buffer.new ≡ PIECE_LEN }
    ensures begins { Begins manner buffer.new (L.seen link.old) (L.seen link.new) result }
{
    let session = Session::new(alloc, manner);
    put_greeting(alloc, &session, link)?;
    first_piece(manner.idle_turns, buffer, link)
}
