//! What goes out: bytes, and the frames of an answer one by one.

ghost use Rattle.std.specs.Prelude.{◌≡◌};
ghost use Rattle.session_steps.specs.Answers.{answer_frames, greeting, refusal_frame};
ghost use Rattle.session_steps.specs.Steps.{bytes_of_frames};
ghost use Rattle.v2_sessions.specs.Links.{PutsOut, fault_of};

use crate::{Session, SetupCode, put_refusal};
use pool_history::Reply;
use pool_io::SinkFailed;
use pool_network::{Link, put_whole};
use std::alloc::Global;

/// Puts all bytes, or says why not.
pub fn put_bytes<L: Link>(link: &mut L, bytes: &[u8]) -> Result<(), SinkFailed>
    ensures { PutsOut bytes.now (fault_of result)
        (L.seen link.old) (L.seen link.new) }
{
    put_whole(link, bytes)
}

/// Puts the frames of a reply, each before the next one is made.
pub(crate) fn put_frames<L: Link>(
    alloc: Global,
    session: &Session,
    reply: &Reply,
    link: &mut L,
) -> Result<(), SinkFailed>
    ensures { PutsOut (bytes_of_frames (answer_frames session.now reply.now)) (fault_of result)
        (L.seen link.old) (L.seen link.new) }
{
    let mut frame = Vec::new(alloc);
    let mut part = 0;
    loop {
        frame.clear();
        match session.on_part(reply, &mut part, &mut frame) {
            Ok(true) => {}
            Ok(false) => return Ok(()),
            Err(_) => return Err(SinkFailed::Memory),
        }
        put_bytes(link, &frame)?;
    }
}

/// Puts what is sent before the first frame.
pub(crate) fn put_greeting<L: Link>(
    alloc: Global,
    session: &Session,
    link: &mut L,
) -> Result<(), SinkFailed>
    ensures { PutsOut (bytes_of_frames (greeting session.now.role)) (fault_of result)
        (L.seen link.old) (L.seen link.new) }
{
    let mut frames = Vec::new(alloc);
    match session.greeting(&mut frames) {
        Ok(()) => put_bytes(link, &frames),
        Err(_) => Err(SinkFailed::Memory),
    }
}

/// Puts the refusal of a setup.
pub(crate) fn put_refused<L: Link>(
    alloc: Global,
    code: SetupCode,
    flags: u32,
    link: &mut L,
) -> Result<(), SinkFailed>
    ensures { PutsOut (refusal_frame code flags) (fault_of result)
        (L.seen link.old) (L.seen link.new) }
{
    let mut frame = Vec::new(alloc);
    match put_refusal(code, flags, &mut frame) {
        Ok(()) => put_bytes(link, &frame),
        Err(_) => Err(SinkFailed::Memory),
    }
}
