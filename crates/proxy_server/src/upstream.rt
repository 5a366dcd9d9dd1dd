//! The upstream's frames.

ghost use Rattle.std.specs.Prelude.{◌≡◌, ◌++◌, ◌<◌, ◌≤◌, ◌^◌, ℕ, List, false, length, IfOk, OnOk};
ghost use Rattle.sv2_frames.specs.Framing.{FrameFits, frame_of};
ghost use Rattle.sv2_frames.specs.Holding.{IsCutWithin};
ghost use Rattle.link_hearing.specs.Hearing.{end_of};
ghost use Rattle.proxy_server.specs.declared.phase.UpPhase.TheVariants.{Unfit};
ghost use Rattle.proxy_server.specs.Frames as frames;
ghost use Rattle.proxy_server.specs.Upstreams.{LeadsUp, up_at};

use crate::asking::ProxyAsking;
use crate::news::tell_news;
use crate::phase::UpPhase;
use link_hearing::TurnHearer;
use mining_msgs::read;
use pool_network::Link;
use proxy_rules::ProxyRequest;
use session_steps::SessionEnd;
use std::alloc::{AllocError, Global};
use sv2_frames::{Frame, Splitter, TooLong, write_frame};
use sv2_messages::kinds;
use sv2_types::Blob;
use v2_sessions::input_end;

/// The extension types below this one have no channel bit.
const CHANNEL_BIT: u16 = 0x8000;

/// Whether a frame of this kind is taken.
fn is_up_kind(kind: u8) -> bool
    ensures { result ≡ frames.is_up_kind kind }
{
    kind == kinds::SETUP_CONNECTION_SUCCESS
        || kind == kinds::SETUP_CONNECTION_ERROR
        || kind == kinds::OPEN_MINING_CHANNEL_ERROR
        || kind == kinds::OPEN_EXTENDED_MINING_CHANNEL_SUCCESS
        || kind == kinds::SUBMIT_SHARES_SUCCESS
        || kind == kinds::SUBMIT_SHARES_ERROR
        || kind == kinds::NEW_EXTENDED_MINING_JOB
        || kind == kinds::MINING_SET_NEW_PREV_HASH
        || kind == kinds::SET_TARGET
}

/// Whether a frame is taken.
fn is_taken(ext: u16, kind: u8) -> bool
    ensures { result ≡ frames.is_up_frame ext kind }
{
    ext % CHANNEL_BIT == 0 && is_up_kind(kind)
}

/// The bytes of a frame.
fn bytes_of(alloc: Global, frame: &Frame<'_>) -> Result<Blob, AllocError>
    requires { length frame.now.payload.now < 2 ^ 24 }
    ensures { IfOk result
        (λ bytes. bytes ≡ frame_of frame.now.ext frame.now.kind frame.now.payload.now) }
{
    let mut bytes = Vec::new(alloc);
    write_frame(&mut bytes, frame.ext, frame.kind, frame.payload)?;
    Ok(Blob::from_vec(bytes))
}

/// Asks for a frame, if it is a message that is taken, and puts what is new then; nothing more where no proxy
/// can go on with it.
fn tell_frame<L: Link, A: ProxyAsking>(
    alloc: Global,
    asking: &mut A,
    frame: &Frame<'_>,
    phase: &mut UpPhase,
    cursor: &mut u64,
    link: &mut L,
) -> Result<(), SessionEnd>
    requires ready { A.ready asking.old }
    requires fits { FrameFits frame.now.ext frame.now.kind frame.now.payload.now }
    requires within { length frame.now.payload.now ≤ 262144 }
    requires fit { phase.old ≡ Unfit → ⊥ }
    ensures ready { A.ready asking.new }
    ensures source { (L.seen link.new).source ≡ (L.seen link.old).source }
    ensures fit { OnOk result (phase.new ≡ Unfit → ⊥) }
    ensures leads { (rest : List ℕ) → LeadsUp A.does
        (up_at (frame_of frame.now.ext frame.now.kind frame.now.payload.now ++ rest) cursor.old
        false phase.old) asking.old (L.seen link.old).sink (end_of result)
        (up_at rest cursor.new false phase.new) asking.new (L.seen link.new).sink }
{
    if !is_taken(frame.ext, frame.kind) {
        return Ok(());
    }
    let Ok(message) = read(frame.kind, frame.payload) else {
        return Err(SessionEnd::BadMessage(frame.kind));
    };
    let Ok(bytes) = bytes_of(alloc, frame) else {
        return Err(SessionEnd::Memory);
    };
    let asked = asking.ask(ProxyRequest::Up(bytes));
    let Ok(_reply) = asked else {
        return Err(SessionEnd::Memory);
    };
    *phase = phase.after(&message);
    if phase.is_unfit() {
        return Err(SessionEnd::BadSetup);
    }
    tell_news(asking, cursor, link)
}

/// Who hears the upstream's link: whom it asks, what came of a frame, up to which place the output was put,
/// and how far the upstream has come.
pub(crate) struct UpstreamLink<'a, A: ProxyAsking> {
    pub(crate) alloc: Global,
    pub(crate) asking: &'a mut A,
    pub(crate) splitter: Splitter,
    pub(crate) cursor: u64,
    pub(crate) phase: UpPhase,
}

impl<A: ProxyAsking> UpstreamLink<'_, A> {
    ghost use Rattle.std.specs.Prelude.{◌≡◌, OnOk, length};
    ghost use Rattle.proxy_server.specs.Frames.{most_payload};

    /// Tells the frame that is held, if it is whole.
    fn frame<L: Link>(&mut self, link: &mut L) -> Result<(), SessionEnd>
        requires ready { A.ready self.old.asking.now }
        requires limit { self.old.splitter.limit ≡ most_payload }
        requires fit { self.old.phase ≡ Unfit → ⊥ }
        ensures ready { A.ready self.new.asking.now }
        ensures same { self.new.asking.ghost_name ≡ self.old.asking.ghost_name }
        ensures source { (L.seen link.new).source ≡ (L.seen link.old).source }
        ensures limit { self.new.splitter.limit ≡ most_payload }
        ensures cut { OnOk result (IsCutWithin self.new.splitter) }
        ensures fit { OnOk result (self.new.phase ≡ Unfit → ⊥) }
        ensures leads { (rest : List ℕ) → LeadsUp A.does
            (up_at (self.old.splitter.held ++ rest) self.old.cursor false self.old.phase)
            self.old.asking.now (L.seen link.old).sink (end_of result)
            (up_at (self.new.splitter.held ++ rest) self.new.cursor false self.new.phase)
            self.new.asking.now (L.seen link.new).sink }
    {
        match self.splitter.next() {
            Err(TooLong(len)) => Err(SessionEnd::TooLong(len)),
            Ok(None) => Ok(()),
            Ok(Some(frame)) => {
                tell_frame(
                    self.alloc,
                    self.asking,
                    &frame,
                    &mut self.phase,
                    &mut self.cursor,
                    link,
                )?;
                self.splitter.drop_frame();
                Ok(())
            }
        }
    }

    /// Tells the frames of bytes that came, one after the other.
    fn frames<L: Link>(&mut self, piece: &[u8], link: &mut L) -> Result<(), SessionEnd>
        requires ready { A.ready self.old.asking.now }
        requires limit { self.old.splitter.limit ≡ most_payload }
        requires cut { IsCutWithin self.old.splitter }
        requires fit { self.old.phase ≡ Unfit → ⊥ }
        ensures ready { A.ready self.new.asking.now }
        ensures same { self.new.asking.ghost_name ≡ self.old.asking.ghost_name }
        ensures source { (L.seen link.new).source ≡ (L.seen link.old).source }
        ensures limit { self.new.splitter.limit ≡ most_payload }
        ensures cut { OnOk result (IsCutWithin self.new.splitter) }
        ensures fit { OnOk result (self.new.phase ≡ Unfit → ⊥) }
        ensures leads { LeadsUp A.does
            (up_at (self.old.splitter.held ++ piece.now) self.old.cursor false self.old.phase)
            self.old.asking.now (L.seen link.old).sink (end_of result)
            (up_at self.new.splitter.held self.new.cursor false self.new.phase)
            self.new.asking.now (L.seen link.new).sink }
    {
        let mut rest = piece;
        while !rest.is_empty() {
            let count = self.splitter.feed(rest);
            rest = &rest[count..];
            self.frame(link)?;
        }
        Ok(())
    }
}

impl<A: ProxyAsking> TurnHearer for UpstreamLink<'_, A> {
    ghost use Rattle.std.specs.Prelude.{◌≡◌};
    ghost use Rattle.proxy_server.specs.Frames.{most_payload};
    ghost use Rattle.proxy_server.specs.Upstreams.{HearsUpstream, up_stand};

    ghost sound = { λ up. A.ready up.asking.now × (up.splitter.limit ≡ most_payload) };

    ghost ready = { λ up. IsCutWithin up.splitter × (up.phase ≡ Unfit → ⊥) };

    ghost hears = { λ old sink told over new sink_after.
        (new.asking.ghost_name ≡ old.asking.ghost_name)
        × HearsUpstream A.does
        (up_stand old.splitter.held old.cursor old.phase old.asking.now) sink told over
        (up_stand new.splitter.held new.cursor new.phase new.asking.now) sink_after };

    fn piece<L: Link>(&mut self, piece: &[u8], link: &mut L) -> Result<(), SessionEnd> {
        self.frames(piece, link)
    }

    fn idle<L: Link>(&mut self, link: &mut L) -> Result<(), SessionEnd> {
        tell_news(self.asking, &mut self.cursor, link)
    }

    fn input_end(&mut self) -> SessionEnd {
        input_end(self.splitter.held())
    }
}
