//! Counts the frames of a stream and nothing else: what splitting it costs.

use crate::stream::split;
use anyhow::Result;
use std::alloc::Global;
use std::io::Read;
use sv2_frames::{Frame, TakeFrames};

/// How many frames were taken, up to the greatest count, and the bytes of the last one's payload.
#[derive(Drop)]
struct Count {
    frames: u64,
    last: usize,
}

impl TakeFrames for Count {
    ghost use Rattle.std.specs.Prelude.{◌≡◌, ◌+◌, ◌-◌, ◌^◌, true, length, min};

    ghost takes = { λ old frame more new. (more ≡ true)
        × (new.frames ≡ min (old.frames + 1) (2 ^ 64 - 1))
        × (new.last ≡ length frame.payload) };

    fn take_frame(&mut self, frame: Frame<'_>) -> bool {
        self.frames = self.frames.saturating_add(1);
        self.last = frame.payload.len();
        true
    }
}

/// Counts the frames of the input.
pub fn report<R: Read>(alloc: Global, input: &mut R) -> Result<String> {
    let mut count = Count { frames: 0, last: 0 };
    let held = split(alloc, input, &mut count)?;
    Ok(format!(in alloc;
        "frames {}, last {}, held {}",
        count.frames, count.last, held
    )?)
}
