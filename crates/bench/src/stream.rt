//! A stream that is read to its end and split into frames.

use anyhow::Result;
use std::alloc::Global;
use std::io::Read;
use sv2_frames::{RunEnd, Splitter, TakeFrames};

/// The greatest payload that is taken.
const LIMIT: u32 = 262_144;

/// The bytes that are read at once.
const PIECE_LEN: usize = 65_536;

/// Hands each frame of the input to the taker, up to the first header over the limit, and says how
/// many bytes are held behind the last.
pub fn split<R: Read, T: TakeFrames>(alloc: Global, input: &mut R, taker: &mut T) -> Result<usize> {
    let mut splitter = Splitter::new(alloc, LIMIT)?;
    let mut buffer = vec![in alloc; 0; PIECE_LEN]?;
    for _piece in 0..u64::MAX {
        let len = input.read(&mut buffer)?;
        if len == 0 {
            break;
        }
        let RunEnd::Done = splitter.run(&[&buffer[..len]], taker) else {
            break;
        };
    }
    Ok(splitter.held())
}
