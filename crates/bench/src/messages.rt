//! Counts the mining and template messages of a stream: what reading them costs beside splitting.

ghost use Rattle.std.specs.Prelude.{◌↔◌, IsTrue};
ghost use Rattle.bench.specs.Counting.{IsMessage};

use crate::stream::split;
use anyhow::Result;
use std::alloc::Global;
use std::io::Read;
use sv2_frames::{Frame, TakeFrames};

/// How many messages were read and how many other frames were taken, up to the greatest count.
#[derive(Drop)]
struct Count {
    messages: u64,
    others: u64,
}

impl TakeFrames for Count {
    ghost use Rattle.bench.specs.Counting.{CountsFrame};

    ghost takes = { λ old frame more new.
        CountsFrame frame more old.messages old.others new.messages new.others };

    fn take_frame(&mut self, frame: Frame<'_>) -> bool {
        if is_message(frame.kind, frame.payload) {
            self.messages = self.messages.saturating_add(1);
        } else {
            self.others = self.others.saturating_add(1);
        }
        true
    }
}

/// Whether a payload is a mining or a template message.
fn is_message(kind: u8, payload: &[u8]) -> bool
    ensures { IsTrue result ↔ IsMessage kind payload.now }
{
    if mining_msgs::read(kind, payload).is_ok() {
        return true;
    }
    template_msgs::read(kind, payload).is_ok()
}

/// Counts the messages of the input.
pub fn report<R: Read>(alloc: Global, input: &mut R) -> Result<String> {
    let mut count = Count {
        messages: 0,
        others: 0,
    };
    let held = split(alloc, input, &mut count)?;
    Ok(format!(in alloc;
        "messages {}, others {}, held {}",
        count.messages, count.others, held
    )?)
}
