//! All frames of a generated session.

ghost use Rattle.std.specs.Prelude.{◌≡◌, ◌≤◌, ◌++◌, OnOk};
ghost use Rattle.load_command.specs.Frames as frames;

use crate::frames::{put_job, put_opening, put_setup, put_share};
use rand_core::utils::NextWord;
use rand_pcg::Pcg32;
use std::alloc::AllocError;

/// How many shares a generated session submits.
pub const STEPS: u32 = 20_000;

/// Appends the frames of the session with a number, with so many shares: the setup, sixteen openings,
/// the first template with its tip, and then the steps.
pub fn put_load(number: u64, steps: u32, out: &mut Vec<u8>) -> Result<(), AllocError>
    requires { steps ≤ 20000 }
    ensures { OnOk result (out.new.items ≡ out.old.items ++ frames.load_frames number steps) }
{
    put_setup(out)?;
    put_openings(out)?;
    put_job(out, 1)?;
    put_steps(out, number, steps)
}

fn put_openings(out: &mut Vec<u8>) -> Result<(), AllocError>
    ensures { OnOk result (out.new.items ≡ out.old.items ++ frames.openings_frames 16) }
{
    for number in 0..16 {
        put_opening(out, number)?;
    }
    Ok(())
}

fn put_steps(out: &mut Vec<u8>, number: u64, steps: u32) -> Result<(), AllocError>
    requires { steps ≤ 20000 }
    ensures { OnOk result (out.new.items ≡ out.old.items ++ frames.steps_frames number steps) }
{
    let mut generator = Pcg32::new(number, 1);
    for step in 0..steps {
        let random = generator.next_word();
        put_step(out, step, random)?;
    }
    Ok(())
}

/// Appends the frames of a step: the news that it brings, and a share.
fn put_step(out: &mut Vec<u8>, step: u32, random: u32) -> Result<(), AllocError>
    requires { step ≤ 20000 }
    ensures { OnOk result (out.new.items ≡ out.old.items ++ (frames.news_frames step
        ++ frames.share_frame step (frames.templates_at step) random)) }
{
    put_news(out, step)?;
    put_share(out, step, templates_at(step), random)
}

/// Appends a template with its tip, every 2,000 steps.
fn put_news(out: &mut Vec<u8>, step: u32) -> Result<(), AllocError>
    ensures { OnOk result (out.new.items ≡ out.old.items ++ frames.news_frames step) }
{
    if !is_job_step(step) {
        return Ok(());
    }
    put_job(out, u64::from(templates_at(step)))
}

fn is_job_step(step: u32) -> bool
    ensures { result ≡ frames.is_job_step step }
{
    step % 2000 == 0 && step != 0
}

/// How many templates came up to a step.
fn templates_at(step: u32) -> u32
    ensures { result ≡ frames.templates_at step }
{
    1 + step / 2000
}
