//! Tries the test miner's talk over a link in memory; then a feed, a pool and two miners that meet in this
//! process, and the same with a proxy between pool and miners. Prints `ok` and the title of each case, or what
//! was found.
#![tactic(auto)]

mod counted_link;
mod farm;
mod farm_link;
mod meeting;
mod pair_link;
mod talks;

use anyhow::Result;
use std::fs;
use trial_cases::Found;

fn main(rt: HostRuntime) -> Result<()> {
    let alloc = rt.alloc();
    let text = fs::read_to_string(&rt, "talks.txt")?;
    for line in text.lines() {
        if !line.is_empty() && !line.starts_with('#') {
            let mut found = Found::new(alloc);
            talks::try_line(&mut found, line);
            println!(rt; "{}", found.text())?;
        }
    }
    let script = fs::read_to_string(&rt, "script.txt")?;
    let script = Found::new(alloc).bytes_of(script.as_str());
    let wanted = fs::read_to_string(&rt, "meeting.txt")?;
    let met = meeting::meet(&rt, alloc, &script)?;
    print_case(&rt, "a feed, a pool and two miners meet", &met, &wanted)?;
    let wanted = fs::read_to_string(&rt, "farm.txt")?;
    let farm = farm::meet_behind_proxy(&rt, alloc, &script)?;
    print_case(
        &rt,
        "a feed, a pool, a proxy and two miners behind it meet",
        &farm,
        &wanted,
    )?;
    Ok(())
}

/// Says `ok` and the title where what was found has the lines that are wanted, or else what was found.
fn print_case<R: Print>(rt: &R, title: &str, found: &str, wanted: &str) -> Result<()> {
    if has_same_lines(found, wanted) {
        println!(rt; "ok {title}")?;
    } else {
        println!(rt; "WRONG {title}:\n{found}")?;
    }
    Ok(())
}

/// Whether they have the same lines, maybe in another order: which account is credited first is left
/// to the threads.
fn has_same_lines(found: &str, wanted: &str) -> bool {
    found.lines().count() == wanted.lines().count()
        && wanted
            .lines()
            .all(|line| found.lines().any(|other| other == line))
}
