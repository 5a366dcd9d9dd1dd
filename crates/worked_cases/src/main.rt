//! Runs the top call for each case of the files that the words name, over a host, a network and
//! disks in memory, and prints a line a case: `ok` and its title, or what isn't as the case wants it. The
//! files say all that there is to a case; here stands only how they are read.
#![tactic(auto)]

mod case;
mod comparing;
mod disks;
mod expressions;
mod links;
mod outside;

use crate::case::{Case, numbers};
use crate::comparing::{Outcome, differences};
use crate::expressions::Names;
use crate::links::Progress;
use anyhow::{Context, Result, bail};
use command_line::run;
use std::alloc::Global;
use std::sync::Wait;
use std::thread::Threads;
use std::{env, fs};

fn main(rt: HostRuntime) -> Result<()> {
    let alloc = rt.alloc();
    let mut words = env::args(&rt)?;
    let _program = words.next();
    for word in words {
        let text = fs::read_to_string(&rt, word.as_str())?;
        run_file(&rt, alloc, text.as_str()).context("a file of cases")?;
    }
    Ok(())
}

/// Runs the cases of a file. The lines of a group stand before those of each of its cases.
fn run_file<R: Print + Threads + Wait + Sync>(rt: &R, alloc: Global, text: &str) -> Result<()> {
    let mut names = Names::new(alloc);
    let mut case = Case::new(alloc);
    for line in text.lines() {
        if line.is_empty() || line.starts_with('#') {
            continue;
        }
        let (key, rest) = line.split_once(' ').unwrap_or((line, ""));
        match key {
            "bytes" => names.add_bytes(rest)?,
            "text" => names.add_text(rest)?,
            "group" => {
                run_case(rt, alloc, &names, &case)?;
                case.begin_group();
            }
            "case" => {
                run_case(rt, alloc, &names, &case)?;
                case.begin(rest);
            }
            _ => case.add(key, rest)?,
        }
    }
    run_case(rt, alloc, &names, &case)
}

/// Runs a case, once for each size of the pieces that its bytes come in, and prints what came of it.
fn run_case<R: Print + Threads + Wait + Sync>(
    rt: &R,
    alloc: Global,
    names: &Names,
    case: &Case<'_>,
) -> Result<()> {
    let Some(title) = case.title() else {
        return Ok(());
    };
    let sizes = numbers(alloc, case.last("sizes").unwrap_or("1000000"))?;
    if sizes.is_empty() {
        bail!("{title} has no size");
    }
    for size in sizes {
        let found = run_once(rt, alloc, names, case, size as usize).context("a case")?;
        if found.is_empty() {
            println!(rt; "ok {title}")?;
        } else {
            println!(rt; "WRONG {title}, in pieces of {size}:{found}")?;
        }
    }
    Ok(())
}

/// Runs a case whose bytes come in pieces of at most so many, and tells what isn't as it wants it.
fn run_once<R: Threads + Wait + Sync>(
    rt: &R,
    alloc: Global,
    names: &Names,
    case: &Case<'_>,
    size: usize,
) -> Result<String> {
    let progress = [
        Progress::new(),
        Progress::new(),
        Progress::new(),
        Progress::new(),
    ];
    let mut host = outside::host_of(alloc, names, case, size)?;
    let mut network = outside::network_of(alloc, names, case, &progress)?;
    let mut disks = disks::disks_of(alloc, names, case)?;
    let words = case.words(alloc, names)?;
    let status = run(rt, alloc, &mut host, &mut network, &mut disks, &words);
    let outcome = Outcome {
        status,
        host,
        network,
        disks,
    };
    differences(alloc, names, case, &outcome)
}
