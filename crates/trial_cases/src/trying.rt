//! The cases of a program's files, tried one after the other.

use crate::found::Found;
use crate::parts::Case;
use std::rt::Files;
use std::{fs, io};

/// What a program tries.
pub trait Trial {
    /// Tells what comes of what a case of a subject gives.
    fn find(found: &mut Found, subject: &str, case: Case<'_>);
}

/// Tries each file, `SUBJECT.txt`, case by case: a line each, but for empty ones and those that begin
/// with `#`. Prints each case whose finding isn't the wanted one, and for each subject how many are
/// right.
pub fn try_files<T: Trial, R: Files + Print + AllocGlobal>(
    rt: &R,
    files: &[&str],
) -> io::Result<()> {
    for file in files {
        let text = fs::read_to_string(rt, file)?;
        let subject = file.strip_suffix(".txt").unwrap_or(file);
        try_cases::<T, R>(rt, subject, text.as_str())?;
    }
    Ok(())
}

fn try_cases<T: Trial, R: Print + AllocGlobal>(
    rt: &R,
    subject: &str,
    text: &str,
) -> io::Result<()> {
    let mut right = 0u32;
    for line in text.lines() {
        if !line.is_empty() && !line.starts_with('#') {
            let mut found = Found::new(rt.alloc());
            if is_right::<T>(&mut found, subject, line) {
                right = right.wrapping_add(1);
            } else {
                println!(rt; "{subject}, wrong: {line}\n    found: {}", found.text())?;
            }
        }
    }
    println!(rt; "{subject}: {right} right")
}

/// Whether what is found is what the line's last part wants.
fn is_right<T: Trial>(found: &mut Found, subject: &str, line: &str) -> bool {
    let (given, wanted) = line.rsplit_once('|').unwrap_or(("", line));
    T::find(found, subject, Case { given });
    found.text() == wanted.trim()
}
