//! Tries what holds a pool's book: a book by itself, at a desk, and under sessions of frames and of
//! lines; and a counter at a desk.
#![tactic(auto)]

mod asking;
mod books;
mod counter;
mod desks;
mod lines;
mod links;
mod pairs;
mod pieces;
mod plays;
mod steps;

use crate::books::Books;
use crate::lines::Lines;
use crate::plays::try_plays;
use std::io;
use trial_cases::{try_files, try_operations};

fn main(rt: HostRuntime) -> io::Result<()> {
    try_operations::<Books, HostRuntime>(&rt, "books.txt")?;
    try_operations::<Books, HostRuntime>(&rt, "news.txt")?;
    try_plays(&rt, "pieces.txt", "")?;
    let title = "a counter is called by two";
    try_plays(&rt, "counter.txt", title)?;
    let title = "sessions end as their input and the outside bring it";
    try_plays(&rt, "links.txt", title)?;
    pairs::try_desk(&rt, "desk.txt", "two threads book each share once")?;
    try_files::<Lines, HostRuntime>(&rt, &["lines.txt"])
}
