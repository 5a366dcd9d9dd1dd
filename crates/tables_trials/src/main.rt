//! Trials of the tables, of payouts, of a ledger's records, of books that are resumed and of ledgers on
//! disks: each subject has a file of cases, whose lines are carried out one after the other, and each
//! answer is compared with the one that the line wants.
#![tactic(auto)]

mod asking;
mod crashed;
mod grants;
mod jobs;
mod leads;
mod openings;
mod printed;
mod reading;
mod records;
mod resumed;
mod sessions;
mod shares;
mod tallies;

use std::io;
use trial_cases::try_operations;

fn main(rt: HostRuntime) -> io::Result<()> {
    try_operations::<printed::Printed, HostRuntime>(&rt, "printed.txt")?;
    try_operations::<leads::Leads, HostRuntime>(&rt, "leads.txt")?;
    try_operations::<sessions::Entered, HostRuntime>(&rt, "sessions.txt")?;
    try_operations::<openings::Opened, HostRuntime>(&rt, "openings.txt")?;
    try_operations::<grants::Granted, HostRuntime>(&rt, "grants.txt")?;
    try_operations::<jobs::Told, HostRuntime>(&rt, "jobs.txt")?;
    try_operations::<shares::Credited, HostRuntime>(&rt, "shares.txt")?;
    try_operations::<tallies::Tallies, HostRuntime>(&rt, "tallies.txt")?;
    try_operations::<records::Pieces, HostRuntime>(&rt, "records.txt")?;
    try_operations::<resumed::Resumed, HostRuntime>(&rt, "resumed.txt")?;
    try_operations::<crashed::Crashed, HostRuntime>(&rt, "crashed.txt")
}
