//! Tries the formats and the machines that need no book on cases from data files: standards' worked
//! bytes, tables and limits, lines, disks, and whole conversations.
#![tactic(auto)]

mod coinbases;
mod declaring;
mod disks;
mod fields;
mod frames;
mod hashes;
mod hosts;
mod inputs;
mod lanes;
mod lines;
mod messages;
mod partners;
mod payloads;
mod proxying;
mod sessions;
mod turns;

use std::io;
use trial_cases::{Case, Found, Trial, try_files};

/// What is tried.
const FILES: [&str; 24] = [
    "comparing.txt",
    "sv2_types.txt",
    "sv2_frames.txt",
    "messages.txt",
    "lanes.txt",
    "block_header.txt",
    "merkle_trees.txt",
    "transactions.txt",
    "assemblies.txt",
    "whole_input.txt",
    "pool_settings.txt",
    "settings_file.txt",
    "pool_io.txt",
    "disks.txt",
    "names.txt",
    "ledgers.txt",
    "openings.txt",
    "line_reader.txt",
    "v1_lines.txt",
    "v1_translate.txt",
    "miners.txt",
    "feeds.txt",
    "declarations.txt",
    "proxy_core.txt",
];

struct Formats;

impl Trial for Formats {
    fn find(found: &mut Found, subject: &str, case: Case<'_>) {
        match subject {
            "sv2_types" => fields::find(found, case),
            "sv2_frames" => frames::find(found, case),
            "messages" => messages::find(found, case),
            "lanes" => lanes::find(found, case),
            "block_header" => hashes::find(found, case),
            "merkle_trees" => hashes::find_path(found, case),
            "transactions" => coinbases::find_transaction(found, case),
            "assemblies" => coinbases::find_assembly(found, case),
            "whole_input" => inputs::find_whole(found, case),
            "pool_settings" => inputs::find_settings(found, case),
            "settings_file" => inputs::find_file(found, case),
            "pool_io" => hosts::find(found, case),
            "disks" => disks::find(found, case),
            "names" => disks::find_named(found, case),
            "ledgers" => disks::find_ledger(found, case),
            "openings" => disks::find_opened(found, case),
            "line_reader" => lines::find_stream(found, case),
            "v1_lines" => lines::find(found, case),
            "v1_translate" => sessions::find(found, case),
            "miners" => partners::find_miner(found, case),
            "feeds" => partners::find_feed(found, case),
            "declarations" => declaring::find(found, case),
            "proxy_core" => proxying::find(found, case),
            _ => found.say(case.given),
        }
    }
}

fn main(rt: HostRuntime) -> io::Result<()> {
    try_files::<Formats, HostRuntime>(&rt, &FILES)
}
