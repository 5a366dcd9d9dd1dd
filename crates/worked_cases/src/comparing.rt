//! What came of a case, compared with what it wants.

use crate::case::{Case, Line};
use crate::disks::content_of;
use crate::expressions::{Names, number};
use crate::links::GatedLink;
use crate::outside::CaseNetwork;
use anyhow::Result;
use ledger_disk::MemDisks;
use pool_io::{MemHost, MemKeeper, Opening};
use pool_network::Reaching;
use std::alloc::Global;

/// What a run answered, and what it left.
#[derive(Drop)]
pub struct Outcome<'a> {
    pub status: u8,
    pub host: MemHost,
    pub network: CaseNetwork<'a>,
    pub disks: MemDisks,
}

/// What isn't as the case wants it, each behind a blank: the line's key and what was found.
pub fn differences(
    alloc: Global,
    names: &Names,
    case: &Case<'_>,
    outcome: &Outcome<'_>,
) -> Result<String> {
    let mut text = String::new(alloc);
    if case.last("status").is_none() {
        text.push_str(" no status is wanted")?;
    }
    for line in case.lines() {
        if line.key != "held" && case.last(line.key) != Some(line.rest) {
            continue;
        }
        let (wanted, found) = compared(alloc, names, *line, outcome)?;
        if wanted.as_str() != found.as_str() {
            let key = line.key;
            text.push_str(format!(in alloc; " {key} is {found}, not {wanted}")?.as_str())?;
        }
    }
    Ok(text)
}

/// What a line wants, and what was found, as texts. They are the same where it wants nothing.
fn compared(
    alloc: Global,
    names: &Names,
    line: Line<'_>,
    outcome: &Outcome<'_>,
) -> Result<(String, String)> {
    let host = &outcome.host;
    let found = match line.key {
        "status" => format!(in alloc; "{}", outcome.status)?,
        "output" => return against_bytes(alloc, names.bytes_of(line.rest)?, &printed(alloc, host)?),
        "prints" => return against_bytes(alloc, names.text_of(line.rest)?, &printed(alloc, host)?),
        "kept" => return against_bytes(alloc, names.bytes_of(line.rest)?, &kept(alloc, host)?),
        "records" => format!(in alloc; "{}", records(host))?,
        "opened" => opened(alloc, host.calls())?,
        "reached" => reached(alloc, outcome.network.calls())?,
        "asked" => asked(alloc, &outcome.network)?,
        "back" => came_back(alloc, outcome)?,
        "disks" => asked_disks(alloc, &outcome.disks)?,
        "on-disk" => return against_disk(alloc, names, line.rest, &outcome.disks),
        "held" => return against_held(alloc, names, line.rest, &outcome.network),
        _ => String::from_str(alloc, line.rest)?,
    };
    Ok((String::from_str(alloc, line.rest)?, found))
}

/// Both in hex.
fn against_bytes(alloc: Global, wanted: Vec<u8>, found: &[u8]) -> Result<(String, String)> {
    Ok((hex::encode(alloc, &wanted)?, hex::encode(alloc, found)?))
}

/// What the sinks hold that came back, one behind the other.
fn printed(alloc: Global, host: &MemHost) -> Result<Vec<u8>> {
    let mut bytes = Vec::new(alloc);
    for sink in host.sinks() {
        bytes.extend_from_slice(sink.bytes())?;
    }
    Ok(bytes)
}

/// The records of the keepers that came back, one behind the other.
fn kept(alloc: Global, host: &MemHost) -> Result<Vec<u8>> {
    let mut bytes = Vec::new(alloc);
    for keeper in host.keepers() {
        add_records(&mut bytes, keeper)?;
    }
    Ok(bytes)
}

fn add_records(bytes: &mut Vec<u8>, keeper: &MemKeeper) -> Result<()> {
    for record in keeper.records() {
        bytes.extend_from_slice(record.bytes())?;
    }
    Ok(())
}

/// How many records the keepers have that came back.
fn records(host: &MemHost) -> usize {
    let mut count = 0usize;
    for keeper in host.keepers() {
        count = count.saturating_add(keeper.records().len());
    }
    count
}

/// The opening calls, with a blank between two of them.
fn opened(alloc: Global, calls: &[Opening]) -> Result<String> {
    let mut text = String::new(alloc);
    for call in calls {
        if !text.is_empty() {
            text.push_str(" ")?;
        }
        match call {
            Opening::Input => text.push_str("input")?,
            Opening::Output => text.push_str("output")?,
            Opening::Source(name) => {
                text.push_str("source:")?;
                text.push_str(name.text())?;
            }
            Opening::Keeper(name) => {
                text.push_str("keeper:")?;
                text.push_str(name.text())?;
            }
        }
    }
    Ok(text)
}

/// The calls that named an address, with a blank between two of them.
fn reached(alloc: Global, calls: &[Reaching]) -> Result<String> {
    let mut text = String::new(alloc);
    for call in calls {
        if !text.is_empty() {
            text.push_str(" ")?;
        }
        let said = match call {
            Reaching::Dial(address) => {
                let address = address.text();
                format!(in alloc; "dial={address}")?
            }
            Reaching::Doors(address, count) => {
                let address = address.text();
                format!(in alloc; "doors={address}={count}")?
            }
        };
        text.push_str(said.as_str())?;
    }
    Ok(text)
}

/// How often each door was asked that came back, with a blank between two of them.
fn asked(alloc: Global, network: &CaseNetwork<'_>) -> Result<String> {
    let mut text = String::new(alloc);
    for doors in network.doors() {
        for door in doors.as_slice() {
            if !text.is_empty() {
                text.push_str(" ")?;
            }
            let times = door.asked();
            text.push_str(format!(in alloc; "{times}")?.as_str())?;
        }
    }
    Ok(text)
}

/// How many sources, sinks, keepers, links and lists of doors came back.
fn came_back(alloc: Global, outcome: &Outcome<'_>) -> Result<String> {
    let host = &outcome.host;
    let sources = host.sources().len();
    let sinks = host.sinks().len();
    let keepers = host.keepers().len();
    let links = outcome.network.links().len();
    let doors = outcome.network.doors().len();
    Ok(format!(in alloc; "{sources} {sinks} {keepers} {links} {doors}")?)
}

/// The names of the disks that were asked for and how many came back, with a blank between two.
fn asked_disks(alloc: Global, disks: &MemDisks) -> Result<String> {
    let mut text = String::new(alloc);
    for name in disks.calls() {
        text.push_str(name.text())?;
        text.push_str(" ")?;
    }
    let back = disks.disks().len();
    text.push_str(format!(in alloc; "{back}")?.as_str())?;
    Ok(text)
}

/// What the first disk holds that came back.
fn against_disk(
    alloc: Global,
    names: &Names,
    line: &str,
    disks: &MemDisks,
) -> Result<(String, String)> {
    let wanted = hex::encode(alloc, &content_of(alloc, names, line)?)?;
    match disks.disks().first() {
        Some(disk) => Ok((wanted, hex::encode(alloc, disk.content())?)),
        None => Ok((wanted, String::from_str(alloc, "of no disk")?)),
    }
}

/// `PLACE EXPRESSION`: what the link at the place holds that came back, hung up, to one who gave it.
fn against_held(
    alloc: Global,
    names: &Names,
    line: &str,
    network: &CaseNetwork<'_>,
) -> Result<(String, String)> {
    let (place, expression) = line.split_once(' ').unwrap_or((line, ""));
    let place = number(place)? as usize;
    let wanted = hex::encode(alloc, &names.bytes_of(expression)?)?;
    if let Some(held) = held_at(place, network.links()) {
        return Ok((wanted, hex::encode(alloc, held)?));
    }
    for doors in network.doors() {
        for door in doors.as_slice() {
            if let Some(held) = held_at(place, door.links()) {
                return Ok((wanted, hex::encode(alloc, held)?));
            }
        }
    }
    Ok((wanted, String::from_str(alloc, "of no link")?))
}

/// What the link at a place holds, where it is one of these and was hung up.
fn held_at<'a>(place: usize, links: &'a [GatedLink<'_>]) -> Option<&'a [u8]> {
    for link in links {
        if link.place == place && link.is_over {
            return Some(&link.held);
        }
    }
    None
}
