//! The program: `main`, which gives the words of the command line to the top call `run`, over the
//! adapters of the real system.
#![tactic(auto)]

ghost use Rattle.std.specs.Prelude.{◌≡◌, IfOk, map, drop, string_bytes};
ghost use Rattle.std.specs.Vec.Iter.{into_iter_items};

use command_line::{Word, run};
use ledger_disk::Disks;
use pool_io::Host;
use pool_network::{Door, Network};
use real_edge::{FileDisks, StreamHost, TcpNetwork};
use std::alloc::{AllocError, Global};
use std::env::Args;
use std::fs::File;
use std::process::ExitCode;
use std::rt::{Env, Files};
use std::sync::Wait;
use std::thread::Threads;
use std::{env, io};
use stream_commands::Status;

/// The words after the program's name.
fn words_of<E: Env + AllocGlobal>(process: &E) -> io::Result<Vec<Word>> {
    Ok(words_behind_name(process.alloc(), env::args(process)?)?)
}

/// The texts behind the first, as words.
fn words_behind_name(alloc: Global, mut texts: Args) -> Result<Vec<Word>, AllocError>
    ensures { IfOk result (λ words. words.items
        ≡ map string_bytes (drop 1 (into_iter_items texts))) }
{
    let _name = texts.next();
    let mut words = Vec::new(alloc);
    for text in texts {
        words.push(Word::of(text))?;
    }
    Ok(words)
}

/// Does what the words of a process ask for, and answers its status.
fn answer<E: Env + AllocGlobal, R: Threads + Wait + Sync, H: Host, N: Network, V: Disks>(
    process: &E,
    rt: &R,
    host: &mut H,
    network: &mut N,
    disks: &mut V,
) -> u8
where
    H::K: Send,
    N::D: Send,
    <N::D as Door>::L: Send,
    V::Z: Send,
{
    match words_of(process) {
        Ok(words) => run(rt, process.alloc(), host, network, disks, &words),
        // A word that is no text is in none of the forms.
        Err(error) if error.kind() == io::ErrorKind::InvalidData => Status::Usage.code(),
        Err(_) => Status::Memory.code(),
    }
}

/// The null device, opened three times. The lowest free numbers are given first, so whichever of the
/// standard streams were closed are taken while this is held: no file or connection that is opened
/// later gets the number of one, and with it what is written there.
fn held_streams<F: Files<File = File>>(files: &F) -> io::Result<[File; 3]> {
    let first = File::open(files, "/dev/null")?;
    let second = File::open(files, "/dev/null")?;
    let third = File::open(files, "/dev/null")?;
    Ok([first, second, third])
}

fn main(rt: HostRuntime) -> ExitCode {
    let Ok(_held) = held_streams(&rt) else {
        return ExitCode::from(Status::HostFault.code());
    };
    let mut host = StreamHost::new(rt.alloc(), rt.stdin(), rt.stdout(), rt);
    let mut network = TcpNetwork::new(rt.alloc(), rt);
    let mut disks = FileDisks::new(rt.alloc(), rt);
    ExitCode::from(answer(&rt, &rt, &mut host, &mut network, &mut disks))
}
