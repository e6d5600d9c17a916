//! The files of a disk at the command line. `jnlfs make` makes a disk without files, with a tree or
//! with flat files. `jnlfs check` prints whether the files of a disk are sound, and `jnlfs migrate`
//! makes a disk of version 1 one of version 2, or writes flat files to a new disk with a tree.
//! `jnlfs grow` gives a disk with a tree more blocks.
//! `jnlfs serve` serves the files so that a Linux machine mounts them, and `jnlfs stop` ends such a
//! service. The version of a disk says which protocol it is served by: 1 and 2 have flat files, and
//! 3 a tree. `jnlfs --help` is the manual. The program `jnl` looks at such a disk too, and seals
//! its log.
#![tactic(auto)]

ghost use Rattle.std.specs.Prelude.{◌≤◌};

mod allowing;
mod command;
mod disks;
mod growing;
mod making;
mod migrating;
mod serving;
mod stopping;
mod unserved;

use command::{PROGRAM, Subcommand};
use journal_commands::{Fault, start};
use journal_program::hold_closed_streams;
use std::alloc::Global;
use std::fs::{File, Files};
use std::io::Write;
use std::net::{Net, TcpListener, TcpStream};
use std::process::ExitCode;
use std::random::RandomSource;
use std::sync::Wait;
use std::thread::Threads;
use std::time::Clock;

/// Runs the program with these words and two outputs, and answers its status: 0 where it was done,
/// also where the words asked for help or the version, 2 where the words are no command, else 1.
/// The reason of a status of 1 or 2 is printed to `faults`.
pub fn run<
    R: Files<File = File>
        + Net<Listener = TcpListener, Stream = TcpStream>
        + Clock
        + Threads
        + RandomSource
        + Wait
        + Sync,
    O: Write,
    E: Write,
>(rt: &R, alloc: Global, words: &[String], output: &mut O, faults: &mut E) -> u8
    ensures { result ≤ 2 }
{
    match obey(rt, alloc, words, output, faults) {
        Ok(()) => 0,
        Err(fault) => fault.report(PROGRAM, output, faults),
    }
}

// Does what the words ask for.
fn obey<
    'w,
    R: Files<File = File>
        + Net<Listener = TcpListener, Stream = TcpStream>
        + Clock
        + Threads
        + RandomSource
        + Wait
        + Sync,
    O: Write,
    E: Write,
>(
    rt: &R,
    alloc: Global,
    words: &'w [String],
    output: &mut O,
    faults: &mut E,
) -> Result<(), Fault<'w>> {
    match Subcommand::parse(alloc, words)? {
        Subcommand::Make(disk) => making::make(rt, alloc, disk),
        Subcommand::Check { path } => disks::check(rt, alloc, path, output, faults),
        Subcommand::Migrate { path } => disks::migrate(rt, alloc, path, output),
        Subcommand::MigrateToTree(migration) => {
            migrating::migrate_to_tree(rt, alloc, migration, output)
        }
        Subcommand::Grow { path, blocks } => {
            growing::grow(rt, alloc, path, blocks, output, faults)
        }
        Subcommand::Serve { service, allowed } => {
            serving::serve(rt, alloc, service, &allowed, output, faults)
        }
        Subcommand::Stop { socket } => stopping::stop(rt, socket),
    }
}

fn main(rt: HostRuntime) -> ExitCode {
    hold_closed_streams(&rt);
    let faults = &mut rt.stderr();
    let status = match start(&rt, rt.stdout()) {
        Ok((words, mut output)) => run(&rt, rt.alloc(), &words, &mut output, faults),
        Err(fault) => fault.report(PROGRAM, &mut rt.stdout(), faults),
    };
    ExitCode::from(status)
}
