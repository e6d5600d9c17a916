//! The journal at the command line. `jnl create` makes an empty disk in a file or on a block
//! device, `jnl info` prints what a disk is, `jnl check` whether its log is well formed, and `jnl
//! seal` gives its log the form with one barrier a group, or the plain form again. `jnl backup`
//! copies a disk that nobody writes. `jnl label` gives a disk its label, and `jnl grow` more
//! blocks. `jnl serve` serves a disk to programs in any language, `jnl stat` prints what such a
//! service has counted, and `jnl stop` ends it. `jnl --help` is the manual. The program `jnlfs`
//! serves files.
#![tactic(auto)]

ghost use Rattle.std.specs.Prelude.{◌≤◌};

mod command;
mod copying;
mod counted_disk;
mod counts;
mod disks;
mod labels;
mod numbering;
mod serving;
mod stat;
mod stopping;
mod working;

use command::{PROGRAM, Subcommand};
use journal_commands::{Fault, start};
use journal_program::hold_closed_streams;
use std::alloc::Global;
use std::fs::{File, Files};
use std::io::Write;
use std::net::{Net, TcpListener, TcpStream};
use std::process::ExitCode;
use std::random::RandomSource;
use std::sync::Wait;
use std::thread::Threads;
use std::time::Clock;

/// Runs the program with these words and two outputs, and answers its status: 0 where it was done,
/// also where the words asked for help or the version, 2 where the words are no command, else 1.
/// The reason of a status of 1 or 2 is printed to `faults`.
pub fn run<
    R: Files<File = File>
        + Net<Listener = TcpListener, Stream = TcpStream>
        + Clock
        + RandomSource
        + Threads
        + Wait
        + Sync,
    O: Write,
    E: Write,
>(rt: &R, alloc: Global, words: &[String], output: &mut O, faults: &mut E) -> u8
    ensures { result ≤ 2 }
{
    match obey(rt, alloc, words, output, faults) {
        Ok(()) => 0,
        Err(fault) => fault.report(PROGRAM, output, faults),
    }
}

// Does what the words ask for.
fn obey<
    'w,
    R: Files<File = File>
        + Net<Listener = TcpListener, Stream = TcpStream>
        + Clock
        + RandomSource
        + Threads
        + Wait
        + Sync,
    O: Write,
    E: Write,
>(
    rt: &R,
    alloc: Global,
    words: &'w [String],
    output: &mut O,
    faults: &mut E,
) -> Result<(), Fault<'w>> {
    match Subcommand::parse(alloc, words)? {
        Subcommand::Create {
            path,
            blocks,
            regions,
            room,
        } => disks::create(rt, alloc, path, blocks, regions, room),
        Subcommand::CreateOnDevice(device) => {
            disks::create_on_device(rt, alloc, device, output, faults)
        }
        Subcommand::Label {
            path,
            regions,
            again,
        } => labels::label(rt, alloc, path, regions, again, output),
        Subcommand::Grow { path, blocks } => labels::grow(rt, alloc, path, blocks, output),
        Subcommand::GrowOnDevice { path, zeros } => {
            labels::grow_on_device(rt, alloc, path, zeros, output, faults)
        }
        Subcommand::Info { path } => disks::info(rt, alloc, path, output, faults),
        Subcommand::Check { path } => disks::check(rt, alloc, path, output, faults),
        Subcommand::Backup {
            path,
            copy,
            replaces,
        } => copying::back_up(rt, alloc, path, copy, replaces, output),
        Subcommand::Seal { path, form } => disks::seal(rt, alloc, path, form, output),
        Subcommand::Serve(service) => serving::serve(rt, alloc, service, output, faults),
        Subcommand::Stat { socket, form } => stat::stat(rt, alloc, socket, form, output),
        Subcommand::Stop { socket } => stopping::stop(rt, alloc, socket),
    }
}

fn main(rt: HostRuntime) -> ExitCode {
    hold_closed_streams(&rt);
    let faults = &mut rt.stderr();
    let status = match start(&rt, rt.stdout()) {
        Ok((words, mut output)) => run(&rt, rt.alloc(), &words, &mut output, faults),
        Err(fault) => fault.report(PROGRAM, &mut rt.stdout(), faults),
    };
    ExitCode::from(status)
}
