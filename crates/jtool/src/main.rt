//! The journal at the command line: `jtool script N` makes an empty disk of N blocks in memory, and
//! answers the commands that it reads on standard input, a line for a line. `jtool format FILE N`
//! makes a disk of version 2 without files in a file, and `jtool serve FILE PORT K` serves the
//! files of a disk of either version to K connections. With the word `mirror` after K the disk is
//! read once into memory. `jtool check FILE` tells whether it is sound, and of which version, and
//! `jtool migrate FILE` makes it one of version 2.
#![tactic(auto)]

ghost use Rattle.std.specs.Prelude.{◌≡◌, ◌≢◌, ◌≤◌, ◌==◌, ℕ, map, string_bytes, IfErr, IsErrAnd};
ghost use Rattle.journal_command.specs.Asks.{AsksScript, AsksFor, IsSize};
ghost use Rattle.journal_command.specs.declared.ask.Ask.{Ask};
ghost use Rattle.journal_script.specs.Transcripts.{IsTranscript};
ghost use Rattle.jtool.specs.Programs.{EndsScript, status_of};

mod fault;
mod migrating;

use fault::Fault;
use journal_command::Ask;
use journal_program::hold_closed_streams;
use journal_service::{Reads, Service};
use migrating::migrate;
use std::alloc::Global;
use std::env;
use std::env::Env;
use std::fs::{File, Files};
use std::io::{BufWriter, Read, Write};
use std::net::{Net, TcpListener, TcpStream};
use std::process::ExitCode;
use std::sync::Wait;
use std::thread::Threads;
use std::time::Clock;

/// The program: its words, its three streams, and the status that it answers. That is 1 where
/// memory was refused before the first line, where input or output failed, where a file or a port
/// is not to be had, or where the service was refused; else 2 where the words or a line were bad;
/// else 0.
///
/// The answers of a script are written out as soon as no further line is at hand, and so is each
/// line of the service.
pub fn run<
    R: Files<File = File>
        + Net<Listener = TcpListener, Stream = TcpStream>
        + Clock
        + Threads
        + Wait
        + Sync,
    I: Read,
    O: Write,
    E: Write,
>(rt: &R, alloc: Global, words: &[String], input: &mut I, output: &mut O, faults: &mut E) -> u8
    // Words that ask for nothing that there can be.
    ensures words { ((ask : Ask) → AsksFor (map string_bytes words.now) ask → ⊥) → result ≡ 2 }
    ensures status { result ≤ 2 }

    // Words that ask for a script: at status 0 or 2 the output gained the answers of all lines of
    // the input, of which some is a bad line exactly at 2.
    ensures script { (n : ℕ) → AsksScript (map string_bytes words.now) n → IsSize n → result ≢ 1
        → IsTranscript (I.remaining input.old) (O.contents output.old) (O.contents output.new) (result == 2) }
{
    match obey(rt, alloc, words, input, output, faults) {
        Ok(()) => 0,
        Err(fault) => fault.report(faults),
    }
}

// Does what the words ask for.
fn obey<
    'w,
    R: Files<File = File>
        + Net<Listener = TcpListener, Stream = TcpStream>
        + Clock
        + Threads
        + Wait
        + Sync,
    I: Read,
    O: Write,
    E: Write,
>(
    rt: &R,
    alloc: Global,
    words: &'w [String],
    input: &mut I,
    output: &mut O,
    faults: &mut E,
) -> Result<(), Fault<'w>>
    ensures words { ((ask : Ask) → AsksFor (map string_bytes words.now) ask → ⊥)
        → IsErrAnd result (λ fault. status_of fault ≡ 2) }
    ensures script { (n : ℕ) → AsksScript (map string_bytes words.now) n → IsSize n
        → EndsScript (I.remaining input.old) (O.contents output.old) (O.contents output.new) result }
{
    match Ask::read(words)? {
        Ask::Script { blocks } => answer_script(rt, alloc, blocks, input, output),
        Ask::Format { path, blocks } => format(rt, alloc, path, blocks),
        Ask::Check { path } => check(rt, alloc, path, output, faults),
        Ask::Migrate { path } => migrate(rt, alloc, path, output),
        Ask::Serve {
            path,
            port,
            connections,
            is_mirrored,
        } => {
            let reads = if is_mirrored {
                Reads::FromMemory
            } else {
                Reads::FromFile
            };
            let service = Service {
                path,
                port,
                connections,
                reads,
            };
            serve(rt, alloc, service, output, faults)
        }
    }
}

// Answers a script.
fn answer_script<'w, R: Wait, I: Read, O: Write>(
    rt: &R,
    alloc: Global,
    blocks: u64,
    input: &mut I,
    output: &mut O,
) -> Result<(), Fault<'w>>
    requires { IsSize blocks }
    ensures { EndsScript (I.remaining input.old) (O.contents output.old) (O.contents output.new) result }
{
    if journal_script::run(rt, alloc, blocks, input, output)? {
        return Err(Fault::BadLine);
    }
    Ok(())
}

// Makes a disk in a file.
fn format<'w, R: Files<File = File> + Clock>(
    rt: &R,
    alloc: Global,
    path: &'w str,
    blocks: u64,
) -> Result<(), Fault<'w>>
    requires { IsSize blocks }
    ensures { IfErr result (λ fault. status_of fault ≡ 1) }
{
    match journal_service::format(rt, alloc, path, blocks) {
        Ok(()) => Ok(()),
        Err(fault) => Err(Fault::of_disk(fault, path)),
    }
}

// Tells whether the disk in a file is sound.
fn check<'w, R: Files<File = File> + Wait, O: Write, E: Write>(
    rt: &R,
    alloc: Global,
    path: &'w str,
    output: &mut O,
    faults: &mut E,
) -> Result<(), Fault<'w>>
    ensures { IfErr result (λ fault. status_of fault ≡ 1) }
{
    match journal_service::check(rt, alloc, path, output, faults) {
        Ok(()) => Ok(()),
        Err(fault) => Err(Fault::of_disk(fault, path)),
    }
}

// Serves the files of the disk in a file.
fn serve<
    'w,
    R: Files<File = File>
        + Net<Listener = TcpListener, Stream = TcpStream>
        + Clock
        + Threads
        + Wait
        + Sync,
    O: Write,
    E: Write,
>(
    rt: &R,
    alloc: Global,
    service: Service<'w>,
    output: &mut O,
    faults: &mut E,
) -> Result<(), Fault<'w>>
    ensures { IfErr result (λ fault. status_of fault ≡ 1) }
{
    match journal_service::serve(rt, alloc, service, output, faults) {
        Ok(()) => Ok(()),
        Err(fault) => Err(Fault::of_disk(fault, service.path)),
    }
}

fn main(rt: HostRuntime) -> ExitCode {
    hold_closed_streams(&rt);
    let faults = &mut rt.stderr();
    let status = match start(&rt, rt.stdout()) {
        Ok((words, mut output)) => run(
            &rt,
            rt.alloc(),
            &words,
            &mut rt.stdin(),
            &mut output,
            faults,
        ),
        Err(fault) => fault.report(faults),
    };
    ExitCode::from(status)
}

// The program's words, and its output with a buffer.
fn start<R: Env + AllocGlobal, O: Write + Drop>(
    rt: &R,
    output: O,
) -> Result<(Vec<String>, BufWriter<O>), Fault<'static>> {
    let words = env::args(rt)?.skip(1).collect(rt.alloc())?;
    let output = BufWriter::new(rt.alloc(), output)?;
    Ok((words, output))
}
