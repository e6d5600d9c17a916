//! A program over the journal: a table of records in a file, with a list of its free places.
//!
//! An author of a database starts from it. The disk has a layout of the program's own (`table`) and
//! 4 TiB, of which the file takes the written blocks (`file`). Each row is a record of 64 bytes
//! (`row`). A transaction sets a bit of the free list and writes a record, both or neither
//! (`rows`). The disk does not record its layout, so block 513 says of which table it is (`head`).
//! Two threads insert, change and delete rows (`work`) beside the logger and the installer
//! (`journal`).
//!
//! The program makes the disk at a path, writes, and stops as a crash does. Then it opens the disk
//! again, and checks that the rows are there for which it had waited. At its end it removes the
//! file.
#![tactic(auto)]

mod fault;
mod file;
mod head;
mod journal;
mod row;
mod rows;
mod table;
mod work;

use fault::Fault;
use journal::{Work, with_table};
use journal_disk::BlockDisk;
use journal_program::open_settled;
use rows::Stored;
use std::alloc::Global;
use std::env::Env;
use std::fmt::Display;
use std::fs::{File, Files};
use std::io::{Error, ErrorKind, Write};
use std::process::ExitCode;
use std::rt::Clock;
use std::sync::Wait;
use std::thread::Threads;
use std::{env, fs, io};
use table::Table;

/// Makes the table at the path, writes rows, and looks for them after it was opened again.
fn run<R: Files<File = File> + Threads + Wait + Clock + Sync, O: Write, E: Write>(
    rt: &R,
    alloc: Global,
    path: &str,
    output: &mut O,
    faults: &mut E,
) -> io::Result<()> {
    if !file::make(rt, path)? {
        writeln!(
            faults,
            "the file system takes no file of 4 TiB: {path} has 256 GiB"
        )?;
    }
    let told = write_and_read(rt, alloc, path, output, faults);
    let removed = fs::remove_file(rt, path);
    told?;
    removed
}

/// Writes rows, and looks for them after the table was opened again.
fn write_and_read<R: Files<File = File> + Threads + Wait + Clock + Sync, O: Write, E: Write>(
    rt: &R,
    alloc: Global,
    path: &str,
    output: &mut O,
    faults: &mut E,
) -> io::Result<()> {
    let stable = open(rt, alloc, path, Work::Write, faults)?;
    writeln!(output, "waited for {} rows", stable.len())?;
    let found = open(rt, alloc, path, Work::Read, faults)?;
    writeln!(
        output,
        "found {} of them on opening it again, and no torn row",
        common(&stable, &found)
    )
}

/// The number of rows that are among the others.
fn common(rows: &[Stored], others: &[Stored]) -> usize {
    rows.iter().filter(|row| others.contains(row)).count()
}

/// Opens the table in the file at the path and does the work.
fn open<R: Files<File = File> + Threads + Wait + Clock + Sync, E: Write>(
    rt: &R,
    alloc: Global,
    path: &str,
    work: Work,
    faults: &mut E,
) -> io::Result<Vec<Stored>> {
    let disk = match open_settled(rt, alloc, path) {
        Ok(settled) => settled.disk(),
        Err(why) => return refuse(path, &why, faults),
    };
    let done = match Table::new(disk.size()) {
        Some(table) => with_table(rt, alloc, disk, table, work),
        None => Err(Fault::OtherTable),
    };
    match done {
        Ok(rows) => Ok(rows),
        Err(fault) => refuse(path, &fault, faults),
    }
}

/// Prints why the table in the file at the path is not used.
fn refuse<F: Display, E: Write, T>(path: &str, fault: &F, faults: &mut E) -> io::Result<T> {
    // If it cannot be printed, the status says that the program failed.
    let _ = writeln!(faults, "{path}: {fault}");
    Err(Error::from(ErrorKind::Other))
}

/// Does that if the program was given one word, the path.
fn start<
    R: Env + AllocGlobal + Files<File = File> + Threads + Wait + Clock + Sync,
    O: Write,
    E: Write,
>(rt: &R, output: &mut O, faults: &mut E) -> io::Result<()> {
    let words: Vec<String> = env::args(rt)?.skip(1).collect(rt.alloc())?;
    match words.as_slice() {
        [path] => run(rt, rt.alloc(), path.as_str(), output, faults),
        _ => Err(Error::from(ErrorKind::InvalidInput)),
    }
}

fn main(rt: HostRuntime) -> ExitCode {
    match start(&rt, &mut rt.stdout(), &mut rt.stderr()) {
        Ok(()) => ExitCode::from(0),
        Err(error) => {
            let _ = writeln!(rt.stderr(), "{error}");
            ExitCode::from(1)
        }
    }
}
