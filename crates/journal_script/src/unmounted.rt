// Lines to a disk that is down.
ghost use Rattle.std.specs.Prelude.{◌≡◌, ◌≤◌, ◌+◌, ◌<◌, IfOk, IsOkUnless, slice_range, length};
ghost use Rattle.journal_disk.specs.Disks.{read_of};
ghost use Rattle.journal_command.specs.Commands.{IsInside};
ghost use Rattle.journal_script.specs.Downs.{AnswersDown, ObeysDown, Pokes, MendsWhole, ShowsBytes};
ghost use Rattle.journal_script.specs.Endings.{IsWhole};
ghost use Rattle.journal_script.specs.Transcripts.{streams, ComesTo};

use crate::answer::Answer;
use crate::blocks::{bytes_of, overwrite};
use crate::console::Console;
use crate::script::Next;
use crate::script_fault::ScriptFault;
use journal_block::Block;
use journal_circ::Circ;
use journal_command::{Command, Room};
use journal_disk::{BlockDisk, MemDisk};
use journal_world::{Refusal, Refused, Value};
use std::alloc::Global;
use std::io::{Read, Write};

/// Answers line after line, until one opens the disk, on which nothing is pending.
///
/// # Errors
/// - `CannotRead`: the input fails.
/// - `CannotWrite`: the output fails.
pub fn run<I: Read + Drop, O: Write>(
    alloc: Global,
    disk: MemDisk,
    console: &mut Console<I>,
    output: &mut O,
) -> Result<Next, ScriptFault>
    requires whole { IsWhole disk.past }
    ensures { IfOk result (λ next. ComesTo next (streams console.old (O.contents output.old)) (streams console.new (O.contents output.new))) }
{
    let mut disk = disk;
    for _ in 0..u64::MAX {
        if !console.advance(output)? {
            return Ok(Next::End);
        }
        let (left, answer) = answer(alloc, disk, console.lines.line(), &mut console.room);
        disk = left;
        match answer {
            Some(answer) => console.print(&answer, output)?,
            None => return Ok(Next::Open(disk)),
        }
    }
    Err(ScriptFault::CannotRead)
}

// Does what the line says, and answers it. `None` says that the line opens the disk.
fn answer(alloc: Global, disk: MemDisk, line: &[u8], room: &mut Room) -> (MemDisk, Option<Answer>)
    requires whole { IsWhole disk.past }
    ensures whole { IsWhole result.0.past }
    ensures answered { AnswersDown disk.past line.now result.1 result.0.past }
{
    match Command::read(line, room) {
        Some(command) => obey(alloc, disk, command),
        None => (disk, Some(Answer::to_no_command(line))),
    }
}

// Does what the command says, likewise.
fn obey(alloc: Global, disk: MemDisk, command: Command<'_>) -> (MemDisk, Option<Answer>)
    requires inside { IsInside command }
    requires whole { IsWhole disk.past }
    ensures whole { IsWhole result.0.past }
    ensures obeyed { ObeysDown disk.past command.entry result.1 result.0.past }
{
    match command {
        Command::Disk { block, at, len } => {
            let answer = show(alloc, &disk, block, at, len);
            (disk, Some(answer))
        }
        Command::Poke { block, at, value } => {
            let (disk, answer) = poke(alloc, disk, u64::from(block), at as usize, value);
            (disk, Some(answer))
        }
        Command::Mend => {
            let (disk, answer) = mend(alloc, disk);
            (disk, Some(answer))
        }
        Command::Open => (disk, None),
        _ => (disk, Some(Answer::Down)),
    }
}

// Overwrites bytes of a block, at once stable.
fn poke(alloc: Global, disk: MemDisk, block: u64, at: usize, value: &[u8]) -> (MemDisk, Answer)
    requires inside { at + length value.now ≤ 4096 }
    requires whole { IsWhole disk.past }
    ensures whole { IsWhole result.0.past }
    ensures poked { Pokes disk.past block at value.now result.1 result.0.past }
{
    let mut disk = disk;
    if block >= disk.size() {
        return (disk, Answer::BadLine);
    }
    match overwrite(alloc, &mut disk, block, at, value) {
        Ok(()) => (disk.crash(&[]), Answer::Done),
        // A write that failed may be pending.
        Err(why) => (disk.crash(&[]), Answer::Refused(why)),
    }
}

// Makes stable what the disk reads, of which nothing was lost.
fn mend(alloc: Global, disk: MemDisk) -> (MemDisk, Answer)
    requires whole { IsWhole disk.past }
    ensures whole { IsWhole result.0.past }
    ensures mended { MendsWhole disk.past result.1 result.0.past }
{
    match Circ::mend(alloc, disk) {
        Ok(disk) => (disk, Answer::Done),
        // Its writes may be pending.
        Err(Refused { refusal, disk }) => (disk.crash(&[]), Answer::Refused(refusal)),
    }
}

/// Shows bytes of a block, as a read of the disk gives them. It is no device call.
pub(crate) fn show(alloc: Global, disk: &MemDisk, block: u32, at: u32, len: u32) -> Answer
    requires inside { at + len ≤ 4096 }
    ensures { ShowsBytes disk.now.past block at len result }
{
    if u64::from(block) >= disk.size() {
        return Answer::BadLine;
    }
    match read(alloc, disk, u64::from(block), at, len) {
        Ok(bytes) => Answer::Value(bytes),
        Err(why) => Answer::Refused(why),
    }
}

// Bytes of a block that the disk has.
fn read(alloc: Global, disk: &MemDisk, block: u64, at: u32, len: u32) -> Result<Value, Refusal<()>>
    requires block { block < disk.now.past.size }
    requires inside { at + len ≤ 4096 }
    ensures bytes { IfOk result (λ value. value ≡ slice_range (read_of disk.now.past block) at (at + len)) }
    ensures len { IfOk result (λ value. length value ≡ len) }
    ensures refusal { IsOkUnless result Refusal.NoMemory }
{
    let mut copy = Block::try_new(alloc)?;
    disk.peek(block, &mut copy);
    bytes_of(alloc, &copy, at, len)
}
