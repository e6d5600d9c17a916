// Lines to a disk of which writes were lost.
ghost use Rattle.std.specs.Prelude.{IfOk, IsOkUnless};
ghost use Rattle.journal_command.specs.Commands.{IsInside};
ghost use Rattle.journal_script.specs.Endings.{IsChosen, IsToMend, IsAnswered};
ghost use Rattle.journal_script.specs.Lost.{AnswersLost, ObeysLost, Stays, ShowsPending, Mends, Ends, IsNotPoked};
ghost use Rattle.journal_script.specs.Transcripts.{streams, ComesTo};

use crate::answer::Answer;
use crate::console::Console;
use crate::ending::{Crash, Ending};
use crate::script::Next;
use crate::script_fault::ScriptFault;
use crate::unmounted::show;
use journal_circ::Circ;
use journal_command::{Choice, Command, Room};
use journal_disk::{BlockDisk, MemDisk};
use journal_world::{Refusal, Refused};
use std::alloc::Global;
use std::io::{Read, Write};

// The answer to a line, and the state after it. `None` says that the line opens the disk.
#[derive(Drop)]
struct Left {
    answer: Option<Answer>,
    next: Next,
}

/// Answers a line, and gives the state after it.
///
/// # Errors
/// - `ScriptFault`: the input cannot be read, or the output not be written. The disk is gone.
pub fn run<I: Read + Drop, O: Write>(
    alloc: Global,
    disk: MemDisk,
    console: &mut Console<I>,
    output: &mut O,
) -> Result<Next, ScriptFault>
    requires to_mend { IsToMend disk.past }
    ensures { IfOk result (λ next. ComesTo next (streams console.old (O.contents output.old)) (streams console.new (O.contents output.new))) }
{
    if !console.advance(output)? {
        return Ok(Next::End);
    }
    let Left { answer, next } = answer(alloc, disk, console.lines.line(), &mut console.room);
    match answer {
        Some(answer) => {
            console.print(&answer, output)?;
            Ok(next)
        }
        None => Ok(next),
    }
}

// Does what the line says.
fn answer(alloc: Global, disk: MemDisk, line: &[u8], room: &mut Room) -> Left
    requires to_mend { IsToMend disk.past }
    ensures ready { IsAnswered result.answer result.next }
    ensures answered { AnswersLost disk line.now result.answer result.next }
{
    match Command::read(line, room) {
        Some(command) => obey(alloc, disk, command),
        None => stay(disk, Answer::to_no_command(line)),
    }
}

// Does what the command says.
fn obey(alloc: Global, disk: MemDisk, command: Command<'_>) -> Left
    requires inside { IsInside command }
    requires to_mend { IsToMend disk.past }
    ensures ready { IsAnswered result.answer result.next }
    ensures obeyed { ObeysLost disk command.entry result.answer result.next }
{
    match command {
        Command::Disk { block, at, len } => {
            let answer = show(alloc, &disk, block, at, len);
            stay(disk, answer)
        }
        Command::Pend => {
            let answer = pend(&disk);
            stay(disk, answer)
        }
        Command::Fail { call } => fail(disk, call),
        Command::Mend => mend(alloc, disk),
        Command::Down { choice } => end(alloc, disk, choice, Ending::Down),
        Command::Crash { choice } => end(alloc, disk, choice, Ending::Opens),
        Command::Lose { choice } => end(alloc, disk, choice, Ending::Loses),
        Command::Poke { block, .. } => {
            let answer = poke(&disk, block);
            stay(disk, answer)
        }
        _ => stay(disk, Answer::Lost),
    }
}

// Leaves the disk as it is, with this answer.
fn stay(disk: MemDisk, answer: Answer) -> Left
    requires to_mend { IsToMend disk.past }
    ensures ready { IsAnswered result.answer result.next }
    ensures stays { Stays disk answer result.answer result.next }
{
    Left {
        answer: Some(answer),
        next: Next::Lost(disk),
    }
}

// Shows the blocks with pending writes.
fn pend(disk: &MemDisk) -> Answer
    ensures { ShowsPending disk.now result }
{
    match disk.pending() {
        Ok(pending) => Answer::Pending(pending),
        Err(why) => Answer::Refused(why),
    }
}

// Makes a device call fail.
fn fail(disk: MemDisk, call: u32) -> Left
    requires to_mend { IsToMend disk.past }
    ensures ready { IsAnswered result.answer result.next }
    ensures stays { Stays (record disk { fails_in = call }) Answer.Done result.answer result.next }
{
    let mut disk = disk;
    disk.fail_in(u64::from(call));
    stay(disk, Answer::Done)
}

// A poke is for a disk that is down.
fn poke(disk: &MemDisk, block: u32) -> Answer
    ensures { IsNotPoked disk.now block result }
{
    if u64::from(block) < disk.size() {
        Answer::Lost
    } else {
        Answer::BadLine
    }
}

// Makes stable what the disk reads.
fn mend(alloc: Global, disk: MemDisk) -> Left
    requires to_mend { IsToMend disk.past }
    ensures ready { IsAnswered result.answer result.next }
    ensures mended { Mends disk result.answer result.next }
{
    match Circ::mend(alloc, disk) {
        Ok(disk) => Left {
            answer: Some(Answer::Done),
            next: Next::Down(disk),
        },
        Err(Refused { refusal, disk }) => stay(disk, Answer::Refused(refusal)),
    }
}

// Leaves the disk by the image that the choice names.
fn end(alloc: Global, disk: MemDisk, choice: Choice<'_>, ending: Ending) -> Left
    requires to_mend { IsToMend disk.past }
    ensures ready { IsAnswered result.answer result.next }
    ensures ended { Ends disk choice.entry ending result.answer result.next }
{
    match numbers_of(alloc, &disk, choice) {
        Ok(numbers) => {
            let crash = Crash { numbers, ending };
            Left {
                answer: crash.answer(),
                next: crash.leave(disk),
            }
        }
        Err(why) => stay(disk, Answer::Refused(why)),
    }
}

// The numbers that the choice names.
fn numbers_of(alloc: Global, disk: &MemDisk, choice: Choice<'_>) -> Result<Vec<u32>, Refusal<()>>
    ensures chosen { IfOk result (λ numbers. IsChosen choice.entry numbers.items) }
    ensures refusal { IsOkUnless result Refusal.NoMemory }
{
    match choice {
        Choice::Stable => Ok(Vec::new(alloc)),
        Choice::Last => {
            let pending = disk.pending()?;
            Ok(vec![in alloc; u32::MAX; pending.len()]?)
        }
        Choice::Listed(numbers) => Ok(numbers.to_vec(alloc)?),
    }
}
