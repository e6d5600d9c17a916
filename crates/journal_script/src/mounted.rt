// A disk that is up: its journal, from the opening until it is down.
ghost use Rattle.std.specs.Prelude.{◌≡◌, ◌≤◌, IfOk, OnOk};
ghost use Rattle.journal_world.specs.Files.{files};
ghost use Rattle.journal_world.specs.declared.layout.TheConstants.{MIN_BLOCKS};
ghost use Rattle.journal_script.specs.Endings.{IsWhole, IsToMend};
ghost use Rattle.journal_script.specs.Transcripts.{Streams, streams, Opens, OpensToCrash, TellsOpening, TellsEnd, RefusesOpening, ComesTo, ComesToCrash};

use crate::answer::Answer;
use crate::client::{Client, Mount};
use crate::console::Console;
use crate::ending::Crash;
use crate::script::Next;
use crate::script_fault::ScriptFault;
use journal_disk::{BlockDisk, MemDisk};
use journal_history::{Book, Naming, Session};
use journal_lockmap::SlotCell;
use journal_twophase::Journal;
use journal_world::{AnyMap, Refusal, Refused};
use std::alloc::Global;
use std::io::{Read, Write};
use std::marker::Brand;
use std::ops::ControlFlow;
use std::sync::Wait;

/// The cause of an opening.
#[derive(Clone, Copy)]
pub enum Opening {
    /// The program, before the first line: a refusal ends the program.
    First,
    /// The line that was read last, which the result of the opening answers.
    Asked,
}

/// Opens the disk, with a history of its own, and answers lines until it is down.
///
/// # Errors
/// - `Refused`: the first opening is refused, or the closing.
/// - `CannotRead`: the input fails.
/// - `CannotWrite`: the output fails.
pub fn run<W: Wait, I: Read + Drop, O: Write>(
    rt: &W,
    alloc: Global,
    disk: MemDisk,
    opening: Opening,
    console: &mut Console<I>,
    output: &mut O,
) -> Result<Next, ScriptFault>
    requires whole { IsWhole disk.past }
    ensures { IfOk result (Opens opening (streams console.old (O.contents output.old)) (streams console.new (O.contents output.new))) }
{
    let book: Book<AnyMap> = Book::open::<()>().unwrap();
    let Ok(cell) = SlotCell::open(alloc) else {
        return refuse(Refusal::<()>::NoMemory, disk, opening, console, output);
    };
    mount::<Brand, W, I, O>(rt, alloc, &book, cell, disk, opening, console, output)
}

// The same, with the book of the history.
fn mount<J: Naming, W: Wait, I: Read + Drop, O: Write>(
    rt: &W,
    alloc: Global,
    book: &Book<AnyMap>,
    cell: SlotCell,
    disk: MemDisk,
    opening: Opening,
    console: &mut Console<I>,
    output: &mut O,
) -> Result<Next, ScriptFault>
    requires book { book.now ≡ J.book }
    requires cell { cell ≡ J.cell }
    requires layout { J.layout ≡ files disk.past.size }
    requires whole { IsWhole disk.past }
    ensures { IfOk result (Opens opening (streams console.old (O.contents output.old)) (streams console.new (O.contents output.new))) }
{
    let blocks = disk.size();
    match Journal::open(alloc, book, cell, disk, &AnyMap) {
        Ok(journal) => { serve::<J, W, I, O>(rt, alloc, blocks, journal, opening, console, output) }
        Err(Refused { refusal, disk }) => refuse(refusal, disk, opening, console, output),
    }
}

// Answers that the disk is not opened, if a line asked for it.
fn refuse<C: Drop, I: Read + Drop, O: Write>(
    why: Refusal<C>,
    disk: MemDisk,
    opening: Opening,
    console: &mut Console<I>,
    output: &mut O,
) -> Result<Next, ScriptFault>
    ensures { IfOk result (RefusesOpening opening why disk (streams console.old (O.contents output.old)) (streams console.new (O.contents output.new))) }
{
    match opening {
        Opening::First => Err(ScriptFault::refused(why)),
        Opening::Asked => {
            console.print(&Answer::refused(why), output)?;
            Ok(Next::Down(disk))
        }
    }
}

// Answers lines until the disk is down, and then closes the journal.
fn serve<'b, J: Naming, W: Wait, I: Read + Drop, O: Write>(
    rt: &W,
    alloc: Global,
    blocks: u64,
    journal: Mount<'b, J>,
    opening: Opening,
    console: &mut Console<I>,
    output: &mut O,
) -> Result<Next, ScriptFault>
    requires layout { J.layout ≡ files blocks }
    requires in_range { MIN_BLOCKS ≤ blocks }
    ensures { IfOk result (Opens opening (streams console.old (O.contents output.old)) (streams console.new (O.contents output.new))) }
{
    match answer_lines(rt, alloc, blocks, &journal, opening, console, output) {
        Ok((crash, session)) => close(crash, journal, session),
        Err(stop) => Err(stop),
    }
}

// Closes the journal, which ended so.
fn close<'b, J: Naming>(
    crash: Option<Crash>,
    journal: Mount<'b, J>,
    session: Session<'b, J, AnyMap>,
) -> Result<Next, ScriptFault>
    requires in_range { MIN_BLOCKS ≤ J.layout.blocks }
    ensures { IfOk result (λ next. (old new : Streams) → ComesToCrash crash old new → ComesTo next old new) }
{
    let mut session = session;
    match journal.close(&mut session) {
        Ok(disk) => Ok(next_after(crash, disk)),
        Err(Refused { refusal, .. }) => Err(ScriptFault::refused(refusal)),
    }
}

// The state after the journal that had this disk.
fn next_after(crash: Option<Crash>, disk: MemDisk) -> Next
    requires to_mend { IsToMend disk.past }
    ensures { (old new : Streams) → ComesToCrash crash old new → ComesTo result old new }
{
    match crash {
        Some(crash) => crash.leave(disk),
        None => Next::End,
    }
}

// Answers the line that asked for the opening, if one did, and then lines in a session that is
// given back. `None` at the end of the input.
fn answer_lines<'b, J: Naming, W: Wait, I: Read + Drop, O: Write>(
    rt: &W,
    alloc: Global,
    blocks: u64,
    journal: &Mount<'b, J>,
    opening: Opening,
    console: &mut Console<I>,
    output: &mut O,
) -> Result<(Option<Crash>, Session<'b, J, AnyMap>), ScriptFault>
    requires layout { J.layout ≡ files blocks }
    ensures { IfOk result (λ ended. OpensToCrash opening ended.0 (streams console.old (O.contents output.old)) (streams console.new (O.contents output.new))) }
{
    answer_opening(opening, console, output)?;
    let mut client = match Client::new(rt, alloc, blocks, journal) {
        Ok(client) => client,
        Err(why) => return Err(ScriptFault::refused(why)),
    };
    let crash = answer_each(rt, &mut client, console, output);
    let session = client.end(rt);
    Ok((crash?, session))
}

// Answers the line that asked for the opening, if one did.
fn answer_opening<I: Read + Drop, O: Write>(
    opening: Opening,
    console: &mut Console<I>,
    output: &mut O,
) -> Result<(), ScriptFault>
    ensures { OnOk result (TellsOpening opening (streams console.old (O.contents output.old)) (streams console.new (O.contents output.new))) }
{
    match opening {
        Opening::First => Ok(()),
        Opening::Asked => console.print(&Answer::Opened, output),
    }
}

// Answers line after line.
fn answer_each<'j, 'b, J: Naming, W: Wait, I: Read + Drop, O: Write>(
    rt: &W,
    client: &mut Client<'j, 'b, J>,
    console: &mut Console<I>,
    output: &mut O,
) -> Result<Option<Crash>, ScriptFault>
    ensures { IfOk result (λ crash. ComesToCrash crash (streams console.old (O.contents output.old)) (streams console.new (O.contents output.new))) }
{
    for _ in 0..u64::MAX {
        if !console.advance(output)? {
            return Ok(None);
        }
        client.is_laid();
        match client.answer(rt, console.lines.line(), &mut console.room) {
            ControlFlow::Continue(answer) => console.print(&answer, output)?,
            ControlFlow::Break(crash) => {
                answer_end(&crash, console, output)?;
                return Ok(Some(crash));
            }
        }
    }
    Err(ScriptFault::CannotRead)
}

// Answers the line that ends the journal, unless what comes of an opening answers it.
fn answer_end<I: Read + Drop, O: Write>(
    crash: &Crash,
    console: &mut Console<I>,
    output: &mut O,
) -> Result<(), ScriptFault>
    ensures { OnOk result (TellsEnd crash.now (streams console.old (O.contents output.old)) (streams console.new (O.contents output.new))) }
{
    match crash.answer() {
        Some(answer) => console.print(&answer, output),
        None => Ok(()),
    }
}
