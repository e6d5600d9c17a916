// A script: lines that are read, obeyed and answered one after another, over one disk.
ghost use Rattle.std.specs.Prelude.{◌≡◌, IfOk, OnOk};
ghost use Rattle.journal_disk.specs.Disks.{read_of};
ghost use Rattle.journal_inode.specs.Nodes.{no_time};
ghost use Rattle.journal_inode.specs.Formats.{IsFormatted};
ghost use Rattle.journal_script.specs.Endings.{IsWhole};
ghost use Rattle.journal_script.specs.Transcripts.{streams, ComesTo, Runs};
ghost use Rattle.journal_command.specs.Asks.{IsSize};

use crate::console::Console;
use crate::mounted::Opening;
use crate::script_fault::ScriptFault;
use crate::{lost, mounted, unmounted};
use journal_disk::MemDisk;
use journal_inode::{FormatVersion, format};
use journal_world::{Moment, Refused};
use std::alloc::Global;
use std::io::{Read, Write};
use std::sync::Wait;

/// The state after a line.
#[derive(Drop)]
pub enum Next {
    /// The line opens the disk, and is answered by what comes of it.
    Open(MemDisk),
    /// Lines to a disk that is down.
    Down(MemDisk),
    /// Lines to a disk of which writes were lost.
    Lost(MemDisk),
    /// Nothing: the input ended.
    End,
}

/// Answers the lines of the input, over a new disk of `blocks` blocks. True if some line was bad.
///
/// Answers are written out as soon as no further line is at hand.
///
/// # Errors
/// The disk is gone, and part of the answers may be printed.
/// - `Refused`: the first opening is refused, or the closing.
/// - `CannotRead`: the input fails.
/// - `CannotWrite`: the output fails.
pub fn run<W: Wait, I: Read, O: Write>(
    rt: &W,
    alloc: Global,
    blocks: u64,
    input: &mut I,
    output: &mut O,
) -> Result<bool, ScriptFault>
    requires { IsSize blocks }

    // The output gained the answers of all lines of the input, in order. The result is true exactly
    // if one of them is a bad line. After an error the output is not specified.
    ensures { Runs (I.remaining input.old) (O.contents output.old) (O.contents output.new) result }
{
    let mut console = Console::new(alloc, input)?;
    answer_all(rt, alloc, blocks, &mut console, output)?;
    Ok(console.some_bad())
}

// A disk without files, of so many blocks. A script has no clock: the root directory's time is 0.
fn new_disk(alloc: Global, blocks: u64) -> Result<MemDisk, ScriptFault>
    requires { IsSize blocks }
    ensures whole { IfOk result (λ disk. IsWhole disk.past) }
    ensures formatted { IfOk result (λ disk. IsFormatted FormatVersion.One blocks no_time (read_of disk.past)) }
{
    let disk = match MemDisk::new::<()>(alloc, blocks) {
        Ok(disk) => disk,
        Err(why) => return Err(ScriptFault::refused(why)),
    };
    match format(
        alloc,
        disk,
        Moment { secs: 0, nanos: 0 },
        FormatVersion::One,
    ) {
        Ok(disk) => Ok(disk),
        Err(Refused { refusal, .. }) => Err(ScriptFault::refused(refusal)),
    }
}

// Makes the disk, opens it, and answers each line.
fn answer_all<W: Wait, I: Read + Drop, O: Write>(
    rt: &W,
    alloc: Global,
    blocks: u64,
    console: &mut Console<I>,
    output: &mut O,
) -> Result<(), ScriptFault>
    requires { IsSize blocks }
    ensures { OnOk result (ComesTo Next.End (streams console.old (O.contents output.old)) (streams console.new (O.contents output.new))) }
{
    let disk = new_disk(alloc, blocks)?;
    let mut next = mounted::run(rt, alloc, disk, Opening::First, console, output)?;
    for _ in 0..u64::MAX {
        next = match next {
            Next::Open(disk) => mounted::run(rt, alloc, disk, Opening::Asked, console, output)?,
            Next::Down(disk) => unmounted::run(alloc, disk, console, output)?,
            Next::Lost(disk) => lost::run(alloc, disk, console, output)?,
            Next::End => return Ok(()),
        };
    }
    Err(ScriptFault::CannotRead)
}
