// The input of a script, and the output of its answers.
ghost use Rattle.std.specs.Prelude.{◌≡◌, false, OnOk, IfOk};
ghost use Rattle.journal_script.specs.Transcripts.{streams, TakesLineOrEnd, Prints};

use crate::answer::Answer;
use crate::script_fault::ScriptFault;
use journal_command::{Lines, Room};
use std::alloc::Global;
use std::io::{Read, Write};
use std::marker::Model;

/// The input of a script, with all the memory that its lines share. Answers go to the output that
/// each call is lent.
///
/// Contracts see the bytes that are left of the input, if they are known, the line that was read
/// last, and whether some line was bad.
#[derive(Drop)]
pub struct Console<I: Read> {
    pub lines: Lines<I>,
    /// Room for the values of a line.
    pub room: Room,
    some_bad: bool,
}

impl<I: Read> Model for Console<I> {
    ghost use Rattle.journal_script.specs.Transcripts.{ConsoleState};

    ghost Value = { ConsoleState };

    ghost view = { λ console. record {
      left = console.lines.left;
      line = console.lines.line;
      bad = console.some_bad;
    } };
}

impl<I: Read + Drop> Console<I> {
    /// Takes the memory.
    ///
    /// # Errors
    /// - Memory is refused. The input is dropped.
    pub fn new(alloc: Global, input: I) -> Result<Console<I>, ScriptFault>
        ensures left { IfOk result (λ console. console.left ≡ I.remaining input) }
        ensures bad { IfOk result (λ console. console.bad ≡ false) }
    {
        Ok(Console {
            lines: Lines::new(alloc, input)?,
            room: Room::new(alloc)?,
            some_bad: false,
        })
    }

    /// Reads the next line. False at the end of the input. If the line is not at hand, the answers
    /// so far are written out first, because the writer of the input may wait for them.
    ///
    /// # Errors
    /// - `CannotRead`: the input fails.
    /// - `CannotWrite`: the output fails.
    pub fn advance<O: Write>(&mut self, output: &mut O) -> Result<bool, ScriptFault>
        ensures { IfOk result (TakesLineOrEnd (streams self.old (O.contents output.old)) (streams self.new (O.contents output.new))) }
    {
        if !self.lines.is_at_hand() {
            output.flush().map_err(|_| ScriptFault::CannotWrite)?;
        }
        self.lines.advance().map_err(|_| ScriptFault::CannotRead)
    }

    /// Prints an answer.
    ///
    /// # Errors
    /// - `CannotWrite`: the output fails. Part of the line may be printed.
    pub fn print<O: Write>(&mut self, answer: &Answer, output: &mut O) -> Result<(), ScriptFault>
        ensures { OnOk result (Prints answer.now (streams self.old (O.contents output.old)) (streams self.new (O.contents output.new))) }
    {
        if matches!(answer, Answer::BadLine) {
            self.some_bad = true;
        }
        answer.print(output).map_err(|_| ScriptFault::CannotWrite)
    }

    /// True if some line was bad.
    pub fn some_bad(&self) -> bool
        ensures { result ≡ self.now.bad }
    {
        self.some_bad
    }
}
