// The answer to a line.
ghost use Rattle.std.specs.Prelude.{◌≡◌, ◌++◌, ◌∷◌, [], codes, OnOk};
ghost use Rattle.std.specs.List.{flat_map};
ghost use Rattle.std.specs.Fmt.{decimal};
ghost use Rattle.std.specs.Io.KnownBytes.{Appends};
ghost use Rattle.journal_world.specs.Refusals.{refusal_name};
ghost use Rattle.journal_script.specs.Answers.{answer_line, to_no_command, Refuses, stat_text, pair_text, pending_text};
ghost use Rattle.journal_command.specs.Values.{text_of};

use journal_command::print_value;
use journal_parts::Stat;
use journal_world::{Refusal, Value};
use std::io;
use std::io::Write;

/// The answer to a line.
#[derive(Drop)]
pub enum Answer {
    /// It was done.
    Done,
    /// The bytes that were asked for.
    Value(Value),
    /// It was committed, and there are this many commits now.
    Committed(u64),
    /// There is none to commit or to give up.
    NoTransaction,
    /// This many commits are marked as stable.
    Stable(u64),
    /// This many steps of the logger moved.
    Logged(u64),
    /// This many steps of the installer moved.
    Installed(u64),
    /// The numbers of the journal.
    Stat(Stat),
    /// The blocks with pending writes, and how many each has.
    Pending(Vec<(u64, u64)>),
    /// The disk is open.
    Opened,
    /// The line is for a disk that is down.
    Up,
    /// The line is for one that is up.
    Down,
    /// The line is for one of which no writes were lost.
    Lost,
    /// It was refused.
    Refused(Refusal<()>),
    /// It is no line of a script.
    BadLine,
    /// Nothing, and no line is printed: the line is empty.
    Nothing,
}

impl Answer {
    /// The answer to a line that says no command.
    pub fn to_no_command(line: &[u8]) -> Answer
        ensures { result ≡ to_no_command line.now }
    {
        match line {
            [] => Answer::Nothing,
            _ => Answer::BadLine,
        }
    }

    /// The answer that it was refused.
    pub fn refused<C: Drop>(why: Refusal<C>) -> Answer
        ensures { Refuses why result }
    {
        Answer::Refused(why.with_cause(()))
    }

    /// Prints the answer's line.
    ///
    /// # Errors
    /// - The output fails. Part of the line may be printed.
    pub fn print<O: Write>(&self, output: &mut O) -> io::Result<()>
        ensures { OnOk result (Appends (O.contents output.old) (O.contents output.new) (answer_line self.now)) }
    {
        match self {
            Answer::Done => print_words(output, "ok"),
            Answer::Value(value) => print_shown(output, value),
            Answer::Committed(count) => print_count(output, "committed", *count),
            Answer::NoTransaction => print_words(output, "no transaction"),
            Answer::Stable(floor) => print_count(output, "stable", *floor),
            Answer::Logged(steps) => print_count(output, "log", *steps),
            Answer::Installed(steps) => print_count(output, "install", *steps),
            Answer::Stat(stat) => print_stat(output, *stat),
            Answer::Pending(pending) => print_pending(output, pending),
            Answer::Opened => print_words(output, "opened"),
            Answer::Up => print_words(output, "up"),
            Answer::Down => print_words(output, "down"),
            Answer::Lost => print_words(output, "lost"),
            Answer::Refused(why) => print_refused(output, why),
            Answer::BadLine => print_words(output, "bad line"),
            Answer::Nothing => Ok(()),
        }
    }
}

fn print_words<O: Write>(output: &mut O, words: &str) -> io::Result<()>
    ensures { OnOk result (Appends (O.contents output.old) (O.contents output.new) (words.now ++ 10 ∷ [])) }
{
    writeln!(output, "{words}")
}

fn print_count<O: Write>(output: &mut O, word: &str, count: u64) -> io::Result<()>
    ensures { OnOk result (Appends (O.contents output.old) (O.contents output.new)
        (word.now ++ codes " " ++ decimal count ++ 10 ∷ [])) }
{
    writeln!(output, "{word} {count}")
}

fn print_refused<O: Write>(output: &mut O, why: &Refusal<()>) -> io::Result<()>
    ensures { OnOk result (Appends (O.contents output.old) (O.contents output.new)
        (codes "refused " ++ refusal_name why.now ++ 10 ∷ [])) }
{
    writeln!(output, "refused {}", why.name())
}

fn print_shown<O: Write>(output: &mut O, value: &Value) -> io::Result<()>
    ensures { OnOk result (Appends (O.contents output.old) (O.contents output.new) (codes "= " ++ text_of value.now ++ 10 ∷ [])) }
{
    write!(output, "= ")?;
    print_value(output, value.bytes())?;
    writeln!(output)
}

fn print_stat<O: Write>(output: &mut O, stat: Stat) -> io::Result<()>
    ensures { OnOk result (Appends (O.contents output.old) (O.contents output.new) (stat_text stat ++ 10 ∷ [])) }
{
    let Stat {
        commits,
        floor,
        start,
        end,
    } = stat;
    writeln!(
        output,
        "commits {commits} floor {floor} start {start} end {end}"
    )
}

fn print_pending<O: Write>(output: &mut O, pending: &[(u64, u64)]) -> io::Result<()>
    ensures { OnOk result (Appends (O.contents output.old) (O.contents output.new)
        (codes "pending" ++ pending_text pending.now ++ 10 ∷ [])) }
{
    write!(output, "pending")?;
    if pending.is_empty() {
        return writeln!(output, " none");
    }
    print_pairs(output, pending)?;
    writeln!(output)
}

fn print_pairs<O: Write>(output: &mut O, pairs: &[(u64, u64)]) -> io::Result<()>
    ensures { OnOk result (Appends (O.contents output.old) (O.contents output.new) (flat_map pair_text pairs.now)) }
{
    for (block, writes) in pairs {
        write!(output, " {block}:{writes}")?;
    }
    Ok(())
}
