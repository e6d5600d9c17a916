// The command of a line of a script.
ghost use Rattle.std.specs.Prelude.{◌≡◌, ◌≢◌, ℕ, ◌+◌, ◌&&◌, nat_le, [], List, Option, IfSome, IfNone};
ghost use Rattle.journal_world.specs.declared.address.Addr.{Addr as Address};
ghost use Rattle.journal_command.specs.declared.command.Choice.{Choice as Chosen};
ghost use Rattle.journal_command.specs.declared.command.Command.{Command as Asked};
ghost use Rattle.journal_command.specs.Commands.{line_words as words_of, AddrThen, AtMost, IsChoice, FollowsVerb, Says, LineSays, IsInside};

mod verb;
mod words;

use crate::line::LINE_BYTES;
use crate::room::Room;
use journal_world::Addr;
use verb::Verb;
use words::Words;

// The bytes of a block.
const BLOCK_BYTES: usize = 4096;

/// The command of a line.
#[derive(Clone, Copy)]
pub enum Command<'a> {
    /// Overwrite an object.
    Put {
        addr: Addr,
        value: &'a [u8],
    },
    /// Read an object.
    Get {
        addr: Addr,
    },
    /// Commit the open transaction.
    Commit,
    /// Abort the open transaction.
    Abort,
    /// Fence the session, so that none of its commits is added from then on.
    Fence,
    /// Take steps until each commit is marked.
    Wait,
    /// Steps of the logger, at most as many as the number says, if there is one.
    Log {
        most: Option<u32>,
    },
    /// Steps of the installer, likewise.
    Install {
        most: Option<u32>,
    },
    /// Answer the numbers of the journal.
    Stat,
    /// Answer the blocks with writes that are not synced.
    Pend,
    /// `len` bytes of a block from byte `at` on: at least one, and inside the block.
    Disk {
        block: u32,
        at: u32,
        len: u32,
    },
    /// Let a device call fail: 1 is the next one.
    Fail {
        call: u32,
    },
    /// Crash: leave an image of the disk, and nothing else.
    Down {
        choice: Choice<'a>,
    },
    /// Open the disk that was left.
    Open,
    /// Crash, and open the disk that was left.
    Crash {
        choice: Choice<'a>,
    },
    /// Let a barrier fail, and end: reads give what they gave, and the device has an image of the
    /// disk.
    Lose {
        choice: Choice<'a>,
    },
    /// Make what a disk reads stable, whatever was lost of it.
    Mend,
    /// Write stable bytes. The value is not empty, and inside the block from byte `at` on.
    Poke {
        block: u32,
        at: u32,
        value: &'a [u8],
    },
}

/// Which image of the disk a crash leaves, or the device has once a barrier failed.
#[derive(Clone, Copy)]
pub enum Choice<'a> {
    /// `none`: each block as last synced.
    Stable,
    /// `all`: each block's last write.
    Last,
    /// The j-th number is for the j-th pending block. There is one at least.
    Listed(&'a [u32]),
}

impl<'a> Command<'a> {
    /// The command that the line says, or `None` if it says none. The room takes the bytes of a
    /// value and the numbers of a choice.
    pub fn read(line: &[u8], room: &'a mut Room) -> Option<Command<'a>>
        ensures found { IfSome result (LineSays line.now) }
        ensures inside { IfSome result IsInside }
        ensures none { IfNone result ((command : Asked) → LineSays line.now command → ⊥) }
    {
        if line.len() > LINE_BYTES {
            return None;
        }
        read_words(line, room)
    }
}

// The command that the words of a line say.
fn read_words<'a>(line: &[u8], room: &'a mut Room) -> Option<Command<'a>>
    ensures found { IfSome result (Says (words_of line.now)) }
    ensures none { IfNone result ((command : Asked) → Says (words_of line.now) command → ⊥) }
{
    let mut words = Words::new(line);
    let verb = Verb::read(words.word()?)?;
    read_behind(verb, &mut words, room)
}

// The command that the words after a verb say.
fn read_behind<'a>(verb: Verb, words: &mut Words<'_>, room: &'a mut Room) -> Option<Command<'a>>
    ensures found { IfSome result (FollowsVerb verb words.old) }
    ensures none { IfNone result ((command : Asked) → FollowsVerb verb words.old command → ⊥) }
{
    match verb {
        Verb::Put => read_put(words, room),
        Verb::Get => read_get(words),
        Verb::Commit => alone(Command::Commit, words),
        Verb::Abort => alone(Command::Abort, words),
        Verb::Fence => alone(Command::Fence, words),
        Verb::Wait => alone(Command::Wait, words),
        Verb::Log => Some(Command::Log {
            most: read_most(words)?,
        }),
        Verb::Install => Some(Command::Install {
            most: read_most(words)?,
        }),
        Verb::Stat => alone(Command::Stat, words),
        Verb::Pend => alone(Command::Pend, words),
        Verb::Disk => read_disk(words),
        Verb::Fail => read_fail(words),
        Verb::Down => Some(Command::Down {
            choice: read_choice(words, room)?,
        }),
        Verb::Open => alone(Command::Open, words),
        Verb::Crash => Some(Command::Crash {
            choice: read_choice(words, room)?,
        }),
        Verb::Poke => read_poke(words, room),
        Verb::Lose => Some(Command::Lose {
            choice: read_choice(words, room)?,
        }),
        Verb::Mend => alone(Command::Mend, words),
    }
}

// The command, if no word is left after it.
fn alone<'a>(command: Command<'a>, words: &Words<'_>) -> Option<Command<'a>>
    ensures found { IfSome result (λ found. (words.now ≡ []) × (found ≡ command.entry)) }
    ensures none { IfNone result (words.now ≢ []) }
{
    words.end()?;
    Some(command)
}

// Reads the words after `put`.
fn read_put<'a>(words: &mut Words<'_>, room: &'a mut Room) -> Option<Command<'a>>
    ensures found { IfSome result (FollowsVerb Verb.Put words.old) }
    ensures none { IfNone result ((command : Asked) → FollowsVerb Verb.Put words.old command → ⊥) }
{
    let addr = read_addr(words)?;
    let value = room.value.read(words.word()?)?;
    alone(Command::Put { addr, value }, words)
}

// Reads the words after `get`.
fn read_get<'a>(words: &mut Words<'_>) -> Option<Command<'a>>
    ensures found { IfSome result (FollowsVerb Verb.Get words.old) }
    ensures none { IfNone result ((command : Asked) → FollowsVerb Verb.Get words.old command → ⊥) }
{
    let addr = read_addr(words)?;
    alone(Command::Get { addr }, words)
}

// Reads the words after `disk`.
fn read_disk<'a>(words: &mut Words<'_>) -> Option<Command<'a>>
    ensures found { IfSome result (FollowsVerb Verb.Disk words.old) }
    ensures none { IfNone result ((command : Asked) → FollowsVerb Verb.Disk words.old command → ⊥) }
{
    let block = words.number()?;
    let at = words.number()?;
    let len = words.number()?;
    if !is_in_block(at, len as usize) {
        return None;
    }
    alone(Command::Disk { block, at, len }, words)
}

// Reads the words after `fail`.
fn read_fail<'a>(words: &mut Words<'_>) -> Option<Command<'a>>
    ensures found { IfSome result (FollowsVerb Verb.Fail words.old) }
    ensures none { IfNone result ((command : Asked) → FollowsVerb Verb.Fail words.old command → ⊥) }
{
    let call = words.number()?;
    if call == 0 {
        return None;
    }
    alone(Command::Fail { call }, words)
}

// Reads the words after `poke`.
fn read_poke<'a>(words: &mut Words<'_>, room: &'a mut Room) -> Option<Command<'a>>
    ensures found { IfSome result (FollowsVerb Verb.Poke words.old) }
    ensures none { IfNone result ((command : Asked) → FollowsVerb Verb.Poke words.old command → ⊥) }
{
    let block = words.number()?;
    let at = words.number()?;
    let value = room.value.read(words.word()?)?;
    if !is_in_block(at, value.len()) {
        return None;
    }
    alone(Command::Poke { block, at, value }, words)
}

// The address that the next two words are.
fn read_addr(words: &mut Words<'_>) -> Option<Addr>
    ensures found { IfSome result (λ addr. AddrThen words.old addr words.new) }
    ensures none { IfNone result ((a : Address) (more : List (List ℕ)) → AddrThen words.old a more → ⊥) }
{
    let block = u64::from(words.number()?);
    let off = words.number()?;
    Some(Addr { block, off })
}

// The number that is the one word left, or none if no word is left.
fn read_most(words: &mut Words<'_>) -> Option<Option<u32>>
    ensures found { IfSome result (AtMost words.old) }
    ensures none { IfNone result ((most : Option ℕ) → AtMost words.old most → ⊥) }
{
    if words.end().is_some() {
        return Some(None);
    }
    let most = words.number()?;
    words.end()?;
    Some(Some(most))
}

// The choice that is the one word left.
fn read_choice<'a>(words: &mut Words<'_>, room: &'a mut Room) -> Option<Choice<'a>>
    ensures found { IfSome result (IsChoice words.old) }
    ensures none { IfNone result ((choice : Chosen) → IsChoice words.old choice → ⊥) }
{
    let choice = room.choice.read(words.word()?)?;
    words.end()?;
    Some(choice)
}

// True if there are `len` bytes from this one on, at least one, all inside a block.
fn is_in_block(at: u32, len: usize) -> bool
    ensures { result ≡ (nat_le 1 len && nat_le (at + len) 4096) }
{
    len >= 1 && len <= BLOCK_BYTES && at as usize <= BLOCK_BYTES - len
}
