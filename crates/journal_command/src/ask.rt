// The request in the words of a program.
ghost use Rattle.std.specs.Prelude.{ℕ, map, string_bytes, IfOk, IfErr, IfSome, IfNone, OnOk, List};
ghost use Rattle.journal_command.specs.Asks.{AsksScript, AsksFormat, AsksCheck, AsksMigrate, AsksServe, AsksMirror, AsksFor, IsSize, MayBeAsked, CannotBegin};

use crate::number::{read_number, read_port};
use journal_world::Layout;
use thiserror::Error;

/// The request of the words.
#[derive(Clone, Copy)]
pub enum Ask<'w> {
    /// Answer a script, over a new disk of this many blocks.
    Script {
        blocks: u64,
    },
    /// Make a disk without files, of this many blocks, in the file at the path.
    Format {
        path: &'w str,
        blocks: u64,
    },
    /// Check whether the disk in the file at the path is sound.
    Check {
        path: &'w str,
    },
    /// Make the disk in the file at the path one of version 2.
    Migrate {
        path: &'w str,
    },
    /// Serve the files of the disk in the file at the path, at a port, or at a free one if that is
    /// 0, to this many connections. Its blocks are also in memory or not.
    Serve {
        path: &'w str,
        port: u16,
        connections: u64,
        is_mirrored: bool,
    },
}

/// Why nothing begins.
#[derive(Clone, Copy, Debug, PartialEq, Eq, Error)]
pub enum AskFault {
    /// The words ask for nothing.
    #[error("the words ask for nothing")]
    Usage,
    /// They ask for a disk of a size that no disk has.
    #[error("no disk has so many blocks")]
    BadSize,
}

impl<'w> Ask<'w> {
    /// Reads the request of the words.
    ///
    /// # Errors
    /// Nothing begins.
    /// - `Usage`: the words ask for nothing.
    /// - `BadSize`: they ask for a disk of a size that no disk has.
    pub fn read(words: &'w [String]) -> Result<Ask<'w>, AskFault>
        ensures ok { IfOk result (AsksFor (map string_bytes words.now)) }
        ensures err { IfErr result (CannotBegin (map string_bytes words.now)) }
    {
        if let Some(blocks) = script_asked(words) {
            check_size(words, blocks)?;
            return Ok(Ask::Script { blocks });
        }
        if let Some((path, blocks)) = format_asked(words) {
            check_size(words, blocks)?;
            return Ok(Ask::Format { path, blocks });
        }
        if let Some(path) = check_asked(words) {
            return Ok(Ask::Check { path });
        }
        if let Some(path) = migrate_asked(words) {
            return Ok(Ask::Migrate { path });
        }
        if let Some((path, port, connections)) = serve_asked(words) {
            return Ok(Ask::Serve {
                path,
                port,
                connections,
                is_mirrored: false,
            });
        }
        match mirror_asked(words) {
            Some((path, port, connections)) => Ok(Ask::Serve {
                path,
                port,
                connections,
                is_mirrored: true,
            }),
            None => Err(AskFault::Usage),
        }
    }
}

// The number of blocks, if the words ask for a script.
fn script_asked(words: &[String]) -> Option<u64>
    ensures some { IfSome result (AsksScript (map string_bytes words.now)) }
    ensures none { IfNone result ((n : ℕ) → AsksScript (map string_bytes words.now) n → ⊥) }
{
    match words {
        [what, blocks] if what.as_str() == "script" => {
            Some(u64::from(read_number(blocks.as_bytes())?))
        }
        _ => None,
    }
}

// The file and the number of blocks, if the words ask for a new disk.
fn format_asked(words: &[String]) -> Option<(&str, u64)>
    ensures some { IfSome result (λ asked. AsksFormat (map string_bytes words.now) asked.0.now asked.1) }
    ensures none { IfNone result ((path : List ℕ) (n : ℕ) → AsksFormat (map string_bytes words.now) path n → ⊥) }
{
    match words {
        [what, path, blocks] if what.as_str() == "format" => Some((
            path.as_str(),
            u64::from(read_number(blocks.as_bytes())?),
        )),
        _ => None,
    }
}

// The file, if the words ask to check it.
fn check_asked(words: &[String]) -> Option<&str>
    ensures some { IfSome result (λ path. AsksCheck (map string_bytes words.now) path.now) }
    ensures none { IfNone result ((path : List ℕ) → AsksCheck (map string_bytes words.now) path → ⊥) }
{
    match words {
        [what, path] if what.as_str() == "check" => Some(path.as_str()),
        _ => None,
    }
}

// The file, if the words ask to make it one of version 2.
fn migrate_asked(words: &[String]) -> Option<&str>
    ensures some { IfSome result (λ path. AsksMigrate (map string_bytes words.now) path.now) }
    ensures none { IfNone result ((path : List ℕ) → AsksMigrate (map string_bytes words.now) path → ⊥) }
{
    match words {
        [what, path] if what.as_str() == "migrate" => Some(path.as_str()),
        _ => None,
    }
}

// The service that the words ask for, if they do.
fn serve_asked(words: &[String]) -> Option<(&str, u16, u64)>
    ensures some { IfSome result (λ asked. AsksServe (map string_bytes words.now) asked.0.now asked.1 asked.2) }
    ensures none { IfNone result ((path : List ℕ) (port k : ℕ) → AsksServe (map string_bytes words.now) path port k → ⊥) }
{
    match words {
        [what, path, port, connections] if what.as_str() == "serve" => Some((
            path.as_str(),
            read_port(port.as_bytes())?,
            u64::from(read_number(connections.as_bytes())?),
        )),
        _ => None,
    }
}

// The service of a disk whose blocks are also in memory, if the words ask for one.
fn mirror_asked(words: &[String]) -> Option<(&str, u16, u64)>
    ensures some { IfSome result (λ asked. AsksMirror (map string_bytes words.now) asked.0.now asked.1 asked.2) }
    ensures none { IfNone result ((path : List ℕ) (port k : ℕ) → AsksMirror (map string_bytes words.now) path port k → ⊥) }
{
    match words {
        [what, path, port, connections, how]
            if what.as_str() == "serve" && how.as_str() == "mirror" => {
            Some((
                path.as_str(),
                read_port(port.as_bytes())?,
                u64::from(read_number(connections.as_bytes())?),
            ))
        }
        _ => None,
    }
}

// Refuses a number of blocks that no disk has.
fn check_size(words: &[String], blocks: u64) -> Result<(), AskFault>
    requires { MayBeAsked (map string_bytes words.now) blocks }
    ensures ok { OnOk result (IsSize blocks) }
    ensures err { IfErr result (CannotBegin (map string_bytes words.now)) }
{
    match Layout::new(blocks) {
        Some(_) => Ok(()),
        None => Err(AskFault::BadSize),
    }
}
