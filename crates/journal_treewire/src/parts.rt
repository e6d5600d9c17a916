// Answers that are short enough for a reply.
ghost use Rattle.std.specs.Prelude.{◌≡◌, ◌≤◌, ◌↔◌, IsSome, IfSome, length};
ghost use Rattle.journal_tree.specs.declared.limits.TheConstants.{MOST_LINK, TRANSFER_BYTES};
ghost use Rattle.journal_treewire.specs.declared.parts.TheConstants.{MOST_LINES};

use journal_tree::{MOST_LINK, TRANSFER_BYTES};
use journal_treecalls::{LinkReply, ListReply, ReadReply};

/// The most lines of a listing of `TRANSFER_BYTES` bytes, in which a line has 24 bytes at least.
pub const MOST_LINES: usize = 2730;

/// The answer of READ, with no more bytes than one READ answers.
#[derive(Debug, Drop)]
pub struct FilePart {
    pub reply: ReadReply,
    pub ghost short: { length reply.bytes.items ≤ 65536 },
}

impl FilePart {
    /// The answer, or `None` if it has more than `TRANSFER_BYTES` bytes.
    pub fn of(reply: ReadReply) -> Option<FilePart>
        ensures same { IfSome result (λ part. part.reply ≡ reply) }
        ensures short { IsSome result ↔ (length reply.bytes.items ≤ TRANSFER_BYTES) }
    {
        if reply.bytes.len() > TRANSFER_BYTES as usize {
            return None;
        }
        Some(FilePart { reply })
    }
}

/// The answer of READLINK, with no more bytes than a link's text has.
#[derive(Debug, Drop)]
pub struct ShortText {
    pub reply: LinkReply,
    pub ghost short: { length reply.text.items ≤ 4095 },
}

impl ShortText {
    /// The answer, or `None` if it has more than `MOST_LINK` bytes.
    pub fn of(reply: LinkReply) -> Option<ShortText>
        ensures same { IfSome result (λ text. text.reply ≡ reply) }
        ensures short { IsSome result ↔ (length reply.text.items ≤ MOST_LINK) }
    {
        if reply.text.len() > MOST_LINK as usize {
            return None;
        }
        Some(ShortText { reply })
    }
}

/// The answer of READDIR or READDIRPLUS, with no more lines than one reply may have.
#[derive(Drop)]
pub struct Lines {
    pub reply: ListReply,
    pub ghost few: { length reply.lines.items ≤ 2730 },
}

impl Lines {
    /// The answer, or `None` if it has more than `MOST_LINES` lines.
    pub fn of(reply: ListReply) -> Option<Lines>
        ensures same { IfSome result (λ lines. lines.reply ≡ reply) }
        ensures few { IsSome result ↔ (length reply.lines.items ≤ MOST_LINES) }
    {
        if reply.lines.len() > MOST_LINES {
            return None;
        }
        Some(Lines { reply })
    }
}
