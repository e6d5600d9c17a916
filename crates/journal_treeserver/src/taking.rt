// The calls that may take numbers or blocks.
ghost use Rattle.std.specs.Prelude.{◌≡◌};
ghost use Rattle.journal_tree.specs.Times.{IsTime};
ghost use Rattle.journal_treewire.specs.Requests.{request_of};
ghost use Rattle.journal_treeserver.specs.CodeViews.{served_as, taking_call, IsDone};

use crate::hints::{Drawn, FreeHints, Taken};
use crate::operations::{
    exclusive_of, guarded_of, mkdir_of, rename_of, symlink_of, unchecked_of, write_of,
};
use crate::performing::{Asked, Done};
use crate::server::TreeServer;
use journal_disk::BlockDisk;
use journal_history::{Naming, Receipt, Session};
use journal_nfs3_wire::NfsError;
use journal_tree::{BLOCK_BYTES, Changed, Kind, Made, Settings};
use journal_treefs::TreeRule;
use journal_treestore::{DIRECT_BLOCKS, INDEX_NUMBERS};
use journal_treewire::{LinkCall, NameIn, TreeResults, WriteCall};
use std::alloc::Global;
use std::sync::Wait;

// A call that may take numbers or blocks.
#[derive(Clone, Copy)]
pub(crate) enum Taking<'n> {
    Write(WriteCall<'n>),
    CreateUnchecked(NameIn<'n>, Settings),
    CreateGuarded(NameIn<'n>, Settings),
    // With its verifier.
    CreateExclusive(NameIn<'n>, u64),
    MakeDirectory(NameIn<'n>, Settings),
    MakeLink(LinkCall<'n>),
    // The old name, and the new one.
    Rename(NameIn<'n>, NameIn<'n>),
}

// How many numbers and blocks that may be free are drawn for a call.
#[derive(Clone, Copy)]
struct Need {
    numbers: usize,
    blocks: usize,
}

// The blocks in which the bytes of a WRITE lie, at most, two index blocks with their numbers, and
// the block with the numbers of these.
const WRITE: Need = Need {
    numbers: 0,
    blocks: 20,
};

// The blocks that a directory may get at once: one for the entry, an index block with its number,
// and the block with the number of that.
const DIRECTORY_BLOCKS: u64 = 3;

// A new node, and blocks of its directory. One more is drawn, since another call may take one.
const NODE: Need = Need {
    numbers: 2,
    blocks: DIRECTORY_BLOCKS as usize + 1,
};

// A new symbolic link, the block of its text, and blocks of its directory.
const LINK: Need = Need {
    numbers: 2,
    blocks: DIRECTORY_BLOCKS as usize + 3,
};

// Blocks of a directory.
const ENTRY: Need = Need {
    numbers: 0,
    blocks: DIRECTORY_BLOCKS as usize + 1,
};

// The numbers and blocks that are drawn for a call.
fn need_of(call: &Taking<'_>) -> Need {
    match call {
        Taking::Write(_) => WRITE,
        Taking::MakeLink(_) => LINK,
        Taking::Rename(_, _) => ENTRY,
        _ => NODE,
    }
}

impl<'s, 'b, D: BlockDisk, R: TreeRule, J: Naming, H: FreeHints> TreeServer<'s, 'b, D, R, J, H> {
    // Does a call with numbers and blocks that may be free, and puts back those that it has not
    // taken.
    pub(crate) fn take<W: Wait>(
        &self,
        rt: &W,
        alloc: Global,
        session: &mut Session<'b, J, R>,
        asked: &Asked<'_, '_>,
        call: &Taking<'_>,
    ) -> Done<Receipt<'b, J, R>>
        requires time { IsTime asked.now.asking.now }
        ensures { IsDone (served_as self.now.store.now.cut self.now.export) (request_of asked.now.requested.now) (taking_call call.now) asked.now.asking.caller asked.now.asking.now
            session.old session.new result }
    {
        let need = need_of(call);
        let Ok(drawn) = self.hints.draw(rt, alloc, need.numbers, need.blocks) else {
            return Done::at_once(asked.requested.refused(NfsError::ServerFault));
        };
        let done = self.take_of(rt, session, asked, call, &drawn);
        self.hints.put_back(rt, drawn, taken_by(&done.results));
        done
    }

    // Does a call with these.
    fn take_of<W: Wait>(
        &self,
        rt: &W,
        session: &mut Session<'b, J, R>,
        asked: &Asked<'_, '_>,
        call: &Taking<'_>,
        drawn: &Drawn,
    ) -> Done<Receipt<'b, J, R>>
        requires time { IsTime asked.now.asking.now }
        ensures { IsDone (served_as self.now.store.now.cut self.now.export) (request_of asked.now.requested.now) (taking_call call.now) asked.now.asking.caller asked.now.asking.now
            session.old session.new result }
    {
        match *call {
            Taking::Write(write) => self.perform(rt, session, asked, &write_of(write, drawn)),
            Taking::CreateUnchecked(entry, settings) => {
                let operation = unchecked_of(entry, settings, drawn);
                self.perform(rt, session, asked, &operation)
            }
            Taking::CreateGuarded(entry, settings) => {
                let operation = guarded_of(entry, settings, drawn);
                self.perform(rt, session, asked, &operation)
            }
            Taking::CreateExclusive(entry, verifier) => {
                let operation = exclusive_of(entry, verifier, drawn);
                self.perform(rt, session, asked, &operation)
            }
            Taking::MakeDirectory(entry, settings) => {
                let operation = mkdir_of(entry, settings, drawn);
                self.perform(rt, session, asked, &operation)
            }
            Taking::MakeLink(link) => {
                let operation = symlink_of(link, drawn);
                self.perform(rt, session, asked, &operation)
            }
            // It may free a node that it replaces.
            Taking::Rename(old, new) => {
                let operation = rename_of(old, new, drawn);
                self.perform_freeing(rt, session, asked, &operation)
            }
        }
    }
}

// The number and the blocks that a call has taken, as far as its results say it.
fn taken_by(results: &TreeResults) -> Taken {
    match results {
        TreeResults::Made(Ok(made)) => Taken {
            number: Some(made.node.number),
            blocks: directory_growth(&made.directory).saturating_add(text_blocks(made)),
        },
        TreeResults::Write {
            outcome: Ok(changed),
            ..
        } => Taken {
            number: None,
            blocks: growth(changed),
        },
        TreeResults::Renamed(Ok(renamed)) => Taken {
            number: None,
            blocks: directory_growth(&renamed.goal),
        },
        _ => Taken {
            number: None,
            blocks: 0,
        },
    }
}

// The blocks with the text of a new symbolic link.
fn text_blocks(made: &Made) -> u64 {
    match made.node.kind {
        Kind::Link => 1,
        Kind::Directory | Kind::File => 0,
    }
}

// By how many blocks a directory has grown, at most. It may have holes.
fn directory_growth(directory: &Changed) -> u64 {
    growth(directory).min(DIRECTORY_BLOCKS)
}

// By how many blocks a node has grown.
fn growth(changed: &Changed) -> u64 {
    blocks_of(changed.after.size).saturating_sub(blocks_of(changed.before.size))
}

// The blocks of a node of this size that has no holes, with those of its index.
fn blocks_of(size: u64) -> u64 {
    let content = size.div_ceil(BLOCK_BYTES);
    let indexed = content.saturating_sub(DIRECT_BLOCKS as u64);
    if indexed == 0 {
        return content;
    }
    let index_blocks = indexed.div_ceil(INDEX_NUMBERS as u64);
    content.saturating_add(index_blocks).saturating_add(1)
}
