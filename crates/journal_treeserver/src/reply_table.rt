// The table of replies.
ghost use Rattle.std.specs.Prelude.{◌≡◌, IfOk};
ghost use Rattle.journal_treeserver.specs.CodeViews.{served_as, IsBegun};

use crate::kept::{Kept, Repeat, Sent};
use crate::reply_group::ReplyGroup;
use journal_history::Naming;
use journal_treefs::TreeRule;
use std::alloc::{AllocError, Global};
use std::sync::{Condvar, Mutex, Wait};

// How many groups there are. So the table has at most 16,384 replies, and 16 MiB of them and of
// their calls.
const GROUPS: usize = 1024;

/// The replies to calls that make, remove or move a name, for clients that send such a call again
/// because its reply was lost. It is in memory alone.
///
/// A reply goes when its group has no room for a newer one: for 16 replies, or for 16 KiB of them
/// and of their calls. It is given again for ten minutes at most.
#[derive(Drop)]
pub struct ReplyTable<'b, J: Naming, R: TreeRule> {
    groups: Vec<SharedGroup<'b, J, R>>,
}

// A group that threads share.
#[derive(Drop)]
struct SharedGroup<'b, J: Naming, R: TreeRule> {
    group: Mutex<ReplyGroup<'b, J, R>>,
    // A call of it is no longer under way.
    ended: Condvar,
}

// The outcome of a call that was sent.
#[derive(Drop)]
pub(crate) enum Begun<'b, J: Naming, R: TreeRule> {
    // It was done, and this is its reply.
    Again(Repeat<'b, J, R>),
    // It is now being done: whoever asked does it, and then calls `finish`.
    First,
    // It is to be done, and its reply cannot be kept.
    NotKept,
}

impl<'b, J: Naming, R: TreeRule> ReplyTable<'b, J, R> {
    /// A table without replies.
    ///
    /// # Errors
    /// - Memory is refused.
    pub fn new(alloc: Global) -> Result<ReplyTable<'b, J, R>, AllocError> {
        let mut groups = Vec::new(alloc);
        for _ in 0..GROUPS {
            groups.push(SharedGroup {
                group: Mutex::new(ReplyGroup::new(alloc)),
                ended: Condvar::new(),
            })?;
        }
        Ok(ReplyTable { groups })
    }

    // The outcome of a call that was sent. Where a copy of it is being done, it waits for the end of
    // that.
    //
    // # Errors
    // - Memory is refused for the copy of a reply. The call is not begun.
    pub(crate) fn begin<W: Wait>(
        &self,
        rt: &W,
        alloc: Global,
        sent: &Sent<'_>,
    ) -> Result<Begun<'b, J, R>, AllocError>
        ensures { IfOk result (IsBegun (served_as sent.now.cut sent.now.export) sent.now.bytes.now) }
    {
        match self.groups.get(group_of(sent.xid)) {
            Some(shared) => shared.begin(rt, alloc, sent),
            None => Ok(Begun::NotKept),
        }
    }

    // Notes that a call is no longer being done, and keeps its reply, if there is one. The copies
    // that wait for it go on.
    pub(crate) fn finish<W: Wait>(&self, rt: &W, sent: &Sent<'_>, kept: Option<Kept<'b, J, R>>) {
        let Some(shared) = self.groups.get(group_of(sent.xid)) else {
            return;
        };
        let mut group = shared.group.lock(rt);
        group.end(sent);
        if let Some(kept) = kept {
            group.keep(kept);
        }
        shared.ended.notify_all();
    }
}

impl<'b, J: Naming, R: TreeRule> SharedGroup<'b, J, R> {
    // The outcome of a call that was sent.
    fn begin<W: Wait>(
        &self,
        rt: &W,
        alloc: Global,
        sent: &Sent<'_>,
    ) -> Result<Begun<'b, J, R>, AllocError>
        ensures { IfOk result (IsBegun (served_as sent.now.cut sent.now.export) sent.now.bytes.now) }
    {
        let mut group = self.group.lock(rt);
        for _ in rt.forever() {
            if let Some(again) = group.repeat(alloc, sent)? {
                return Ok(Begun::Again(again));
            }
            if !group.is_under_way(sent) {
                return match group.begin(alloc, sent) {
                    Ok(()) => Ok(Begun::First),
                    Err(_) => Ok(Begun::NotKept),
                };
            }
            group.waiting = group.waiting.saturating_add(1);
            group = self.ended.wait(rt, group);
            group.waiting = group.waiting.saturating_sub(1);
        }
        unreachable!()
    }
}

// The group of the calls with this number. Clients count their numbers up, some in the one order of
// the bytes and some in the other, so that calls that follow one another have other groups.
fn group_of(xid: u32) -> usize {
    let turned = u32::from_le_bytes(xid.to_be_bytes());
    (xid ^ turned) as usize % GROUPS
}
