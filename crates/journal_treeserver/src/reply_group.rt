// One group of the replies of the table, and its calls that are under way.
ghost use Rattle.std.specs.Prelude.{◌≡◌, IfOk, IfSome};
ghost use Rattle.journal_treeserver.specs.CodeViews.{served_as};
ghost use Rattle.journal_treeserver.specs.Kept.{IsKept};

use crate::client::ClientAddress;
use crate::kept::{Kept, Repeat, Sent};
use journal_history::Naming;
use journal_treefs::TreeRule;
use std::alloc::{AllocError, Global};
use std::marker::PhantomData;

// The most replies of a group, and the most bytes of their calls and of themselves. The longest
// call that may change a tree, a SYMLINK, has about 5,200 bytes.
const MOST_REPLIES: usize = 16;

const MOST_BYTES: usize = 16_384;

// A call that is under way: its client, and its record.
#[derive(Drop)]
struct CallUnderWay {
    client: Option<ClientAddress>,
    bytes: Vec<u8>,
}

// Replies, in the order in which they came, calls that are under way, and how many copies of these
// wait.
#[derive(Drop)]
pub(crate) struct ReplyGroup<'b, J: Naming, R: TreeRule> {
    kept: Vec<Kept<'b, J, R>>,
    under_way: Vec<CallUnderWay>,
    pub(crate) waiting: u64,
    // Says that the rule outlives `'b`. A list of replies does not say it of their histories.
    rule: PhantomData<&'b R>,
}

impl<'b, J: Naming, R: TreeRule> ReplyGroup<'b, J, R> {
    // No reply, and no call. It takes no memory.
    pub(crate) fn new(alloc: Global) -> ReplyGroup<'b, J, R> {
        ReplyGroup {
            kept: Vec::new(alloc),
            under_way: Vec::new(alloc),
            waiting: 0,
            rule: PhantomData,
        }
    }

    // A copy of the reply to a call that was sent so, if it is kept.
    //
    // # Errors
    // - Memory is refused.
    pub(crate) fn repeat(
        &self,
        alloc: Global,
        sent: &Sent<'_>,
    ) -> Result<Option<Repeat<'b, J, R>>, AllocError>
        ensures { IfOk result (λ found. IfSome found (λ again. IsKept (served_as sent.now.cut sent.now.export) sent.now.bytes.now again.reply.items again.front)) }
    {
        for kept in &self.kept {
            if kept.is_of(sent) && kept.is_young(sent.secs) {
                return Ok(Some(kept.repeat(alloc)?));
            }
        }
        Ok(None)
    }

    // True if a call that was sent so is under way.
    pub(crate) fn is_under_way(&self, sent: &Sent<'_>) -> bool {
        self.place_of(sent).is_some()
    }

    // Its place among those that are under way.
    fn place_of(&self, sent: &Sent<'_>) -> Option<usize> {
        self.under_way.iter().position(|call| {
            call.bytes.as_slice() == sent.bytes && call.client == sent.export.client
        })
    }

    // Notes that the call is under way.
    //
    // # Errors
    // - Memory is refused.
    pub(crate) fn begin(&mut self, alloc: Global, sent: &Sent<'_>) -> Result<(), AllocError> {
        let bytes = sent.bytes.to_vec(alloc)?;
        self.under_way.push(CallUnderWay {
            client: sent.export.client,
            bytes,
        })?;
        Ok(())
    }

    // Notes that the call is no longer under way.
    pub(crate) fn end(&mut self, sent: &Sent<'_>) {
        if let Some(place) = self.place_of(sent)
            && place < self.under_way.len()
        {
            self.under_way.swap_remove(place);
        }
    }

    // Keeps a reply. Where there is no room the oldest ones go, but none while a copy waits, whose
    // reply it may be. Where memory is refused it is not kept.
    pub(crate) fn keep(&mut self, kept: Kept<'b, J, R>) {
        for _ in 0..self.kept.len() {
            if self.kept.is_empty() || self.waiting > 0 || self.has_room(kept.size()) {
                break;
            }
            self.kept.remove(0);
        }
        let _ = self.kept.push(kept);
    }

    // True if there is room for one more reply of this size with its call.
    fn has_room(&self, bytes: usize) -> bool {
        let mut total = bytes;
        for kept in &self.kept {
            total = total.saturating_add(kept.size());
        }
        self.kept.len() < MOST_REPLIES && total <= MOST_BYTES
    }
}
