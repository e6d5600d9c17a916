// Replies that are kept.
ghost use Rattle.std.specs.Prelude.{◌≡◌, IsTrue, IfOk};
ghost use Rattle.journal_treeserver.specs.CodeViews.{served_as};
ghost use Rattle.journal_treeserver.specs.Kept.{IsKept};

use crate::server::Export;
use journal_history::{Front, Naming};
use journal_treefs::TreeRule;
use journal_treestore::Cut;
use std::alloc::{AllocError, Global};
use std::marker::Model;

// For how many seconds a reply is given again. A client whose connection was lost may try for five
// minutes before it makes another one.
const KEPT_SECONDS: u32 = 600;

// A call that is to be done once, as it was sent: how the tree is cut and served to its client, and
// its record.
#[derive(Clone, Copy)]
pub(crate) struct Sent<'c> {
    pub(crate) cut: Cut,
    pub(crate) export: Export,
    pub(crate) bytes: &'c [u8],
    // The call's number, which the record has too.
    pub(crate) xid: u32,
    // When it came.
    pub(crate) secs: u32,
}

// A reply that is given again, and a history that has its call's commit.
#[derive(Drop)]
pub(crate) struct Repeat<'b, J: Naming, R: TreeRule> {
    pub(crate) reply: Vec<u8>,
    pub(crate) front: Front<'b, J, R>,
}

// The reply to a call that was done.
#[derive(Drop)]
pub(crate) struct Kept<'b, J: Naming, R: TreeRule> {
    cut: Cut,
    export: Export,
    bytes: Vec<u8>,
    reply: Vec<u8>,
    // A history that has its commit.
    front: Front<'b, J, R>,
    // When it was done.
    secs: u32,
}

impl<'b, J: Naming, R: TreeRule> Model for Kept<'b, J, R> {
    ghost use Rattle.journal_treeserver.specs.CodeViews.{served_as};
    ghost use Rattle.journal_treeserver.specs.Kept.{KeptReply, IsKept};

    ghost Value = { KeptReply };

    ghost view = { λ k. record { served = served_as k.cut k.export; bytes = k.bytes.items; reply = k.reply.items; front = k.front } };

    ghost invariant = { λ k. IsKept (served_as k.cut k.export) k.bytes.items k.reply.items k.front };
}

impl<'b, J: Naming, R: TreeRule> Kept<'b, J, R> {
    // The reply to a call that was done, whose commit this history has.
    //
    // # Errors
    // - Memory is refused.
    pub(crate) fn new(
        alloc: Global,
        sent: &Sent<'_>,
        reply: &[u8],
        front: Front<'b, J, R>,
    ) -> Result<Kept<'b, J, R>, AllocError>
        requires { IsKept (served_as sent.now.cut sent.now.export) sent.now.bytes.now reply.now front }
    {
        Ok(Kept {
            cut: sent.cut,
            export: sent.export,
            bytes: sent.bytes.to_vec(alloc)?,
            reply: reply.to_vec(alloc)?,
            front,
            secs: sent.secs,
        })
    }

    // True if it is the reply to a call that was sent so: by the same client, with the same bytes.
    pub(crate) fn is_of(&self, sent: &Sent<'_>) -> bool
        ensures served { IsTrue result → self.now.served ≡ served_as sent.now.cut sent.now.export }
        ensures bytes { IsTrue result → self.now.bytes ≡ sent.now.bytes.now }
    {
        self.bytes.as_slice() == sent.bytes && self.export == sent.export && self.cut == sent.cut
    }

    // True if it may still be given again.
    pub(crate) fn is_young(&self, secs: u32) -> bool {
        secs.saturating_sub(self.secs) <= KEPT_SECONDS
    }

    // A copy, to be given again.
    //
    // # Errors
    // - Memory is refused.
    pub(crate) fn repeat(&self, alloc: Global) -> Result<Repeat<'b, J, R>, AllocError>
        ensures { IfOk result (λ again. IsKept self.now.served self.now.bytes again.reply.items again.front) }
    {
        Ok(Repeat {
            reply: self.reply.as_slice().to_vec(alloc)?,
            front: self.front.again(),
        })
    }

    // How many bytes of a call and of a reply it has.
    pub(crate) fn size(&self) -> usize {
        self.bytes.len().saturating_add(self.reply.len())
    }
}
