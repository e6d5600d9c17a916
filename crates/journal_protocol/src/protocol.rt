// What the calls of connections are answered by.
ghost use Rattle.std.specs.Prelude.{◌≡◌, ◌≤◌, ◌++◌, ℕ, List, true, IsTrue, IfOk, OnOk, OnErr};
ghost use Rattle.journal_world.specs.Histories.{floor, is_fenced};
ghost use Rattle.journal_history.specs.Tokens.{SessionState, OnlyExtends};
ghost use Rattle.journal_protocol.specs.Protocols.{Service, Replacing, IsAnswered, IsLost, IsLawful, IsRefusable};

use crate::clock::Clock;
use crate::connection::ConnFault;
use crate::held_reply::{Counted, HeldReply};
use journal_rpc::Marking;
use journal_world::Refusal;
use journal_xdr::Writer;
use std::alloc::{AllocError, Global};
use std::sync::Wait;

/// A protocol over a store: what the calls of connections are answered by. The store, its journal
/// and the rule of its maps are the protocol's own, and so is the reading of a record as a call.
///
/// A reply is that of its call by the marks of a history: by those that the session has seen before
/// it is sent. So a call is done up to its commit, its reply is held, and one wait serves many.
pub trait Protocol {
    /// The session of a connection, under which its calls are done.
    type Session;

    /// The commits that a reply waits for.
    type Receipt: Counted + Drop;

    /// A call whose reply waits, as `refused_reply` needs it.
    type Awaited: Drop;

    // Its calls, as clauses see them.
    ghost Call: { Type 0 };

    // The state of a session.
    ghost seen: { Self.Session → SessionState };

    // How its records are marked, which are calls, and what each is replied.
    ghost service: { Self → Service Call };

    // Which text is sent in place of a reply whose wait is refused.
    ghost replaces: { Self → Replacing Self.Awaited };

    /// How its records are marked.
    fn marking(&self) -> Marking
        ensures { result ≡ (service self.now).marking };

    /// Writes the reply to a record's call up to its commit, as a record, and says which wait comes
    /// before it may be sent, or `None` if the record is no call. It may wait for the journal.
    ///
    /// # Errors
    /// The reply is lost, and the call is done all the same.
    /// - `NoMemory`: memory for the reply is refused.
    /// - `NoRecord`: no record can hold the reply.
    fn answer_no_wait<W: Wait, C: Clock>(
        &self,
        rt: &W,
        alloc: Global,
        session: &mut Self::Session,
        bytes: &[u8],
        writer: &mut Writer,
        clock: &C,
    ) -> Result<Option<HeldReply<Self::Awaited, Self::Receipt>>, ConnFault>
        ensures held { IfOk result (IsAnswered (service self.now) (replaces self.now) Self.Receipt.commits (C.tells clock.now) bytes.now
            (seen session.old) (seen session.new) writer.old writer.new) }
        ensures lost { OnErr result (IsLost (service self.now) (C.tells clock.now) bytes.now (seen session.old) (seen session.new)) };

    /// Writes the reply that is sent in place of one that has a wait, where the wait is refused.
    ///
    /// # Errors
    /// Memory for it is refused.
    fn refused_reply(
        &self,
        writer: &mut Writer,
        call: &Self::Awaited,
        why: &Refusal<()>,
    ) -> Result<(), AllocError>
        ensures in_place { OnOk result ((reply : List ℕ) × replaces self.now call.now reply × (writer.new ≡ writer.old ++ reply)) };

    /// Waits until the commits of a receipt are stable.
    ///
    /// # Errors
    /// Those of the journal's wait. The commits are not known to be stable then.
    fn wait_stable<W: Wait>(
        &self,
        rt: &W,
        session: &mut Self::Session,
        receipt: &Self::Receipt,
    ) -> Result<(), Refusal<()>>
        ensures stable { OnOk result (Self.Receipt.commits receipt.now ≤ floor (seen session.new).seen) }
        ensures extends { OnlyExtends (seen session.old) (seen session.new) };

    /// True if the session knows that this number of commits is stable. It does not wait.
    fn is_stable(&self, session: &mut Self::Session, commits: u64) -> bool
        ensures stable { IsTrue result → commits ≤ floor (seen session.new).seen }
        ensures extends { OnlyExtends (seen session.old) (seen session.new) };

    /// Fences the session: true if nothing is committed under its number from then on.
    fn fence<W: Wait>(&self, rt: &W, session: &mut Self::Session) -> bool
        ensures fenced { IsTrue result → is_fenced (seen session.new).number (seen session.new).seen ≡ true }
        ensures extends { OnlyExtends (seen session.old) (seen session.new) };

    // The laws of the replies of each protocol.
    ghost lawful: { (p : Self) → IsLawful (service p) };

    ghost refusable: { (p : Self) → IsRefusable (replaces p) };
}
