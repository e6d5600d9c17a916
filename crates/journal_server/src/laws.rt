// What holds of all that is written to a connection.
ghost use Rattle.std.specs.Prelude.{◌≡◌, ◌≤◌, ℕ, List, IsTrue, Ok};
ghost use mathlib.Core.List.{IsPrefix};
ghost use Rattle.journal_world.specs.Histories.{Entry, floor};
ghost use Rattle.journal_history.specs.Tokens.{SessionState, OnlyExtends};
ghost use Rattle.journal_inode.specs.declared.version.FormatVersion.{FormatVersion};
ghost use Rattle.journal_rpc.specs.Calls.{Message, message};
ghost use Rattle.journal_nfs3_wire.specs.Arguments.{Operation};
ghost use Rattle.journal_nfs3_wire.specs.Results.{Results};
ghost use Rattle.journal_nfs3_wire.specs.Calls.{asks};
ghost use Rattle.journal_nfs3.specs.Served.{has_to_wait, is_accepted, CommitsOnceAt, IsMarked};
ghost use Rattle.journal_protocol.specs.Output.{RepliesUpToBad, AllReplies};
ghost use Rattle.journal_server.specs.Output.{IsReply};

use journal_protocol::Clock;

/// What the session had seen before the replies of a connection it has seen after them, with each
/// mark. So where an operation that waits until it is stable was answered OK, a mark covers its
/// commit, at its place, and all commits before it, whenever `serve` returns: also where it gave up
/// behind that reply, since a front of the records that were all replied is a connection's output
/// too.
///
/// A session that has only seen more since, as `serve` leaves it behind the last reply, has that
/// commit and that mark.
///
/// COMMIT, SETATTR, CREATE, REMOVE, and WRITE with DATA_SYNC or FILE_SYNC wait so (RFC 1813,
/// sections 3.3.7 and 3.3.21).
pub fn what_was_stable_stays_stable<C: Clock>(clock: &C)
    ensures grows { (version : FormatVersion) (verifier : List ℕ) (records : List (List ℕ)) (old new : SessionState) (text : List ℕ)
        (history : List Entry) → RepliesUpToBad message (IsReply version (C.tells clock.now) verifier history) records old new text
        → IsPrefix old.seen new.seen × (floor old.seen ≤ floor new.seen) }
    ensures stable { (version : FormatVersion) (verifier : List ℕ) (call : Message) (operation : Operation) (r : Results)
        (old mid new : SessionState) (reply : List ℕ) (behind : List (List ℕ)) (more : List ℕ)
        → (replied : IsReply version (C.tells clock.now) verifier new.seen call old mid reply) → asks call.asked ≡ Ok operation → replied.answers.outcome ≡ Ok r
        → IsTrue (has_to_wait operation) → IsTrue (is_accepted r)
        → RepliesUpToBad message (IsReply version (C.tells clock.now) verifier new.seen) behind mid new more
        → (place : ℕ) × CommitsOnceAt old mid place × IsMarked new.seen place }
    ensures later { (old last now : SessionState) (place : ℕ) → OnlyExtends last now → CommitsOnceAt old last place → IsMarked last.seen place
        → CommitsOnceAt old now place × IsMarked now.seen place }
    ensures front { (version : FormatVersion) (verifier : List ℕ) (history : List Entry) (records : List (List ℕ)) (old new : SessionState) (text : List ℕ)
        → AllReplies message (IsReply version (C.tells clock.now) verifier history) records old new text → RepliesUpToBad message (IsReply version (C.tells clock.now) verifier history) records old new text }
{
    let _ = clock;
}
