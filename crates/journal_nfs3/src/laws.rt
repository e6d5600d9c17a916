// Laws of all answers.
ghost use Rattle.std.specs.Prelude.{◌≡◌, ◌<◌, ◌≤◌, ◌*◌, ℕ, List, length, IsTrue, Result};
ghost use Rattle.journal_world.specs.declared.layout.TheConstants.{BLOCK_BYTES};
ghost use Rattle.journal_world.specs.Maps.{Map};
ghost use Rattle.journal_world.specs.Histories.{Entry, floor};
ghost use Rattle.journal_history.specs.Tokens.{SessionState};
ghost use Rattle.journal_inode.specs.declared.version.FormatVersion.{FormatVersion};
ghost use Rattle.journal_inode.specs.declared.node.Time.{Time};
ghost use Rattle.journal_inode.specs.declared.node.FileNode.{FileNode};
ghost use Rattle.journal_inode.specs.declared.node.Node.TheVariants.{File};
ghost use Rattle.journal_inode.specs.declared.place.TheConstants.{INODES};
ghost use Rattle.journal_inode.specs.Sound.{node_at, file_blocks, HasSoundFiles};
ghost use Rattle.journal_file_types.specs.declared.pending_wait.PendingWait.{PendingWait};
ghost use Rattle.journal_filestore.specs.Done.{IsWaitOver};
ghost use Rattle.journal_filestore.specs.Operations.{attributes_of_node};
ghost use Rattle.journal_history.specs.Tokens.{CommitPlace};
ghost use Rattle.journal_rpc.specs.declared.replies.CallRefused.{CallRefused};
ghost use Rattle.journal_nfs3_wire.specs.Arguments.{Operation};
ghost use Rattle.journal_nfs3_wire.specs.Results.{Results};
ghost use Rattle.journal_nfs3_wire.specs.Profile.{fattr_of};
ghost use Rattle.journal_nfs3.specs.Served.{marked, awaiting, Serves, has_to_wait, is_accepted, CommitsOnceAt, IsMarked};
ghost use Rattle.journal_nfs3.specs.Answers.{AnswersAs};

/// If an operation that waits until it is stable is answered OK, the session has one more commit,
/// and has seen a mark that covers it, at its place, and all commits before it. So it is of COMMIT
/// (RFC 1813, section 3.3.21), SETATTR, CREATE, REMOVE, and WRITE with DATA_SYNC or FILE_SYNC.
pub fn answers_that_wait_are_stable()
    ensures { (version : FormatVersion) (verifier : List ℕ) (now : Time) (operation : Operation) (old new : SessionState) (r : Results)
        → IsTrue (has_to_wait operation) → IsTrue (is_accepted r) → Serves version verifier now operation old r new
        → (place : ℕ) × CommitsOnceAt old new place × IsMarked new.seen place }
{}

/// A reply with a pending wait becomes the call's reply once a mark covers its receipt. It stays so
/// in each history that has greater marks.
pub fn pending_replies_hold_once_stable()
    ensures paid { (version : FormatVersion) (verifier : List ℕ) (now : Time) (xid : ℕ) (asked : Result Operation CallRefused) (old new then : SessionState)
        (wait : PendingWait CommitPlace) (text : List ℕ)
        → AnswersAs version (awaiting wait) verifier now xid asked old new text → IsWaitOver wait then → AnswersAs version (marked then.seen) verifier now xid asked old new text }
    ensures stays { (version : FormatVersion) (verifier : List ℕ) (now : Time) (xid : ℕ) (asked : Result Operation CallRefused) (old new : SessionState)
        (history longer : List Entry) (text : List ℕ)
        → AnswersAs version (marked history) verifier now xid asked old new text → floor history ≤ floor longer → AnswersAs version (marked longer) verifier now xid asked old new text }
{}

/// A file uses the bytes of its blocks, 4096 for each; in version 1 it has one.
pub fn files_use_their_blocks()
    ensures { (version : FormatVersion) (m : Map) → HasSoundFiles version m → (i : ℕ) (f : FileNode) → i < INODES → node_at m i ≡ File f
        → (fattr_of version (attributes_of_node i f)).used ≡ BLOCK_BYTES * length (file_blocks version f) }
{}
