// Laws of all arguments.
ghost use Rattle.std.specs.Prelude.{◌≡◌, ◌↔◌, List, ℕ, Some, Ok, Err};
ghost use Rattle.journal_xdr.specs.Items.{IsGrammar};
ghost use Rattle.journal_rpc.specs.declared.replies.CallRefused.TheVariants.{GarbageArguments};
ghost use Rattle.journal_nfs3_wire.specs.Whole.{IsSpelling};
ghost use Rattle.journal_mount_wire.specs.declared.procedure.MountProcedure.{MountProcedure};
ghost use Rattle.journal_mount_wire.specs.Arguments.{MountCall, mount_arguments};
ghost use Rattle.journal_mount_wire.specs.Requests.{mount_called};

/// A procedure's arguments are an item: what is read is spelled so, and what is spelled so is read
/// (RFC 1813, appendix I). A call is answered exactly where the arguments are its spelling, and
/// they are refused exactly where they are the spelling of none.
pub fn mount_arguments_are_spellings()
    ensures items { (procedure : MountProcedure) → IsGrammar (mount_arguments procedure) }
    ensures calls { (procedure : MountProcedure) (bytes : List ℕ) (call : MountCall)
        → (mount_called (Some procedure) bytes ≡ Ok call) ↔ IsSpelling (mount_arguments procedure) bytes call }
    ensures garbage { (procedure : MountProcedure) (bytes : List ℕ)
        → (mount_called (Some procedure) bytes ≡ Err GarbageArguments)
        ↔ ((call : MountCall) → ¬ (IsSpelling (mount_arguments procedure) bytes call)) }
{}
