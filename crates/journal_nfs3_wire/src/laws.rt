// Laws of all arguments, results and handles.
ghost use Rattle.std.specs.Prelude.{◌≡◌, ◌↔◌, List, ℕ, Some, Ok, Err};
ghost use Rattle.journal_xdr.specs.Items.{IsGrammar};
ghost use Rattle.journal_rpc.specs.declared.replies.CallRefused.TheVariants.{GarbageArguments};
ghost use Rattle.journal_nfs3_wire.specs.declared.procedure.Procedure.{Procedure};
ghost use Rattle.journal_nfs3_wire.specs.Arguments.{Operation, arguments};
ghost use Rattle.journal_nfs3_wire.specs.Whole.{IsSpelling};
ghost use Rattle.journal_nfs3_wire.specs.Handles.{FileHandle, used_handle, handle_in};
ghost use Rattle.journal_nfs3_wire.specs.Calls.{called};
ghost use Rattle.journal_nfs3_wire.specs.Results.{results};
ghost use Rattle.journal_nfs3_wire.specs.declared.query.QueryProcedure.{QueryProcedure};
ghost use Rattle.journal_nfs3_wire.specs.Queries.{query_arguments};
ghost use Rattle.journal_nfs3_wire.specs.QueryResults.{entry, access_results, page_results, status_results, information_results, configuration_results};

use journal_xdr::HasItem;

/// A procedure's arguments are an item: what is read is spelled so, and what is spelled so is read
/// (RFC 1813, section 3.3). An operation is run exactly where the arguments are its spelling, and
/// they are refused exactly where they are the spelling of none.
pub fn arguments_are_spellings()
    ensures items { (procedure : Procedure) → IsGrammar (arguments procedure) }
    ensures runs { (procedure : Procedure) (bytes : List ℕ) (operation : Operation)
        → (called (Some procedure) bytes ≡ Ok operation) ↔ IsSpelling (arguments procedure) bytes operation }
    ensures garbage { (procedure : Procedure) (bytes : List ℕ)
        → (called (Some procedure) bytes ≡ Err GarbageArguments)
        ↔ ((operation : Operation) → ¬ (IsSpelling (arguments procedure) bytes operation)) }
{}

/// So are a procedure's results.
pub fn results_are_spellings()
    ensures items { (procedure : Procedure) → IsGrammar (results procedure) }
{}

/// A handle is 12 bytes, which name one inode and a generation; other bytes are none.
pub fn handles_are_spellings()
    ensures item { IsGrammar used_handle }
    ensures named { (bytes : List ℕ) (handle : FileHandle)
        → (handle_in bytes ≡ Some handle) ↔ IsSpelling used_handle bytes handle }
{}

/// So are the arguments and the results of queries. A listing is one where its lines are.
pub fn queries_are_spellings<E: HasItem>()
    ensures arguments { (procedure : QueryProcedure) → IsGrammar (query_arguments procedure) }
    ensures line { IsGrammar entry }
    ensures access { IsGrammar access_results }
    ensures listing { IsGrammar E.item → IsGrammar (page_results E.item) }
    ensures status { IsGrammar status_results }
    ensures information { IsGrammar information_results }
    ensures configuration { IsGrammar configuration_results }
{}
