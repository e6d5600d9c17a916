// Laws of the nine procedures.
ghost use Rattle.std.specs.Prelude.{◌≡◌, ℕ, List, Result, Ok};
ghost use Rattle.journal_history.specs.Tokens.{SessionState};
ghost use Rattle.journal_inode.specs.declared.node.Time.{Time};
ghost use Rattle.journal_inode.specs.declared.version.FormatVersion.{FormatVersion};
ghost use Rattle.journal_rpc.specs.Calls.{Message};
ghost use Rattle.journal_nfs3_wire.specs.Arguments.{Operation};
ghost use Rattle.journal_nfs3_wire.specs.Results.{Results};
ghost use Rattle.journal_nfs3_wire.specs.Calls.{asks};
ghost use Rattle.journal_nfs3.specs.Served.{Standing};
ghost use Rattle.journal_nfs3.specs.Answers.{AnswersAs, sent};
ghost use Rattle.journal_mount3.specs.Roots.{results_at, TellsNoRoot};
ghost use Rattle.journal_mount3.specs.Answers.{AnswersBoth};

/// A call of one of the nine procedures is answered as `journal_nfs3` answers it, with the moment
/// as the root's times. So where the reply tells nothing of the root it is the same, word for word.
pub fn old_calls_are_answered_as_before()
    ensures answered { (version : FormatVersion) (blocks : ℕ) (verifier : List ℕ) (standing : Standing) (now : Time) (call : Message) (operation : Operation)
        (old new : SessionState) (text : List ℕ) → asks call.asked ≡ Ok operation → AnswersBoth version blocks verifier standing now call old new text
        → (r : Results) × AnswersAs version standing verifier now call.xid (asks call.asked) old new (sent call.xid (Ok r)) × (text ≡ sent call.xid (Ok (results_at now r))) }
    ensures same { (now : Time) (r : Results) → TellsNoRoot r → results_at now r ≡ r }
{}
