// Laws of every stream, call and reply.
ghost use Rattle.std.specs.Prelude.{◌≡◌, ℕ, ◌<◌, ◌≤◌, List, [], ◌∷◌, ◌++◌, length, slice_index};
ghost use Rattle.journal_rpc.specs.declared.marking.Marking.{Marking};
ghost use Rattle.journal_rpc.specs.Markings.{record_limit, record_marking, HasRoom};
ghost use Rattle.journal_rpc.specs.Stream.{Stream, fresh, after};
ghost use Rattle.journal_xdr.specs.Items.{IsGrammar};
ghost use Rattle.journal_rpc.specs.Calls.{beginning, auth, target, Message, IsCall};
ghost use Rattle.journal_rpc.specs.Cuts.{Cut, record_of, cut_text, IsRecord, SpellsStream};
ghost use Rattle.journal_rpc.specs.Replies.{one_fragment};
ghost use Rattle.journal_rpc.specs.declared.part.Part.TheVariants.{Start, TooLong};

/// The bytes of a stream are the spellings of its records, each in some cutting into fragments, and
/// then less than another, or a header that takes the next above the limit. They spell nothing
/// else.
pub fn streams_are_spelled()
    ensures spelled { (m : Marking) (bytes : List ℕ) → ((i : ℕ) → slice_index bytes i < 256) → SpellsStream bytes (after (fresh m) bytes) }
    ensures only { (bytes : List ℕ) (s : Stream) → HasRoom s.marking → SpellsStream bytes s → s ≡ after (fresh s.marking) bytes }
{}

/// A record is read in any cutting into fragments, and a stream in any pieces. Once a record was
/// too long, nothing more comes.
pub fn cuttings_do_not_matter()
    ensures fragments { (m : Marking) (records : List (List ℕ)) (cut : Cut) → HasRoom m → IsRecord m cut
        → after (record { marking = m; records = records; begun = []; part = Start }) (cut_text m cut)
        ≡ record { marking = m; records = records ++ record_of cut ∷ []; begun = []; part = Start } }
    ensures pieces { (s : Stream) (a b : List ℕ) → after s (a ++ b) ≡ after (after s a) b }
    ensures lasts { (s : Stream) (bytes : List ℕ) → s.part ≡ TooLong → s ≡ after s bytes }
{}

/// The parts of a call's header are items. So a record is one call at most.
pub fn calls_are_spelled()
    ensures beginning { IsGrammar beginning }
    ensures auth { IsGrammar auth }
    ensures target { IsGrammar target }
    ensures single { (bytes : List ℕ) (first second : Message) → IsCall bytes first → IsCall bytes second
        → first ≡ second }
{}

/// A reply that is no longer than a record may be is one record.
pub fn replies_are_records()
    ensures { (reply : List ℕ) → length reply ≤ record_limit
        → after (fresh record_marking) (one_fragment reply) ≡ record { marking = record_marking; records = reply ∷ []; begun = []; part = Start } }
{}
