// Laws of every record and every stream.
ghost use Rattle.std.specs.Prelude.{◌≡◌, ◌<◌, ◌^◌, ℕ, List, ◌++◌};
ghost use Rattle.journal_xdr.specs.Items.{IsGrammar};
ghost use Rattle.journal_records.specs.Requests.{request};
ghost use Rattle.journal_records.specs.Answers.{Told, Unsure, answer};
ghost use Rattle.journal_records.specs.Readings.{AsksUnknown, SpellsNone};
ghost use Rattle.journal_records.specs.Frames.{IsStream, IsShort, FitsRecord};

/// Requests are an item: what is read is spelled so, and what is spelled so is read. A record whose
/// number is no operation's is no request.
pub fn requests_are_spellings()
    ensures item { IsGrammar request }
    ensures unknown { (bytes : List ℕ) → AsksUnknown bytes → SpellsNone request bytes }
{}

/// So are answers, and each is short enough for a record. A record can hold the answer to each
/// commit that is not known to be stable.
pub fn answers_are_spellings()
    ensures item { IsGrammar answer }
    ensures short { (told : Told) → answer.Has told → IsShort (answer.spelling told) }
    ensures unsure { (place commits : ℕ) → place < 2 ^ 64 → commits < 2 ^ 64 → FitsRecord answer (Unsure place commits) }
{}

/// The bytes of a stream are the spellings of some records and a rest in one way. So its records
/// are the same in whatever pieces it comes.
pub fn cuttings_do_not_matter()
    ensures single { (bytes rest more : List ℕ) (records others : List (List ℕ)) → IsStream bytes records rest → IsStream bytes others more
        → (records ≡ others) × (rest ≡ more) }
    ensures pieces { (bytes piece rest more : List ℕ) (records later : List (List ℕ)) → IsStream bytes records rest → IsStream (rest ++ piece) later more
        → IsStream (bytes ++ piece) (records ++ later) more }
{}
