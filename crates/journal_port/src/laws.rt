// The records of a connection.
ghost use Rattle.std.specs.Prelude.{◌≡◌, ◌≢◌, ◌<◌, ℕ, List, [], slice_index};
ghost use Rattle.journal_rpc.specs.declared.part.Part.TheVariants.{TooLong};
ghost use Rattle.journal_rpc.specs.Markings.{whole_records};
ghost use Rattle.journal_rpc.specs.Stream.{fresh, after, IsBetween};
ghost use Rattle.journal_records.specs.declared.limits.TheConstants.{RECORD_BYTES};
ghost use Rattle.journal_records.specs.Frames.{IsStream, IsPartial, BeginsTooLong};
ghost use Rattle.journal_protocol.specs.Output.{records_of};

/// The bytes of a connection are its records, each after its length, and a rest. The rest is none
/// where nothing has come of the next record, less than a record where one may come, and begins
/// with the length of one that is too long where the next is.
pub fn records_stand_after_their_lengths()
    ensures { (bytes : List ℕ) → ((i : ℕ) → slice_index bytes i < 256) → (rest : List ℕ) × IsStream bytes (records_of (whole_records RECORD_BYTES) bytes) rest
        × (IsBetween (after (fresh (whole_records RECORD_BYTES)) bytes) → rest ≡ [])
        × ((after (fresh (whole_records RECORD_BYTES)) bytes).part ≢ TooLong → IsPartial rest)
        × ((after (fresh (whole_records RECORD_BYTES)) bytes).part ≡ TooLong → BeginsTooLong rest) }
{}
