// The zeros that fill an item up to whole units.
ghost use Rattle.std.specs.Prelude.{◌≡◌};
ghost use Rattle.journal_xdr.specs.Basic.{padding as padding_of};

// The bytes of a unit, of which items are made (RFC 4506, section 3).
const UNIT: usize = 4;

// The number of zeros that fill `length` bytes up to whole units.
pub fn padding(length: usize) -> usize
    ensures { result ≡ padding_of length }
{
    (UNIT - length % UNIT) % UNIT
}
