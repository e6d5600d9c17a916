// Types whose values are listed numbers.
ghost use Rattle.std.specs.Prelude.{◌≡◌, ℕ, Option, Some};

/// An enumeration (RFC 4506, section 4.3): a type with a number of its own for each value.
///
/// Other numbers have no value, and are refused where such a value is read. An `impl` gives
/// `meaning` as a table of the numbers, by `listed` of `specs/Basic.antt`, and `listed_back` proves
/// its second law.
pub trait Enumeration: Copy {
    // The value of a number, if it is listed.
    ghost meaning: { ℕ → Option Self };

    // The number of a value.
    ghost code: { Self → ℕ };

    /// The value of this number, or `None` if it is not listed.
    fn from_number(number: u32) -> Option<Self>
        ensures { result ≡ meaning number };

    /// The number of this value.
    fn number(self) -> u32
        ensures { result ≡ code self };

    // Each value is listed under its number.
    ghost is_listed: { (value : Self) → meaning (code value) ≡ Some value };

    // And under no other.
    ghost has_one_number: { (number : ℕ) (value : Self) → meaning number ≡ Some value → code value ≡ number };
}

// A boolean is an enumeration of 0 and 1 (RFC 4506, section 4.4).
impl Enumeration for bool {
    ghost use Rattle.std.specs.Prelude.{refl, true, false};
    ghost use Rattle.journal_xdr.specs.Basic.{truth_of, number_of_truth};
    ghost use Rattle.journal_xdr.specs.BasicLaws.{truth_back};

    ghost meaning = { truth_of };

    ghost code = { number_of_truth };

    ghost is_listed = { elim [ true ↦ refl | false ↦ refl ] };

    ghost has_one_number = { truth_back };

    fn from_number(number: u32) -> Option<bool> {
        match number {
            0 => Some(false),
            1 => Some(true),
            _ => None,
        }
    }

    fn number(self) -> u32 {
        if self { 1 } else { 0 }
    }
}
