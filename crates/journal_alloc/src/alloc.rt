// Numbers, each out or not.
ghost use Rattle.std.specs.Prelude.{ℕ, ◌≡◌, ◌+◌, ◌<◌, ◌≤◌, ◌^◌, ◌↔◌, true, false, IsTrue, IfSome, IfNone, Some, vec_len, vec_capacity, length, slice_get};
ghost use Rattle.journal_alloc.specs.Numbers.{IsOut, IsFree, IsLowestFree, TakesMany, AreOutBelow, free_places, free_count, with_out};

use std::marker::Model;

/// Numbers from a first one on, each out or not. Contracts see the first, and the list of flags.
#[derive(Debug, Drop)]
pub struct Alloc {
    first: u64,
    out: Vec<bool>,
    // All places below this one are out, so the lowest that is not out is here or above.
    start: usize,
    // The number of places that are not out.
    free: usize,
}

impl Model for Alloc {
    ghost use Rattle.std.specs.Prelude.{◌≡◌, ◌+◌, ◌<◌, ◌≤◌, ◌^◌, length};
    ghost use Rattle.journal_alloc.specs.Numbers.{Numbers, AreOutBelow, free_places};

    ghost Value = { Numbers };

    ghost view = { λ alloc. record { first = alloc.first; out = alloc.out.items } };

    ghost invariant = { λ alloc. (alloc.first + length alloc.out.items < 2 ^ 64)
        × (alloc.start ≤ length alloc.out.items) × AreOutBelow alloc.out.items alloc.start
        × (alloc.free ≡ free_places alloc.out.items) };
}

impl Alloc {
    /// The numbers from `first` on, as many as the list is long. Number `first + i` is out if
    /// `out[i]` is true.
    pub fn new(first: u64, out: Vec<bool>) -> Alloc
        requires in_range { first + vec_len out < 2 ^ 64 }
        ensures numbers { result ≡ record { first = first; out = out.items } }
    {
        let free = count_free(&out);
        Alloc {
            first,
            out,
            start: 0,
            free,
        }
    }

    /// Hands out the lowest number that is not out. It is out then, and the others stay.
    ///
    /// `None` if all are out. Nothing changes then.
    pub fn take(&mut self) -> Option<u64>
        ensures lowest { IfSome result (IsLowestFree self.old) }
        ensures taken { IfSome result (λ n. self.new ≡ with_out self.old n true) }
        ensures none { IfNone result ((n : ℕ) → IsFree self.old n → ⊥) }
        ensures unchanged { IfNone result (self.new ≡ self.old) }
    {
        if self.free == 0 {
            return None;
        }
        Some(self.take_lowest())
    }

    // The free numbers are counted, so that it refuses before it takes. The caller reserves the
    // room in the list, where a refusal of memory leaves all numbers as they were.
    /// Hands out `n` numbers, or none. Each is the lowest that is not out then, so they rise. They
    /// are appended to `out`, whose room was reserved, and are out then.
    ///
    /// False if fewer than `n` are not out. Nothing changes then.
    pub fn take_many(&mut self, n: usize, out: &mut Vec<u64>) -> bool
        requires room { vec_len out.old + n ≤ vec_capacity out.old }
        ensures enough { IsTrue result ↔ (n ≤ free_count self.old) }
        ensures taken { IsTrue result → TakesMany n self.old self.new out.old.items out.new.items }
        ensures unchanged { result ≡ false → (self.new ≡ self.old) × (out.new ≡ out.old) }
        ensures length { IsTrue result → vec_len out.new ≡ vec_len out.old + n }
        ensures capacity { vec_capacity out.new ≡ vec_capacity out.old }
    {
        if self.free < n {
            return false;
        }
        for _ in 0..n {
            out.push_reserved(self.take_lowest());
        }
        true
    }

    /// Takes a number back. True if it was out. It is not out then, and the others stay.
    ///
    /// False if it was not out, or is none of these numbers. Nothing changes then.
    pub fn give(&mut self, n: u64) -> bool
        ensures out { IsTrue result ↔ IsOut self.old n }
        ensures given { IsTrue result → self.new ≡ with_out self.old n false }
        ensures unchanged { result ≡ false → self.new ≡ self.old }
    {
        let Some(place) = self.place_of(n) else {
            return false;
        };
        if !self.out[place] {
            return false;
        }
        self.out[place] = false;
        self.start = self.start.min(place);
        self.free += 1;
        true
    }

    // Hands out the lowest number that is not out; there is one.
    fn take_lowest(&mut self) -> u64
        requires { 0 < free_count self.old }
        ensures lowest { IsLowestFree self.old result }
        ensures taken { self.new ≡ with_out self.old result true }
    {
        let place = first_free(&self.out, self.start);
        self.out[place] = true;
        self.start = place;
        self.free -= 1;
        self.first + place as u64
    }

    // The place of the number in the list.
    fn place_of(&self, n: u64) -> Option<usize>
        ensures place { IfSome result (λ place. (self.now.first + place ≡ n) × (place < length self.now.out)) }
        ensures none { IfNone result (self.now.first ≤ n → self.now.first + length self.now.out ≤ n) }
    {
        if n < self.first || n - self.first >= self.out.len() as u64 {
            return None;
        }
        Some((n - self.first) as usize)
    }
}

// The first place from this one on that is not out, or the length if all are.
fn first_free(out: &[bool], start: usize) -> usize
    requires in_range { start ≤ length out.now }
    requires below { AreOutBelow out.now start }
    ensures in_range { result ≤ length out.now }
    ensures below { AreOutBelow out.now result }
    ensures free { result < length out.now → slice_get out.now result ≡ Some false }
{
    for place in start..out.len() {
        if !out[place] {
            return place;
        }
    }
    out.len()
}

// The number of places that are not out.
fn count_free(out: &[bool]) -> usize
    ensures { result ≡ free_places out.now }
{
    out.iter().filter(|is_out| !**is_out).count()
}
