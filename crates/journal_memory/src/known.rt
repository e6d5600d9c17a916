// Pairs of an address and a value that exist in proofs alone.
//
// A field takes memory, and a ghost field is a fact about the other fields. A snapshot has no bytes
// and can have any value that there was. An offer of a logbook has no bytes either, and asks for
// any value that a proof can name. So a snapshot of an offer knows that value. The offer is made
// for this alone: no step of a book uses it.
ghost use Rattle.std.specs.Prelude.{◌≡◌, [], ◌∷◌};

use journal_world::{Addr, Objects, Value};
use logbook::{Gain, Offer, Plain, Rule, Seen, Start};
use std::marker::Model;
use std::snapshot::Snapshot;

/// Pairs that their owner knows in proofs, the last one first. Contracts see them as a list. At run
/// time it has no bytes, and its functions do nothing.
#[derive(Drop)]
pub(crate) struct KnownPairs {
    asked: Snapshot<Offer<Objects, (), Unruled, NoGain>>,
}

impl Model for KnownPairs {
    ghost use Rattle.std.specs.Prelude.{List};
    ghost use Rattle.journal_world.specs.Maps.{Pair};

    ghost Value = { List Pair };

    ghost view = { λ known. known.asked.value.ask };
}

impl KnownPairs {
    // No pair.
    pub(crate) fn none() -> KnownPairs
        ensures { result ≡ [] }
    {
        asked::<(), AskNone>(&())
    }

    // One pair more.
    pub(crate) fn with(&self, addr: Addr, value: &Value) -> KnownPairs
        ensures known { result ≡ (addr, value.now) ∷ self.now }
    {
        let more = More {
            known: self,
            addr,
            value,
        };
        asked::<More<'_>, AskMore>(&more)
    }
}

// The pairs that are asked for.
fn asked<X, M: Plain<X, Objects, ()>>(about: &X) -> KnownPairs
    ensures { result ≡ M.ask about.now }
{
    let (seen, _first, _second) = Seen::open(Start::alone(), 0, 0);
    let offer = seen.plain::<NoGain, X, M>(about);
    KnownPairs {
        asked: Snapshot::of(&offer),
    }
}

// Pairs, and one more.
#[derive(Drop)]
struct More<'a> {
    known: &'a KnownPairs,
    addr: Addr,
    value: &'a Value,
}

// Asks for no pair.
struct AskNone;

impl Plain<(), Objects, ()> for AskNone {
    ghost use Rattle.std.specs.Prelude.{None, []};

    ghost ask = { λ nothing. [] };

    ghost state = { λ nothing. None };
}

// Asks for one pair more.
struct AskMore;

impl<'a> Plain<More<'a>, Objects, ()> for AskMore {
    ghost use Rattle.std.specs.Prelude.{None, ◌∷◌};

    ghost ask = { λ more. (more.addr, more.value.now) ∷ more.known.now };

    ghost state = { λ more. None };
}

// The rule of a book that no step changes.
struct Unruled;

impl Rule<Objects, ()> for Unruled {
    ghost use Rattle.std.specs.Prelude.{[]};
    ghost use base.Fml.{ftrue};

    ghost holds = { λ cells log. Unit {0} };

    ghost first = { [] };

    ghost hinted = { λ n log. Unit {0} };

    ghost shows = { λ log. [] };

    ghost keeps = { λ names log. ftrue };

    ghost moves = { λ ask before after answer. Unit {0} };
}

// A step gives nothing in trade.
struct NoGain;

impl Gain<Objects, ()> for NoGain {
    ghost use base.Fml.{ftrue};

    ghost after = { λ names about answer. ftrue };
}
