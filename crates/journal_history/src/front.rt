// A beginning of the history, and the steps on the book's words.
ghost use Rattle.std.specs.Prelude.{◌≡◌, ◌↔◌, ◌<◌, ◌≤◌, ◌^◌, ◌++◌, ◌∷◌, ◌⊎◌, [], length, None, IsTrue, IfOk, IfErr, OnOk};
ghost use mathlib.Core.List.{IsPrefix};
ghost use Rattle.journal_world.specs.Histories.{floor, is_trusted, IsLegal};
ghost use Rattle.journal_history.specs.Soundness.{IsSound, MayAdd, IsLonger};
ghost use Rattle.journal_history.specs.Steps.{IsFront};

use crate::book::{Book, Naming};
use crate::law::{
    AskMark, ExchangeFloor, ExchangeHead, Law, LoadFloor, LoadHead, LogEntry, NoGain,
};
use journal_world::{CommitCount, MapRule};
use logbook::{Offer, Plain, Seen};
use std::fmt;
use std::fmt::Debug;
use std::marker::{Model, PhantomData};

/// A beginning of the history that was seen. Contracts see it as its entries.
///
/// It is a length beside a token without bytes, so it does not grow with the history. It stays a
/// beginning of the history for good, whatever other threads do.
#[derive(Drop)]
pub struct Front<'b, J: Naming, R: MapRule> {
    book: &'b Book<R>,
    len: u64,
    seen: Seen<LogEntry, u64, Law<R>>,
    journal: PhantomData<J>,
}

impl<'b, J: Naming, R: MapRule> Model for Front<'b, J, R> {
    ghost use Rattle.std.specs.Prelude.{List};
    ghost use Rattle.journal_world.specs.Histories.{Entry};
    ghost use Rattle.journal_history.specs.Steps.{IsFront};

    ghost Value = { List Entry };

    ghost view = { λ f. f.seen.log };

    ghost invariant = { λ f. IsFront R.statement J.book f.book.now f.seen.book f.seen.log f.len };
}

impl<'b, J: Naming, R: MapRule> Front<'b, J, R> {
    // The front of this length that the token has seen.
    fn new(book: &'b Book<R>, len: u64, seen: Seen<LogEntry, u64, Law<R>>) -> Front<'b, J, R>
        requires { IsFront R.statement J.book book.now seen.book seen.log len }
        ensures { result ≡ seen.log }
    {
        Front {
            book,
            len,
            seen,
            journal: PhantomData,
        }
    }

    // The front that has seen nothing.
    pub(crate) fn at_start(book: &'b Book<R>) -> Front<'b, J, R>
        requires { book.now ≡ J.book }
        ensures { result ≡ [] }
    {
        Front::new(book, 0, book.empty.again())
    }

    /// The number of its entries. They are sound. They are legal if the disk was honest and
    /// settled.
    pub fn len(&self) -> u64
        ensures length { result ≡ length self.now }
        ensures sound { IsSound R.statement self.now }
        ensures legal { IsTrue (is_trusted self.now) → IsLegal R.statement self.now }
    {
        self.len
    }

    /// True if it has no entry.
    pub fn is_empty(&self) -> bool
        ensures { IsTrue result ↔ (self.now ≡ []) }
    {
        self.len == 0
    }

    /// A copy. The call takes no memory.
    pub fn again(&self) -> Front<'b, J, R>
        ensures { result ≡ self.now }
    {
        Front::new(self.book, self.len, self.seen.again())
    }

    /// Becomes the longer of the two fronts, which the other one begins.
    pub fn see(&mut self, other: &Front<'b, J, R>)
        ensures one { (self.new ≡ self.old) ⊎ (self.new ≡ other.now) }
        ensures this { IsPrefix self.old self.new }
        ensures that { IsPrefix other.now self.new }
        ensures whole { length self.old ≤ length other.now → self.new ≡ other.now }
    {
        let mut both = self.seen.again();
        both.learn(&other.seen);
        if self.len < other.len {
            *self = other.again();
        }
    }

    // The history as it is now, by one load of HEAD. The entries that the token has seen begin it.
    fn at_head(book: &'b Book<R>, seen: Seen<LogEntry, u64, Law<R>>) -> Front<'b, J, R>
        requires book { book.now ≡ J.book }
        requires token { seen.book ≡ J.book }
        ensures { IsPrefix seen.log result }
    {
        let mut seen = seen;
        let mut offer: Offer<LogEntry, u64, Law<R>, NoGain> = seen.plain::<NoGain, u64, AskMark>(
            &0,
        );
        let len = book.head.load::<LoadHead<R>, NoGain>(&mut seen, &mut offer);
        Front::new(book, len, seen)
    }

    /// Sees the history as it is now.
    pub fn observe(&mut self)
        ensures { IsPrefix self.old self.new }
    {
        *self = Front::at_head(self.book, self.seen.again());
    }

    // A number that is at most the greatest mark of the history, which this front has then seen, by
    // one load of FLOOR. That step does not load the history's length, so a load of HEAD follows.
    pub(crate) fn load_floor(&mut self) -> CommitCount
        ensures marked { result ≤ floor self.new }
        ensures seen { IsPrefix self.old self.new }
    {
        let book = self.book;
        let mut seen = self.seen.again();
        let mut offer: Offer<LogEntry, u64, Law<R>, NoGain> = seen.plain::<NoGain, u64, AskMark>(
            &0,
        );
        let floor = book
            .floor
            .load::<LoadFloor<R>, NoGain>(&mut seen, &mut offer);
        *self = Front::at_head(book, seen);
        CommitCount::new(floor)
    }

    // The history with an entry added, by one exchange of HEAD, if the front is the whole history.
    // Then all that `other` has seen comes before the entry. At `Err` the history is longer, and
    // the returned front has seen it.
    pub(crate) fn add_after<X, M: Plain<X, LogEntry, u64>>(
        &self,
        other: &Front<'b, J, R>,
        about: &X,
    ) -> Result<Front<'b, J, R>, Front<'b, J, R>>
        requires room { length self.now < 2 ^ 62 }
        requires may { MayAdd R.statement self.now (M.ask about.now) }
        requires asks { M.state about.now ≡ None }
        ensures added { IfOk result (λ front. front ≡ self.now ++ M.ask about.now ∷ []) }
        ensures later { OnOk result (IsPrefix other.now self.now) }
        ensures stale { IfErr result (λ front. IsLonger self.now front) }
    {
        let mut both = self.seen.again();
        both.learn(&other.seen);
        let mut offer: Offer<LogEntry, u64, Law<R>, NoGain> = both.plain::<NoGain, X, M>(about);
        let mut pen = both.no_pen();
        let book = self.book;
        let len = self.len;
        let found = book
            .head
            .compare_exchange::<ExchangeHead<R>, NoGain>(
                len,
                len + 1,
                &mut both,
                &mut offer,
                &mut pen,
            );
        if found == len {
            Ok(Front::new(book, len + 1, both))
        } else {
            Err(Front::new(book, found, both))
        }
    }

    // Exchanges FLOOR from one number to another. True if it did. No clause says so, because other
    // threads may change the word at any time.
    pub(crate) fn exchange_floor(&self, old: u64, new: u64) -> bool
        requires { new ≤ floor self.now }
    {
        let mut seen = self.seen.again();
        let mut offer: Offer<LogEntry, u64, Law<R>, NoGain> = seen.plain::<NoGain, u64, AskMark>(
            &0,
        );
        let mut pen = seen.no_pen();
        let book = self.book;
        let found = book
            .floor
            .compare_exchange::<ExchangeFloor<R>, NoGain>(
                old, new, &mut seen, &mut offer, &mut pen,
            );
        found == old
    }
}

impl<'b, J: Naming, R: MapRule> Debug for Front<'b, J, R> {
    fn fmt<W: fmt::Write>(&self, f: &mut fmt::Formatter<W>) -> fmt::Result {
        f.debug_struct("Front")
            .field("len", &self.len)
            .finish_non_exhaustive()
    }
}
