// The one value that adds to the history.
ghost use Rattle.std.specs.Prelude.{false, ◌≡◌, ◌≢◌, ◌<◌, ◌≤◌, ◌+◌, ◌^◌, ◌++◌, ◌∷◌, [], length, slice_set, IsTrue, IfOk, IfErr, OnOk, OnErr};
ghost use mathlib.Core.List.{IsPrefix};
ghost use Rattle.journal_world.specs.Maps.{Agrees, are_objects, overwritten};
ghost use Rattle.journal_world.specs.Histories.{floor, count, commits_of, opened, is_trusted, is_fenced, latest, IsLegal};
ghost use Rattle.journal_world.specs.Histories.Entry.{opening, stable, fence};
ghost use Rattle.journal_history.specs.Counts.{HasCount};
ghost use Rattle.journal_history.specs.Soundness.{IsSound, IsLonger};
ghost use Rattle.journal_history.specs.Tokens.{made, IsExact, OnlyExtends, next_transaction, Commits, IsReceiptFor};

use crate::book::{Book, Naming};
use crate::counts::SessionCounts;
use crate::front::Front;
use crate::law::{AskCommit, AskFence, AskMark, AskOpening, Numbered, Opened, Recorded};
use crate::receipt::Receipt;
use crate::session::Session;
use journal_world::{CommitCount, MapRule};
use std::fmt;
use std::fmt::Debug;
use std::marker::Model;
use std::sync::Wait;

/// The right to add entries to the history, with all entries that were added. Contracts see the
/// history.
///
/// Beginning a book's history makes its one writer, which cannot be copied. So its owner alone
/// decides which sessions there are, and adds commits and marks. If the book has more entries than
/// the writer, each call is refused all the same, and gives the longer history as a front.
#[derive(Drop)]
pub struct Writer<'b, J: Naming, R: MapRule> {
    front: Front<'b, J, R>,
    commits: CommitCount,
    mark: CommitCount,
    published: CommitCount,
}

impl<'b, J: Naming, R: MapRule> Model for Writer<'b, J, R> {
    ghost use Rattle.std.specs.Prelude.{List};
    ghost use Rattle.journal_world.specs.Histories.{Entry};
    ghost use Rattle.journal_history.specs.Tokens.{IsWhole};

    ghost Value = { List Entry };

    ghost view = { λ w. w.front };

    ghost invariant = { λ w. IsWhole J.layout w.front w.commits w.mark w.published };
}

impl<'b, J: Naming, R: MapRule> Writer<'b, J, R> {
    // An opening changes the book here, after all that could refuse it. A trial, and no clause,
    // shows that a refused opening leaves the book as it was: other threads may add entries.
    /// Begins the history of a book with a map.
    ///
    /// # Errors
    /// - The book has a history already, and the front has seen it. The book is as it was.
    pub fn begin<O: Opened>(
        book: &'b Book<R>,
        objects: &O,
    ) -> Result<Writer<'b, J, R>, Front<'b, J, R>>
        requires book { book.now ≡ J.book }
        requires layout { (O.map objects.now).layout ≡ J.layout }
        requires objects { IsTrue (O.trusted objects.now) → IsTrue (are_objects (O.map objects.now).layout (O.map objects.now).pairs) }
        requires rule { IsTrue (O.trusted objects.now) → R.statement (O.map objects.now) }
        ensures begun { IfOk result (λ writer. writer ≡ opening (O.map objects.now) (O.trusted objects.now) ∷ []) }
        ensures stale { IfErr result (λ front. front ≢ []) }
    {
        let start = Front::at_start(book);
        Ok(Writer {
            front: start.add_after::<O, AskOpening>(&start, objects)?,
            commits: CommitCount::default(),
            mark: CommitCount::default(),
            published: CommitCount::default(),
        })
    }

    /// The number of entries of the history. They are sound. They are legal if the disk was honest
    /// and settled.
    pub fn len(&self) -> u64
        ensures length { result ≡ length self.now }
        ensures begun { self.now ≢ [] }
        ensures on_disk { (opened self.now).layout ≡ J.layout }
        ensures sound { IsSound R.statement self.now }
        ensures legal { IsTrue (is_trusted self.now) → IsLegal R.statement self.now }
    {
        self.front.len()
    }

    /// The number of commits of the history.
    pub fn count(&self) -> CommitCount
        ensures { result ≡ count self.now }
    {
        self.commits
    }

    /// The greatest mark of the history: the first n commits are stable.
    pub fn floor(&self) -> CommitCount
        ensures { result ≡ floor self.now }
    {
        self.mark
    }

    /// The history, as a front.
    pub fn front(&self) -> Front<'b, J, R>
        ensures { result ≡ self.now }
    {
        self.front.again()
    }

    /// A session of the next number, which the history has no commit of. It has seen the whole
    /// history, and no other session has its number.
    pub fn session(&self, counts: &mut SessionCounts<J>, number: u64) -> Session<'b, J, R>
        requires next { number ≡ length counts.old }
        requires fresh { commits_of number self.now ≡ [] }
        ensures session { result ≡ record { number = number; mine = self.now; seen = self.now } }
        ensures counts { counts.new ≡ counts.old ++ 0 ∷ [] }
    {
        Session::new(counts.give(number), &self.front)
    }

    /// Shows the session the whole history.
    ///
    /// # Errors
    /// - The session has seen more than the writer, and the front is its history. The writer is as
    ///   it was.
    pub fn show(&self, session: &mut Session<'b, J, R>) -> Result<(), Front<'b, J, R>>
        ensures extends { OnlyExtends session.old session.new }
        ensures shown { OnOk result (session.new.seen ≡ self.now) }
        ensures exact { OnOk result (length (commits_of session.old.number self.now) ≡ made session.old → IsExact session.new) }
        ensures stale { IfErr result (λ front. IsLonger self.now front) }
        ensures seen { IfErr result (λ front. session.new.seen ≡ front) }
    {
        session.see(&self.front);
        if session.seen() > self.front.len() {
            return Err(session.front());
        }
        Ok(())
    }

    /// Commits the session's next transaction: adds it to the history, which the session has then
    /// seen. The receipt has its place.
    ///
    /// # Errors
    /// - The history is longer than the writer's, and the front has seen it. The writer, the
    ///   numbers of commits and the session are as they were.
    pub fn commit<T: Recorded, W: Wait>(
        &mut self,
        rt: &W,
        counts: &mut SessionCounts<J>,
        session: &mut Session<'b, J, R>,
        transaction: &T,
    ) -> Result<Receipt<'b, J, R>, Front<'b, J, R>>
        requires room { length self.old < 2 ^ 62 }
        requires own { length (commits_of session.old.number self.old) ≡ made session.old }
        requires unfenced { is_fenced session.old.number self.old ≡ false }
        requires read { IsTrue (are_objects J.layout (T.reads transaction.now)) }
        requires written { IsTrue (are_objects J.layout (T.writes transaction.now)) }
        requires agrees { IsTrue (is_trusted self.old) → Agrees (latest self.old) (T.reads transaction.now) }
        requires rule { IsTrue (is_trusted self.old) → R.statement (overwritten (latest self.old) (T.writes transaction.now)) }
        ensures committed { OnOk result (Commits (next_transaction session.old (T.reads transaction.now) (T.writes transaction.now)) session.old session.new self.old self.new) }
        ensures receipt { IfOk result (IsReceiptFor (next_transaction session.old (T.reads transaction.now) (T.writes transaction.now)) self.new (length self.old)) }
        ensures stale { IfErr result (λ front. IsLonger self.old front) }
        ensures unchanged { OnErr result ((self.new ≡ self.old) × (session.new ≡ session.old)) }
        ensures counts { OnOk result (counts.new ≡ slice_set counts.old session.old.number (made session.old + 1)) }
        ensures counted { OnOk result (HasCount counts.old session.old.number (made session.old)) }
        ensures uncounted { OnErr result (counts.new ≡ counts.old) }
    {
        let place = self.front.len();
        let numbered = session.numbered(transaction);
        let front = self
            .front
            .add_after::<Numbered<T>, AskCommit>(&session.front(), &numbered)?;
        session.note_commit(rt, counts, &front);
        self.front = front;
        self.commits = self.commits.following();
        Ok(Receipt::new(&self.front, place, self.commits))
    }

    /// Marks the first n commits as stable, by an entry of the history.
    ///
    /// # Errors
    /// - The history is longer than the writer's, and the front has seen it. The writer is as it
    ///   was.
    pub fn mark(&mut self, n: CommitCount) -> Result<(), Front<'b, J, R>>
        requires room { length self.old < 2 ^ 62 }
        requires rises { floor self.old ≤ n }
        requires made { n ≤ count self.old }
        ensures added { OnOk result (self.new ≡ self.old ++ stable n ∷ []) }
        ensures marked { OnOk result (floor self.new ≡ n) }
        ensures stale { IfErr result (λ front. IsLonger self.old front) }
        ensures unchanged { OnErr result (self.new ≡ self.old) }
    {
        // Called for its contract: the history is sound.
        let _len = self.front.len();
        self.front = self.front.add_after::<u64, AskMark>(&self.front, &n.get())?;
        self.mark = n;
        Ok(())
    }

    /// Fences a session: no commit of that number is added from then on.
    ///
    /// # Errors
    /// - The history is longer than the writer's, and the front has seen it. The writer is as it
    ///   was.
    pub fn fence(&mut self, session: u64) -> Result<(), Front<'b, J, R>>
        requires room { length self.old < 2 ^ 62 }
        ensures added { OnOk result (self.new ≡ self.old ++ fence session ∷ []) }
        ensures stale { IfErr result (λ front. IsLonger self.old front) }
        ensures unchanged { OnErr result (self.new ≡ self.old) }
    {
        // Called for its contract: the history is sound.
        let _len = self.front.len();
        self.front = self
            .front
            .add_after::<u64, AskFence>(&self.front, &session)?;
        Ok(())
    }

    /// Publishes the greatest mark in FLOOR, so that `Session::is_stable` finds it. The history
    /// stays. No clause speaks of the word, because other threads read it at any time.
    pub fn publish_floor(&mut self)
        ensures { self.new ≡ self.old }
    {
        let (published, mark) = (self.published.get(), self.mark.get());
        if self.front.exchange_floor(published, mark) {
            self.published = self.mark;
        }
    }
}

impl<'b, J: Naming, R: MapRule> Debug for Writer<'b, J, R> {
    fn fmt<W: fmt::Write>(&self, f: &mut fmt::Formatter<W>) -> fmt::Result {
        f.debug_struct("Writer")
            .field("front", &self.front)
            .field("count", &self.commits.get())
            .field("floor", &self.mark.get())
            .finish_non_exhaustive()
    }
}
