// Commands to an open journal, obeyed one after another.
ghost use Rattle.std.specs.Prelude.{ℕ, ◌≡◌, ◌≤◌, ◌+◌, nat_lt, if◌then◌else◌, None, Some, IsNone, IfOk, IfErr, IsOkUnless};
ghost use Rattle.journal_world.specs.Addresses.{Value};
ghost use Rattle.journal_world.specs.Files.{files};
ghost use Rattle.journal_twophase.specs.Journals.{IsSessionRefusal};
ghost use Rattle.journal_twophase.specs.Transactions.{IsOverwriteRefusal, IsReadRefusal};
ghost use Rattle.journal_command.specs.Commands.{IsInside};
ghost use Rattle.journal_script.specs.Clients.{most_of, FindsTransaction, PutsValue, Gets, KeepsOpen, CommitsOpen, FencesOwn, IsStepRefusal, GivesAnswer, Obeys, Replies, AnswersLine, FlowGoesOn, EndsMount};
ghost use Rattle.journal_script.specs.Endings.{IsChosen};

use crate::answer::Answer;
use crate::blocks::bytes_of;
use crate::ending::{Crash, Ending};
use crate::steps::{Actor, drive};
use journal_block::Block;
use journal_command::{Choice, Command, Room};
use journal_disk::MemDisk;
use journal_history::{Naming, Session};
use journal_twophase::{Journal, JournalRefusal, Txn};
use journal_world::{Addr, AnyMap, Refusal};
use std::alloc::Global;
use std::marker::Model;
use std::ops::ControlFlow;
use std::sync::Wait;

/// A journal that admits every map.
pub type Mount<'b, J> = Journal<'b, MemDisk, AnyMap, J>;

// The answer of a journal, or why it refuses.
type Answered<'b, J> = Result<Answer, JournalRefusal<'b, J, AnyMap>>;

/// The client of an open journal: its session, and the transaction that is open. It must be ended,
/// by `end`.
pub struct Client<'j, 'b, J: Naming> {
    alloc: Global,
    blocks: u64,
    journal: &'j Mount<'b, J>,
    session: Session<'b, J, AnyMap>,
    txn: Option<Txn<'j, 'b, MemDisk, AnyMap, J>>,
}

impl<'j, 'b, J: Naming> Model for Client<'j, 'b, J> {
    ghost use Rattle.std.specs.Prelude.{◌≡◌};
    ghost use Rattle.journal_world.specs.Files.{files};
    ghost use Rattle.journal_script.specs.Clients.{ClientState};

    ghost Value = { ClientState };

    ghost view = { λ c. record { session = c.session; txn = c.txn } };

    ghost invariant = { λ c. J.layout ≡ files c.blocks };
}

impl<'j, 'b, J: Naming> Client<'j, 'b, J> {
    /// A client of a journal over `blocks` blocks, with no transaction open.
    ///
    /// # Errors
    /// - `J11 Worn`: the journal has no number for its session.
    pub fn new<W: Wait>(
        rt: &W,
        alloc: Global,
        blocks: u64,
        journal: &'j Mount<'b, J>,
    ) -> Result<Client<'j, 'b, J>, JournalRefusal<'b, J, AnyMap>>
        requires layout { J.layout ≡ files blocks }
        ensures nothing { IfOk result (λ client. client.txn ≡ None) }
        ensures refusal { IfErr result IsSessionRefusal }
    {
        Ok(Client {
            alloc,
            blocks,
            journal,
            session: journal.session(rt)?,
            txn: None,
        })
    }

    /// The disk has the layout of files. Called for its contract.
    pub fn is_laid(&self)
        ensures { (blocks : ℕ) × (J.layout ≡ files blocks) }
    {
        let _blocks = self.blocks;
    }

    /// Obeys the line and answers it, or returns how the journal has to end.
    pub fn answer<W: Wait>(
        &mut self,
        rt: &W,
        line: &[u8],
        room: &mut Room,
    ) -> ControlFlow<Crash, Answer>
        ensures { AnswersLine J.layout self.old line.now result self.new }
    {
        match Command::read(line, room) {
            Some(command) => self.obey(rt, command),
            None => ControlFlow::Continue(Answer::to_no_command(line)),
        }
    }

    // Obeys the command, likewise.
    fn obey<W: Wait>(&mut self, rt: &W, command: Command<'_>) -> ControlFlow<Crash, Answer>
        requires inside { IsInside command }
        ensures { Replies J.layout self.old command.entry result self.new }
    {
        match command {
            Command::Put { addr, value } => goes_on(self.put(rt, addr, value)),
            Command::Get { addr } => goes_on(self.get(rt, addr)),
            Command::Commit => goes_on(self.commit(rt)),
            Command::Abort => ControlFlow::Continue(self.abort(rt)),
            Command::Fence => goes_on(self.fence(rt)),
            Command::Wait => goes_on(self.wait(rt)),
            Command::Log { most } => goes_on(self.log(rt, most)),
            Command::Install { most } => goes_on(self.install(rt, most)),
            Command::Stat => ControlFlow::Continue(self.stat(rt)),
            Command::Pend => goes_on(self.pend(rt)),
            Command::Disk { block, at, len } => goes_on(self.disk(rt, block, at, len)),
            Command::Fail { call } => ControlFlow::Continue(self.fail(rt, call)),
            Command::Down { choice } => ends(self.crash(rt, choice, Ending::Down)),
            Command::Open | Command::Mend => ControlFlow::Continue(Answer::Up),
            Command::Crash { choice } => ends(self.crash(rt, choice, Ending::Opens)),
            Command::Lose { choice } => ends(self.crash(rt, choice, Ending::Loses)),
            Command::Poke { block, .. } => ControlFlow::Continue(self.poke(block)),
        }
    }

    /// Aborts the open transaction, if there is one, and gives the session back.
    pub fn end<W: Wait>(self, rt: &W) -> Session<'b, J, AnyMap>
        ensures { result ≡ self.entry.session }
    {
        let Client {
            alloc: _,
            blocks: _,
            journal: _,
            session,
            txn,
        } = self;
        if let Some(txn) = txn {
            txn.abort(rt);
        }
        session
    }

    fn put<W: Wait>(&mut self, rt: &W, addr: Addr, value: &[u8]) -> Answered<'b, J>
        ensures done { IfOk result (λ answer. (answer ≡ Answer.Done) × PutsValue J.layout self.old addr value.now self.new) }
        ensures refusal { IfErr result (λ why. KeepsOpen self.old (λ t. IsOverwriteRefusal J.layout t addr value.now why) self.new) }
    {
        let mut txn = self.take_or_begin();
        let done = txn.overwrite(rt, addr, value);
        self.keep(rt, txn);
        done?;
        Ok(Answer::Done)
    }

    fn get<W: Wait>(&mut self, rt: &W, addr: Addr) -> Answered<'b, J>
        ensures value { IfOk result (λ answer. (value : Value) × (answer ≡ Answer.Value value) × Gets J.layout self.old addr value self.new) }
        ensures refusal { IfErr result (λ why. KeepsOpen self.old (λ t. IsReadRefusal J.layout t addr why) self.new) }
    {
        let mut txn = self.take_or_begin();
        let value = txn.read(rt, addr);
        self.keep(rt, txn);
        Ok(Answer::Value(value?))
    }

    fn commit<W: Wait>(&mut self, rt: &W) -> Answered<'b, J>
        ensures { CommitsOpen J.layout self.old result self.new }
    {
        let Some(txn) = self.txn.take() else {
            return Ok(Answer::NoTransaction);
        };
        let receipt = txn.try_commit(rt, &mut self.session)?;
        Ok(Answer::Committed(receipt.count().get()))
    }

    fn abort<W: Wait>(&mut self, rt: &W) -> Answer
        ensures { Obeys J.layout self.old Command.Abort result self.new }
    {
        let Some(txn) = self.txn.take() else {
            return Answer::NoTransaction;
        };
        txn.abort(rt);
        Answer::Done
    }

    // Fences the session.
    fn fence<W: Wait>(&mut self, rt: &W) -> Answered<'b, J>
        ensures { FencesOwn self.old result self.new }
    {
        let number = self.session.number();
        self.journal.fence(rt, &mut self.session, number)?;
        Ok(Answer::Done)
    }

    fn wait<W: Wait>(&self, rt: &W) -> Answered<'b, J>
        ensures answered { IfOk result (GivesAnswer J.layout Command.Wait) }
        ensures refusal { IfErr result (IsStepRefusal Actor.Waiter) }
    {
        drive(rt, self.journal, Actor::Waiter, u64::MAX)?;
        Ok(Answer::Stable(self.journal.stat(rt).floor))
    }

    fn log<W: Wait>(&self, rt: &W, most: Option<u32>) -> Answered<'b, J>
        ensures answered { IfOk result (GivesAnswer J.layout (Command.Log most)) }
        ensures refusal { IfErr result (IsStepRefusal Actor.Logger) }
    {
        let moved = drive(rt, self.journal, Actor::Logger, steps_of(most))?;
        Ok(Answer::Logged(moved))
    }

    fn install<W: Wait>(&self, rt: &W, most: Option<u32>) -> Answered<'b, J>
        ensures answered { IfOk result (GivesAnswer J.layout (Command.Install most)) }
        ensures refusal { IfErr result (IsStepRefusal Actor.Installer) }
    {
        let moved = drive(rt, self.journal, Actor::Installer, steps_of(most))?;
        Ok(Answer::Installed(moved))
    }

    fn pend<W: Wait>(&self, rt: &W) -> Answered<'b, J>
        ensures answered { IfOk result (GivesAnswer J.layout Command.Pend) }
        ensures refusal { IsOkUnless result Refusal.NoMemory }
    {
        Ok(Answer::Pending(self.journal.pending(rt)?))
    }

    fn disk<W: Wait>(&self, rt: &W, block: u32, at: u32, len: u32) -> Answered<'b, J>
        requires { at + len ≤ 4096 }
        ensures answered { IfOk result (GivesAnswer J.layout (Command.Disk block at len)) }
        ensures refusal { IsOkUnless result Refusal.NoMemory }
    {
        if u64::from(block) >= self.blocks {
            return Ok(Answer::BadLine);
        }
        let mut copy = Block::try_new(self.alloc)?;
        self.journal.inspect(rt, u64::from(block), &mut copy);
        Ok(Answer::Value(bytes_of(self.alloc, &copy, at, len)?))
    }

    fn fail<W: Wait>(&self, rt: &W, call: u32) -> Answer
        ensures { result ≡ Answer.Done }
    {
        self.journal.fail_in(rt, u64::from(call));
        Answer::Done
    }

    fn stat<W: Wait>(&self, rt: &W) -> Answer
        ensures { GivesAnswer J.layout Command.Stat result }
    {
        Answer::Stat(self.journal.stat(rt))
    }

    // A poke is for a disk that is down.
    fn poke(&self, block: u32) -> Answer
        ensures { result ≡ (if nat_lt block J.layout.blocks then Answer.Up else Answer.BadLine) }
    {
        if u64::from(block) < self.blocks {
            Answer::Up
        } else {
            Answer::BadLine
        }
    }

    // The crash that the choice names.
    fn crash<W: Wait>(
        &self,
        rt: &W,
        choice: Choice<'_>,
        ending: Ending,
    ) -> Result<Crash, JournalRefusal<'b, J, AnyMap>>
        ensures chosen { IfOk result (λ crash. IsChosen choice.entry crash.numbers.items) }
        ensures ending { IfOk result (λ crash. crash.ending ≡ ending) }
        ensures refusal { IsOkUnless result Refusal.NoMemory }
    {
        let numbers = match choice {
            Choice::Stable => Vec::new(self.alloc),
            Choice::Last => {
                let pending = self.journal.pending(rt)?;
                vec![in self.alloc; u32::MAX; pending.len()]?
            }
            Choice::Listed(numbers) => numbers.to_vec(self.alloc)?,
        };
        Ok(Crash { numbers, ending })
    }

    // Takes the open transaction out, or begins one where none is open.
    fn take_or_begin(&mut self) -> Txn<'j, 'b, MemDisk, AnyMap, J>
        ensures finds { FindsTransaction self.old result self.new.session }
        ensures taken { self.new.txn ≡ None }
    {
        let journal = self.journal;
        match self.txn.take() {
            Some(txn) => txn,
            None => journal.begin(self.alloc, &mut self.session),
        }
    }

    // Puts the transaction that was taken out back.
    fn keep<W: Wait>(&mut self, rt: &W, txn: Txn<'j, 'b, MemDisk, AnyMap, J>)
        requires taken { IsNone self.old.txn }
        ensures { self.new ≡ record self.old { txn = Some txn.entry } }
    {
        if let Some(other) = self.txn.replace(txn) {
            other.abort(rt);
        }
    }
}

// The journal goes on, and answers this.
fn goes_on<C: Drop>(answered: Result<Answer, Refusal<C>>) -> ControlFlow<Crash, Answer>
    ensures { FlowGoesOn answered result }
{
    ControlFlow::Continue(answered.unwrap_or_else(Answer::refused))
}

// The journal ends by the crash, unless that was refused.
fn ends<C: Drop>(crash: Result<Crash, Refusal<C>>) -> ControlFlow<Crash, Answer>
    ensures { EndsMount crash result }
{
    match crash {
        Ok(crash) => ControlFlow::Break(crash),
        Err(why) => ControlFlow::Continue(Answer::refused(why)),
    }
}

// At most this many steps, or until there is nothing to do.
fn steps_of(most: Option<u32>) -> u64
    ensures { result ≡ most_of most }
{
    most.map_or(u64::MAX, u64::from)
}
