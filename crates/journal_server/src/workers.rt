// Workers, and who hands connections to them.
ghost use Rattle.std.specs.Prelude.{◌≡◌, ◌-◌, ◌<◌, ◌≤◌, ◌+◌, ◌++◌, [], ℕ, true, Some, Ok, IfOk, IfErr, OnOk, IfSome, length};
ghost use Rattle.std.specs.List.{All};
ghost use Rattle.crossbeam_channel.specs.Claims.{view, IsSeatAt};
ghost use Rattle.crossbeam_channel.specs.Ends.{sends_on, receives_on};
ghost use Rattle.journal_server.specs.declared.workers.TheConstants.{MOST_WORKERS};
ghost use Rattle.journal_server.specs.Queues.{pass_state, both, below, numbers_by, note_number, outcome_numbers, times, HasEachOnce, IsFresh, IsWork, IsUncut};
ghost use Rattle.std.specs.Option.{ForSome};
ghost use Rattle.journal_memory.specs.declared.refusal_number.RefusalNumber.TheVariants.{J11};
ghost use Rattle.journal_memory.specs.Causes.{IsUnexplained};
ghost use Rattle.journal_server.specs.Refusals.{IsWorkersRefusal};

use crate::adapters::{Incoming, Outgoing};
use crate::queue::{Balance, Cut, Drains, Job, PassState, Puts, QueueReceiver, QueueSender, Takes};
use crate::serving::serve;
use crate::source::{Connection, Source};
use crossbeam_channel::{Pass, bounded_with};
use journal_disk::BlockDisk;
use journal_filestore::FileStore;
use journal_gate::Gate;
use journal_history::Naming;
use journal_inode::{SoundFiles, Version};
use journal_memory::Cause;
use journal_nfs3::Verifier;
use journal_protocol::{Clock, ConnFault, Served};
use journal_world::Refusal;
use std::alloc::{AllocError, Global};
use std::sync::{Mutex, Wait};
use std::thread;
use std::thread::{Promise, PromisedHandle, Scope, Threads};

// The most workers that there may be. The queue's rule has a part for each of them.
const MOST_WORKERS: u64 = 64;

// How many workers there are.
const WORKERS: u64 = 4;

// How many connections wait for a worker at most. Further ones wait with the source.
const WAITING: usize = 16;

/// How a connection ended: served to its end, or given up.
pub type Outcome = Result<Served, ConnFault>;

// What a worker keeps of a connection that it has served: its number, and how it ended.
type Note = (u64, Outcome);

// What serves the connections that workers take, under their numbers. `None` says that one could
// not be begun.
trait Serve<S> {
    fn serve<H: Wait>(&self, rt: &H, number: u64, connection: S) -> Option<Outcome>;
}

// Why a session was refused, where one was.
#[derive(Drop)]
struct Refused<'b, J: Naming, V: Version> {
    cause: Option<Cause<'b, J, SoundFiles<V>>>,
    ghost unexplained: { ForSome cause (IsUnexplained J11) },
}

// What the workers share.
struct WorkerContext<'s, 'b, D: BlockDisk, J: Naming, V: Version, C: Clock, G: Gate> {
    alloc: Global,
    files: &'s FileStore<'b, D, J, V>,
    verifier: Verifier,
    clock: &'s C,
    gate: &'s G,
    refused: Mutex<Refused<'b, J, V>>,
}

impl<'s, 'b, D: BlockDisk, J: Naming, V: Version, C: Clock, G: Gate> Drop
    for WorkerContext<'s, 'b, D, J, V, C, G> {
    fn drop(self) {
        let WorkerContext {
            alloc: _,
            files: _,
            verifier: _,
            clock: _,
            gate: _,
            refused: _,
        } = self;
    }
}

impl<'s, 'b, D: BlockDisk, J: Naming, V: Version, C: Clock, G: Gate> WorkerContext<
    's,
    'b,
    D,
    J,
    V,
    C,
    G,
> {
    fn new(
        alloc: Global,
        files: &'s FileStore<'b, D, J, V>,
        verifier: Verifier,
        clock: &'s C,
        gate: &'s G,
    ) -> Self {
        WorkerContext {
            alloc,
            files,
            verifier,
            clock,
            gate,
            refused: Mutex::new(Refused { cause: None }),
        }
    }

    // What the workers' notes come to: J11 where a session was refused.
    fn end<H: Wait>(
        self,
        rt: &H,
        notes: Result<Vec<Note>, AllocError>,
    ) -> Result<Vec<Note>, Refusal<Cause<'b, J, SoundFiles<V>>>>
        ensures ok { IfOk result (λ all. notes ≡ Ok all) }
        ensures refusal { IfErr result IsWorkersRefusal }
    {
        if let Some(cause) = self.refused.lock(rt).cause.take() {
            return Err(Refusal::Worn(cause));
        }
        match notes {
            Ok(notes) => Ok(notes),
            Err(_) => Err(Refusal::NoMemory),
        }
    }
}

impl<'s, 'b, D: BlockDisk, J: Naming, V: Version, C: Clock, G: Gate, S: Connection + Drop> Serve<S>
    for WorkerContext<'s, 'b, D, J, V, C, G> {
    fn serve<H: Wait>(&self, rt: &H, number: u64, connection: S) -> Option<Outcome> {
        connection.begin();
        let mut session = match self.files.journal().session(rt) {
            Ok(session) => session,
            Err(why) => {
                if let Refusal::Worn(cause) = why {
                    self.refused.lock(rt).cause = Some(cause);
                }
                return None;
            }
        };
        let outcome = serve(
            rt,
            self.alloc,
            &mut Incoming(&connection),
            &mut Outgoing(&connection),
            self.files,
            &mut session,
            self.clock,
            self.verifier,
            self.gate,
            number,
        );
        connection.close();
        Some(outcome)
    }
}

// What a worker gives back: its pass, its notes, and whether there is one of each connection that
// it took.
#[derive(Drop)]
struct Work<S: Drop> {
    pass: Pass<Job<S>, PassState>,
    notes: Vec<Note>,
    is_whole: bool,
}

// Serves connections until it takes a stop. Where memory for a note is refused it goes on serving,
// so that nobody waits for room in the queue for ever.
#[tactic(auto, using(crate::proofs::Steps::noted))]
fn work_on<S: Drop, K: Serve<S>, H: Wait>(
    rt: &H,
    alloc: Global,
    context: &K,
    queue: &QueueReceiver<S>,
    mut pass: Pass<Job<S>, PassState>,
) -> Work<S>
    requires { IsFresh (IsSeatAt (receives_on queue.now)) pass }
    ensures work { IsWork (IsSeatAt (receives_on queue.now)) result }
{
    let mut notes = Vec::new(alloc);
    let mut is_whole = true;
    for _ in rt.forever() {
        let has_room = notes.reserve(1).is_ok();
        match queue.recv_as::<Takes, H>(rt, &mut pass) {
            Ok(Job::Serve(number, connection)) => match context.serve(rt, number, connection) {
                Some(outcome) if has_room => notes.push_reserved((number, outcome)),
                _ => is_whole = false,
            },
            Ok(Job::Stop) | Err(_) => break,
        }
    }
    Work {
        pass,
        notes,
        is_whole,
    }
}

// That a thread of a scope gives back a worker's work.
struct Works<'l, S: Drop>(&'l QueueReceiver<S>);

impl<'l, S: Drop> Drop for Works<'l, S> {
    fn drop(self) {
        let Works(_) = self;
    }
}

impl<'l, S: Drop> Promise<Work<S>> for Works<'l, S> {
    ghost use Rattle.crossbeam_channel.specs.Claims.{IsSeatAt};
    ghost use Rattle.crossbeam_channel.specs.Ends.{receives_on};
    ghost use Rattle.journal_server.specs.Queues.{IsWork};

    ghost kept_by = { λ p work. IsWork (IsSeatAt (receives_on p.0.now)) work };
}

// Puts the connections of the source into the queue, each under its number. Answers how many there
// were, or `None` where one could not be put.
fn hand_out<I: Source, H: Wait>(
    rt: &H,
    source: &mut I,
    queue: &QueueSender<I::Connection>,
    pass: &mut Pass<Job<I::Connection>, PassState>,
) -> Option<u64>
where
    I::Connection: Drop,
    requires seat { IsSeatAt (sends_on queue.now) pass.old }
    requires idle { (0 < (view pass.old).parts) × ((view pass.old).put ≡ []) × ((view pass.old).taken ≡ []) }
    ensures seat { IsSeatAt (sends_on queue.now) pass.new }
    ensures part { ((view pass.new).parts ≡ (view pass.old).parts) × ((view pass.new).taken ≡ []) }
    ensures put { IfSome result (λ n. (view pass.new).put ≡ below n) }
    ensures given { IfSome result (λ n. I.given source.new ≡ I.given source.old + n) }
{
    for number in 0..u64::MAX {
        let connection = match source.next(rt) {
            Some(connection) => connection,
            None => return Some(number),
        };
        // It is not refused, since the receiver is kept until the workers have ended.
        if queue
            .send_as::<Puts, H>(rt, pass, Job::Serve(number, connection))
            .is_err()
        {
            return None;
        }
    }
    None
}

// Tells one worker to end.
fn stop<S: Drop, H: Wait>(rt: &H, queue: &QueueSender<S>, pass: &mut Pass<Job<S>, PassState>)
    requires { IsSeatAt (sends_on queue.now) pass.old × (0 < (view pass.old).parts) }
    ensures seat { IsSeatAt (sends_on queue.now) pass.new }
    ensures same { view pass.new ≡ view pass.old }
{
    let _ = queue.send_as::<Puts, H>(rt, pass, Job::Stop);
}

// Tells so many workers to end.
fn stop_all<S: Drop, H: Wait>(
    rt: &H,
    queue: &QueueSender<S>,
    pass: &mut Pass<Job<S>, PassState>,
    count: u64,
)
    requires { IsSeatAt (sends_on queue.now) pass.old × (0 < (view pass.old).parts) }
    ensures seat { IsSeatAt (sends_on queue.now) pass.new }
    ensures same { view pass.new ≡ view pass.old }
{
    for _ in 0..count {
        stop(rt, queue, pass);
    }
}

// Cuts a part off.
fn cut<S: Drop>(
    queue: &QueueSender<S>,
    pass: &mut Pass<Job<S>, PassState>,
) -> Pass<Job<S>, PassState>
    requires { IsSeatAt (sends_on queue.now) pass.old × (1 < (view pass.old).parts) }
    ensures seat { IsSeatAt (sends_on queue.now) pass.new }
    ensures left { view pass.new ≡ pass_state ((view pass.old).parts - 1) (view pass.old).put (view pass.old).taken }
    ensures part { IsFresh (IsSeatAt (sends_on queue.now)) result }
{
    queue.another::<Cut>(pass)
}

// Takes in what another pass has done.
fn absorb<S: Drop>(
    queue: &QueueSender<S>,
    pass: &mut Pass<Job<S>, PassState>,
    other: Pass<Job<S>, PassState>,
)
    requires { IsSeatAt (sends_on queue.now) pass.old × IsSeatAt (sends_on queue.now) other × (0 < (view pass.old).parts) }
    ensures seat { IsSeatAt (sends_on queue.now) pass.new }
    ensures both { view pass.new ≡ both (view pass.old) (view other) }
{
    queue.absorb::<Cut>(pass, other);
}

// Takes in a worker's work: what its pass has done, and its notes. It is refused where memory was
// refused to the worker, or is now.
fn take_in<S: Drop>(
    queue: &QueueSender<S>,
    pass: &mut Pass<Job<S>, PassState>,
    notes: &mut Vec<Note>,
    work: Work<S>,
) -> Result<(), AllocError>
    requires { IsSeatAt (sends_on queue.now) pass.old × (0 < (view pass.old).parts) × IsWork (IsSeatAt (sends_on queue.now)) work }
    ensures seat { IsSeatAt (sends_on queue.now) pass.new }
    ensures part { ((view pass.new).parts ≡ (view pass.old).parts + 1) × ((view pass.new).put ≡ (view pass.old).put) }
    ensures taken { (view pass.old).taken ≡ numbers_by note_number notes.old.items
        → OnOk result ((view pass.new).taken ≡ numbers_by note_number notes.new.items) }
{
    let Work {
        pass: other,
        notes: mut others,
        is_whole,
    } = work;
    absorb(queue, pass, other);
    if !is_whole {
        return Err(AllocError);
    }
    notes.append(&mut others)?;
    Ok(())
}

// Whether nothing is left in the queue, of which who has every part takes it.
fn is_drained<S: Drop, H: Wait>(
    rt: &H,
    queue: &QueueReceiver<S>,
    pass: &mut Pass<Job<S>, PassState>,
) -> bool
    requires { IsSeatAt (receives_on queue.now) pass.old × ((view pass.old).parts ≡ 65) }
    ensures { result ≡ true → (x : ℕ) → times x (view pass.old).put ≡ times x (view pass.old).taken }
{
    queue.try_recv_as::<Drains, H>(rt, pass).is_err()
}

/// Serves all connections of the source, by four workers in threads of their own, and returns when
/// each has ended, with the source. They are numbered from 0 as they come, and at most 16 wait for
/// a worker. Each is served by `serve`, with its number and with a session of its own, and closed
/// then. One that waits for its peer holds its own worker alone.
///
/// The outcomes are those of all connections that the source gave, each once, in no order.
///
/// # Errors
/// All other connections were served nevertheless.
/// - J1 `NoMemory`: memory or a thread was refused.
/// - J11 `Worn`: a session was refused.
pub fn run_workers<
    's,
    'b,
    I: Source + Drop,
    D: BlockDisk + Send,
    J: Naming + Send + Sync,
    V: Version + Send + Sync,
    C: Clock + Sync,
    G: Gate + Sync,
    H: Threads + Wait + Sync,
>(
    rt: &H,
    alloc: Global,
    source: I,
    files: &'s FileStore<'b, D, J, V>,
    clock: &'s C,
    verifier: Verifier,
    gate: &'s G,
) -> (
    Result<Vec<(u64, Outcome)>, Refusal<Cause<'b, J, SoundFiles<V>>>>,
    I,
)
where
    I::Connection: Drop + Send,
    ensures numbered { IfOk result.0 (λ outcomes. HasEachOnce (outcome_numbers outcomes.items) (I.given result.1 - I.given source)) }
    ensures refusal { IfErr result.0 IsWorkersRefusal }
{
    let context = WorkerContext::new(alloc, files, verifier, clock, gate);
    let Ended {
        notes,
        source,
        context,
    } = run_pool::<I, WorkerContext<'s, 'b, D, J, V, C, G>, H>(rt, alloc, source, context);
    (context.end(rt, notes), source)
}

// What comes of the workers: their notes, where none was refused, the source, and what they shared.
struct Ended<I, K> {
    notes: Result<Vec<Note>, AllocError>,
    source: I,
    context: K,
}

// Serves the connections of the source by as many workers as are asked for. It is refused where a
// thread or memory was, or where a connection could not be begun.
fn run_pool<I: Source + Drop, K: Serve<I::Connection> + Sync, H: Threads + Wait + Sync>(
    rt: &H,
    alloc: Global,
    source: I,
    context: K,
) -> Ended<I, K>
where
    I::Connection: Drop + Send,
    ensures { IfOk result.notes (λ notes. HasEachOnce (numbers_by note_number notes.items) (I.given result.source - I.given source)) }
{
    let Ok((sender, receiver, mut pass)) = bounded_with::<
        Job<I::Connection>,
        PassState,
        Balance,
        Global,
    >(alloc, WAITING) else {
        return Ended {
            notes: Err(AllocError),
            source,
            context,
        };
    };
    let (notes, source) = in_threads(
        rt, alloc, source, &context, &sender, &receiver, pass, WORKERS,
    );
    Ended {
        notes,
        source,
        context,
    }
}

// Runs the workers, and hands the connections out to them.
fn in_threads<'s, I: Source + Drop, K: Serve<I::Connection> + Sync, H: Threads + Wait + Sync>(
    rt: &'s H,
    alloc: Global,
    source: I,
    context: &'s K,
    sender: &'s QueueSender<I::Connection>,
    queue: &'s QueueReceiver<I::Connection>,
    pass: Pass<Job<I::Connection>, PassState>,
    count: u64,
) -> (Result<Vec<Note>, AllocError>, I)
where
    I::Connection: Drop + Send,
    requires few { count ≤ MOST_WORKERS }
    requires pass { IsUncut (IsSeatAt (sends_on sender.now)) pass }
    requires same { receives_on queue.now ≡ sends_on sender.now }
    ensures { IfOk result.0 (λ notes. HasEachOnce (numbers_by note_number notes.items) (I.given result.1 - I.given source)) }
{
    thread::scope(
        thread::scope_env(),
        rt,
        |scope| -> (Result<Vec<Note>, AllocError>, I)
            requires { IsUncut (IsSeatAt (sends_on sender.now)) pass × (receives_on queue.now ≡ sends_on sender.now) × (count ≤ MOST_WORKERS) }
            ensures { IfOk result.0 (λ notes. HasEachOnce (numbers_by note_number notes.items) (I.given result.1 - I.given source)) }
        {
            let mut source = source;
            let mut pass = pass;
            let workers = match spawn_workers(
                rt, alloc, scope, context, sender, queue, &mut pass, count,
            ) {
                Ok(workers) => workers,
                Err(refused) => {
                    stop_all(rt, sender, &mut pass, count);
                    return (Err(refused), source);
                }
            };
            let given = hand_out(rt, &mut source, sender, &mut pass);
            stop_all(rt, sender, &mut pass, count);
            let notes = join_workers(rt, alloc, sender, queue, pass, workers, given);
            (notes, source)
        },
    )
}

// The thread of a worker.
type Worker<'l, S> = PromisedHandle<Work<S>, Works<'l, S>>;

// Begins the workers, each with a part of the pass. It is refused where a thread or memory is.
fn spawn_workers<'s, E, S: Drop + Send + 's, K: Serve<S> + Sync, H: Threads + Wait + Sync>(
    rt: &'s H,
    alloc: Global,
    scope: &Scope<'s, E>,
    context: &'s K,
    sender: &QueueSender<S>,
    queue: &'s QueueReceiver<S>,
    pass: &mut Pass<Job<S>, PassState>,
    count: u64,
) -> Result<Vec<Worker<'s, S>>, AllocError>
    requires few { count ≤ MOST_WORKERS }
    requires pass { IsUncut (IsSeatAt (sends_on sender.now)) pass.old }
    requires same { receives_on queue.now ≡ sends_on sender.now }
    ensures seat { IsSeatAt (sends_on sender.now) pass.new × (0 < (view pass.new).parts) }
    ensures left { OnOk result (view pass.new ≡ pass_state (65 - count) [] []) }
    ensures workers { IfOk result (λ workers. (length workers.items ≡ count) × All (λ w. w.promise.0.now ≡ queue.now) workers.items) }
{
    let mut workers = Vec::new(alloc);
    for _begun in 0..count {
        workers.reserve(1)?;
        let part = cut(sender, pass);
        let work = move || work_on(rt, alloc, context, queue, part);
        workers.push_reserved(scope.spawn_with(Works(queue), work)?);
    }
    Ok(workers)
}

// The notes of all workers, where so many connections were put. It is refused where one could not
// be, where a worker was refused, or where memory is now.
fn join_workers<'l, S: Drop, H: Threads + Wait>(
    rt: &H,
    alloc: Global,
    sender: &QueueSender<S>,
    queue: &'l QueueReceiver<S>,
    mut pass: Pass<Job<S>, PassState>,
    workers: Vec<Worker<'l, S>>,
    given: Option<u64>,
) -> Result<Vec<Note>, AllocError>
    requires same { receives_on queue.now ≡ sends_on sender.now }
    requires pass { IsSeatAt (sends_on sender.now) pass × ((view pass).parts + length workers.items ≡ 65) × (0 < (view pass).parts) × ((view pass).taken ≡ []) }
    requires workers { All (λ w. w.promise.0.now ≡ queue.now) workers.items }
    requires put { IfSome given (λ n. (view pass).put ≡ below n) }
    ensures { IfOk result (λ notes. (n : ℕ) × (given ≡ Some n) × HasEachOnce (numbers_by note_number notes.items) n) }
{
    let Some(_count) = given else {
        return Err(AllocError);
    };
    let mut notes = Vec::new(alloc);
    for worker in workers {
        take_in(sender, &mut pass, &mut notes, worker.join(rt))?;
    }
    if !is_drained(rt, queue, &mut pass) {
        return Err(AllocError);
    }
    Ok(notes)
}
