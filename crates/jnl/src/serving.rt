// A disk is served to programs in any language.
ghost use Rattle.std.specs.Prelude.{◌≡◌, ◌-◌, min, max, IfOk};
ghost use Rattle.jnl.specs.declared.serving.TheConstants.{OWN_FILES};
ghost use Rattle.journal_world.specs.Files.{shape};
ghost use Rattle.journal_commands.specs.Layouts.{asked_shape, told_or, told_of};

use crate::counted_disk::CountedDisk;
use crate::counts::{AnswerCounts, DiskCounts, micros};
use crate::numbering::opening_number;
use crate::working::{Answering, OpenDisk, OpenJournal, fail};
use journal_commands::{
    AskedLayout, Fault, find, make_socket, print_line, remove_socket, settle, told,
};
use journal_connections::{Ending, Entrance, Listener, Load, PoolFault, PoolSize, file_numbers};
use journal_disk::BlockDisk;
use journal_history::{Book, Naming};
use journal_lockmap::SlotCell;
use journal_program::{Daemon, DiskFacts, SizedDisk, share_disk};
use journal_twophase::Journal;
use journal_world::{AnyMap, Layout, Refused};
use std::alloc::Global;
use std::fs::{File, Files};
use std::io::Write;
use std::marker::Brand;
use std::net::{Ipv4Addr, Net, TcpListener, TcpStream};
use std::random::RandomSource;
use std::sync::Wait;
use std::thread::Threads;
use std::time::Clock;
use std::{io, thread};

// How many files are kept for all but connections: the disk, listeners, outputs, what is watched,
// and what a folder or a further connection takes for a moment.
const OWN_FILES: u64 = 24;

// How many workers there are at most: connections that wait for their commits at one time.
const MOST_WORKERS: u64 = 64;

// The most blocks at home of which memory keeps copies: 16 MiB.
const CACHED_BLOCKS: usize = 4096;

/// A service that is asked for.
#[derive(Clone, Copy)]
pub struct Service<'w> {
    /// The path of the file that has the disk.
    pub path: &'w str,
    /// The path of the socket.
    pub socket: &'w str,
    /// The port of this machine, or 0 for one that is free, where there is to be one.
    pub port: Option<u16>,
    /// How many connections are open at once, beside one visitor.
    pub connections: u64,
    /// The layout that is asked for, whatever number of blocks the disk has.
    pub layout: AskedLayout,
    /// Whether the disk is only read.
    pub is_read_only: bool,
}

// A disk, the layout by which it is opened, and the number of this opening.
#[derive(Drop)]
struct LaidOut {
    layout: Layout,
    disk: SizedDisk,
    number: u64,
}

/// Serves the disk in the file until a client ends the service. Prints where it listens before the
/// first connection is accepted, and that it has stopped once all commits are stable and the socket
/// is gone. Where the system lets it open fewer files than connections are asked for, it says to
/// `faults` how many are open at most.
///
/// Where the device fails, what is under way is answered, all else is refused, and the service ends
/// by `DeviceFailed`. All that was answered as stable is there at the next start.
///
/// Where the disk is only read, other services that only read it may have it too, no byte of it
/// is written, and each transaction that writes is refused. Then it may also be a disk of the file
/// service.
///
/// # Errors
/// Nothing listens, and no object is changed, but for the last two.
/// - Another program uses the disk.
/// - Its label is not that of the file, or has other regions.
/// - It is a disk of the file service, whose files would not stay sound.
/// - The layout is not one of its number of blocks.
/// - The system gives no random number for the opening.
/// - Those of the opening of the journal, and of the listeners.
/// - `CannotWrite`: the output fails.
/// - `DeviceFailed`: the device has failed. The service has ended.
pub fn serve<
    'w,
    R: Files<File = File>
        + Net<Listener = TcpListener, Stream = TcpStream>
        + Clock
        + RandomSource
        + Threads
        + Wait
        + Sync,
    O: Write,
    E: Write,
>(
    rt: &R,
    alloc: Global,
    service: Service<'w>,
    output: &mut O,
    faults: &mut E,
) -> Result<(), Fault<'w>> {
    let disk = if service.is_read_only {
        open_shared(rt, alloc, service)?
    } else {
        open_alone(rt, alloc, service)?
    };
    let service = Service {
        connections: allowed(service.connections, faults),
        ..service
    };
    let entrance = open_entrance(rt, alloc, service, output)?;
    let served = serve_disk(rt, alloc, disk, service, entrance, output);
    remove_socket(rt, service.socket);
    served?;
    print_line(output, "stopped", "")
}

// How many connections are open beside a visitor, where as many are asked for: fewer where the
// system lets the program have fewer files open, and then it says so.
fn allowed<E: Write>(asked: u64, faults: &mut E) -> u64 {
    let Some(files) = file_numbers() else {
        return asked;
    };
    let most = most_connections(asked, files);
    if most < asked {
        // The service does not depend on whether this can be printed.
        let _ = writeln!(
            faults,
            "jnl: the system lets it open {files} files, so {most} connections and one visitor are open at most"
        );
    }
    most
}

// As many connections as are asked for and as have a file each beside the program's own, and one at
// least.
fn most_connections(asked: u64, files: u64) -> u64
    ensures { result ≡ min asked (max (files - OWN_FILES) 1) }
{
    files.saturating_sub(OWN_FILES).max(1).min(asked)
}

// Opens the disk to write it.
fn open_alone<'w, R: Files<File = File> + RandomSource>(
    rt: &R,
    alloc: Global,
    service: Service<'w>,
) -> Result<LaidOut, Fault<'w>> {
    let found = find(rt, alloc, service.path)?;
    if found.facts.files.is_some() {
        return Err(Fault::HasFiles { path: service.path });
    }
    let layout = lay_out(&found.facts, service)?;
    let disk = settle(alloc, service.path, found)?;
    number_opening(rt, layout, disk)
}

// Opens the disk to read it alone.
fn open_shared<'w, R: Files<File = File> + RandomSource>(
    rt: &R,
    alloc: Global,
    service: Service<'w>,
) -> Result<LaidOut, Fault<'w>> {
    let path = service.path;
    let shared = match share_disk(rt, alloc, path) {
        Ok(shared) => shared,
        Err(why) => return Err(Fault::unopened(path, why)),
    };
    let layout = lay_out(&shared.facts, service)?;
    number_opening(rt, layout, shared.disk())
}

// Gives this opening of the disk its number.
fn number_opening<'w, R: RandomSource>(
    rt: &R,
    layout: Layout,
    disk: SizedDisk,
) -> Result<LaidOut, Fault<'w>> {
    match opening_number(rt) {
        Ok(number) => Ok(LaidOut {
            layout,
            disk,
            number,
        }),
        Err(_) => Err(Fault::NoRandom),
    }
}

// The layout of a disk: the regions that its label tells, or else those that are asked for, and the
// slots that are asked for. Where there are neither and too many blocks for files, it is refused.
fn lay_out<'w>(facts: &DiskFacts, service: Service<'w>) -> Result<Layout, Fault<'w>>
    ensures { IfOk result (λ layout. shape layout ≡ asked_shape
        (told_or (told_of facts.now.label) service.entry.layout.regions) service.entry.layout.slots facts.now.blocks) }
{
    let path = service.path;
    let asked = match service.layout.with_told(told(facts)) {
        Ok(asked) => asked,
        Err(regions) => return Err(Fault::OtherRegions { path, regions }),
    };
    let blocks = facts.blocks;
    match asked.layout(blocks) {
        Some(layout) => Ok(layout),
        None => Err(Fault::NeedsRegions { path, blocks }),
    }
}

// Opens the port, where one is asked for, and the socket.
fn open_entrance<'w, R: Files + Net<Listener = TcpListener, Stream = TcpStream>, O: Write>(
    rt: &R,
    alloc: Global,
    service: Service<'w>,
    output: &mut O,
) -> Result<Entrance, Fault<'w>> {
    let port = match service.port {
        Some(number) => Some(open_port(rt, number, output)?),
        None => None,
    };
    let path = service.socket;
    let socket = match make_socket(rt, alloc, path) {
        Ok(listener) => Listener::Socket(listener),
        Err(why) => return Err(Fault::File { path, why }),
    };
    match listen_at(rt, alloc, socket, port) {
        Ok(entrance) => Ok(entrance),
        Err(_) => {
            remove_socket(rt, path);
            Err(Fault::CannotListen)
        }
    }
}

// Takes connections from the socket, and from the port if there is one.
fn listen_at<R: Net>(
    rt: &R,
    alloc: Global,
    socket: Listener,
    port: Option<Listener>,
) -> io::Result<Entrance> {
    let mut listeners = Vec::new(alloc);
    listeners.push(socket)?;
    if let Some(port) = port {
        listeners.push(port)?;
    }
    Entrance::new(rt, listeners)
}

// Opens the port, and prints which it is.
fn open_port<'w, R: Net<Listener = TcpListener, Stream = TcpStream>, O: Write>(
    rt: &R,
    number: u16,
    output: &mut O,
) -> Result<Listener, Fault<'w>> {
    let Ok(listener) = TcpListener::bind(rt, (Ipv4Addr::LOCALHOST, number)) else {
        return Err(Fault::CannotListen);
    };
    let Ok(address) = listener.local_addr() else {
        return Err(Fault::CannotListen);
    };
    match writeln!(output, "listening on 127.0.0.1:{}", address.port()) {
        Ok(()) => Ok(Listener::Port(listener)),
        Err(_) => Err(Fault::CannotWrite),
    }
}

// Serves the disk, with a book of its own.
fn serve_disk<'w, R: Clock + Threads + Wait + Sync, O: Write>(
    rt: &R,
    alloc: Global,
    disk: LaidOut,
    service: Service<'w>,
    entrance: Entrance,
    output: &mut O,
) -> Result<(), Fault<'w>> {
    let Ok(book) = Book::<AnyMap>::open::<()>() else {
        return Err(Fault::NoMemory);
    };
    let Ok(cell) = SlotCell::open(alloc) else {
        return Err(Fault::NoMemory);
    };
    serve_book::<Brand, R, O>(rt, alloc, &book, cell, disk, service, entrance, output)
}

// Opens the journal, serves it, and gives the disk up.
fn serve_book<'w, J: Naming + Send + Sync, R: Clock + Threads + Wait + Sync, O: Write>(
    rt: &R,
    alloc: Global,
    book: &Book<AnyMap>,
    cell: SlotCell,
    disk: LaidOut,
    service: Service<'w>,
    entrance: Entrance,
    output: &mut O,
) -> Result<(), Fault<'w>>
    requires book { book.now ≡ J.book }
    requires cell { cell ≡ J.cell }
    requires layout { shape disk.layout ≡ J.layout }
{
    let Ok(counts) = DiskCounts::new(alloc) else {
        return Err(Fault::NoMemory);
    };
    let LaidOut {
        layout,
        disk,
        number,
    } = disk;
    let disk = CountedDisk::over(rt, disk, &counts);
    let opened = Journal::open_layout(alloc, book, cell, layout, disk, &AnyMap, CACHED_BLOCKS);
    let journal: OpenJournal<CountedDisk<SizedDisk, R>, J> = match opened {
        Ok(journal) => journal,
        Err(Refused { refusal, disk }) => {
            let refusal = refusal.with_cause(());
            return Err(Fault::failed_or_refused(service.path, disk.into_inner(), refusal));
        }
    };
    counts.note_opened();
    let open = OpenDisk {
        alloc,
        journal: &journal,
        layout,
        number,
        opened_at: micros(rt),
        counts: &counts,
        may_write: !service.is_read_only,
    };
    let served = serve_beside_daemon(rt, &open, service, entrance, output);
    drop(open);
    let disk = journal.into_disk().disk.into_inner();
    ended(service.path, disk, served)
}

// How a service has ended that gives its disk up: by a failure of the device, where one was.
fn ended<'w>(
    path: &'w str,
    disk: SizedDisk,
    served: Result<(), Fault<'w>>,
) -> Result<(), Fault<'w>> {
    match disk.into_failure() {
        Some(why) => Err(Fault::DeviceFailed { path, why }),
        None => served,
    }
}

// All that the threads of a service share.
struct Serving<'s, 'j, 'b, D: BlockDisk, J: Naming> {
    answering: Answering<'s, 'j, 'b, D, J>,
    ending: Ending<'s>,
    daemon: Daemon,
}

impl<'s, 'j, 'b, D: BlockDisk, J: Naming> Drop for Serving<'s, 'j, 'b, D, J> {
    fn drop(self) {
        let Serving {
            answering: _,
            ending: _,
            daemon: _,
        } = self;
    }
}

// Serves while the daemon runs, and ends it. All commits are stable then.
fn serve_beside_daemon<
    'w,
    'b,
    D: BlockDisk + Send,
    J: Naming + Send + Sync,
    R: Clock + Threads + Wait + Sync,
    O: Write,
>(
    rt: &R,
    disk: &OpenDisk<'_, 'b, D, J>,
    service: Service<'w>,
    entrance: Entrance,
    output: &mut O,
) -> Result<(), Fault<'w>> {
    let size = PoolSize {
        workers: service.connections.min(MOST_WORKERS),
        connections: service.connections,
    };
    let (Ok(load), Ok(answers)) = (
        Load::new(disk.alloc, size),
        AnswerCounts::new(disk.alloc, size.workers),
    ) else {
        return Err(Fault::NoMemory);
    };
    let Ok(ending) = Ending::new(disk.alloc, &load, &entrance) else {
        return Err(Fault::CannotListen);
    };
    let serving = Serving {
        answering: Answering {
            disk,
            answers: &answers,
            load: &load,
        },
        ending,
        daemon: daemon_of(disk.may_write),
    };
    serve_threads(rt, &serving, service, entrance, output)
}

// The daemon of a disk that may be written or not.
fn daemon_of(may_write: bool) -> Daemon {
    if may_write {
        Daemon::new()
    } else {
        Daemon::without_installer()
    }
}

// The same, once all is there that the threads share.
fn serve_threads<
    'w,
    'b,
    D: BlockDisk + Send,
    J: Naming + Send + Sync,
    R: Clock + Threads + Wait + Sync,
    O: Write,
>(
    rt: &R,
    serving: &Serving<'_, '_, 'b, D, J>,
    service: Service<'w>,
    entrance: Entrance,
    output: &mut O,
) -> Result<(), Fault<'w>> {
    thread::scope(thread::scope_env(), rt, |scope| -> Result<(), Fault<'_>> {
        let runs = scope.spawn(|| run_daemon(rt, serving)).is_ok() && serving.daemon.is_running(rt);
        let served = if runs {
            serve_clients(rt, serving, service, entrance, output)
        } else {
            Err(Fault::NoMemory)
        };
        let finished = finish(rt, serving, service.path);
        served?;
        finished
    })
}

// Runs the daemon. It ends by itself only where the device failed, and the service with it.
fn run_daemon<'b, D: BlockDisk + Send, J: Naming + Send + Sync, R: Clock + Threads + Wait + Sync>(
    rt: &R,
    serving: &Serving<'_, '_, 'b, D, J>,
) {
    serving.daemon.run(rt, serving.answering.disk.journal);
    fail(rt, &serving.ending);
}

// Prints that the service listens, and serves what comes in.
fn serve_clients<
    'w,
    'b,
    D: BlockDisk + Send,
    J: Naming + Send + Sync,
    R: Clock + Threads + Wait + Sync,
    O: Write,
>(
    rt: &R,
    serving: &Serving<'_, '_, 'b, D, J>,
    service: Service<'w>,
    entrance: Entrance,
    output: &mut O,
) -> Result<(), Fault<'w>> {
    print_line(output, "listening on ", service.socket)?;
    let answering = &serving.answering;
    match journal_connections::serve(
        rt,
        answering.disk.alloc,
        answering,
        &serving.ending,
        entrance,
    ) {
        Ok(()) => Ok(()),
        Err(PoolFault::NoMemory) => Err(Fault::NoMemory),
        Err(PoolFault::CannotAccept) => Err(Fault::CannotListen),
    }
}

// Ends the service, waits until all commits are stable, and stops the journal.
fn finish<'w, 'b, D: BlockDisk, J: Naming, W: Wait>(
    rt: &W,
    serving: &Serving<'_, '_, 'b, D, J>,
    path: &'w str,
) -> Result<(), Fault<'w>> {
    serving.ending.end();
    let journal = serving.answering.disk.journal;
    let flushed = flush(rt, journal, path);
    journal.stop(rt);
    flushed
}

// Waits until all commits are stable.
fn flush<'w, 'b, D: BlockDisk, J: Naming, W: Wait>(
    rt: &W,
    journal: &OpenJournal<'b, D, J>,
    path: &'w str,
) -> Result<(), Fault<'w>> {
    let mut session = match journal.session(rt) {
        Ok(session) => session,
        Err(why) => return Err(Fault::refused(path, why.with_cause(()))),
    };
    match journal.flush(rt, &mut session) {
        Ok(_) => Ok(()),
        Err(why) => Err(Fault::refused(path, why.with_cause(()))),
    }
}
