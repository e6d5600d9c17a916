// A pool that serves more clients than it has threads, until the service is ended.
ghost use Rattle.std.specs.Prelude.{◌≡◌, min};
ghost use Rattle.journal_clients.specs.declared.pool.TheConstants.{MOST_WORKERS};

use crate::control::Control;
use crate::ending::flush;
use crate::fault::ServiceFault;
use crate::listening::{listen_at, port_of, tell_port};
use crate::printing::print_line;
use journal_connections::{
    AllowedAddresses, Ending, Entrance, Listener, Load, PoolFault, PoolSize, Service,
};
use journal_disk::BlockDisk;
use journal_history::Naming;
use journal_program::Daemon;
use journal_twophase::Journal;
use journal_world::{MapRule, Refusal};
use std::alloc::Global;
use std::io::Write;
use std::net::{IpAddr, Net, TcpListener, TcpStream};
use std::sync::Wait;
use std::thread;
use std::thread::Threads;
use std::time::Clock;

// How many threads serve connections, where there are as many: calls that wait for their commits at
// one time.
const MOST_WORKERS: u64 = 16;

/// Where a service is reached that serves until it is ended.
#[derive(Clone, Copy)]
pub struct Endpoint<'a> {
    /// The address of this machine to which connections come. A client that reaches it, and whose
    /// own address is allowed, may make each call that the protocol answers.
    pub address: IpAddr,
    /// The port, or 0 for one that is free.
    pub port: u16,
    /// How many connections are open at most, at least one. One more is a visitor, and further
    /// ones wait with the system.
    pub connections: u64,
    /// The addresses of the clients that are served. The connection of another one is closed at
    /// once.
    pub allowed: &'a AllowedAddresses,
}

impl Endpoint<'_> {
    // How many threads serve how many connections.
    fn pool_size(self) -> PoolSize
        ensures { result ≡ record { workers = min self.entry.connections MOST_WORKERS; connections = self.entry.connections } }
    {
        PoolSize {
            workers: self.connections.min(MOST_WORKERS),
            connections: self.connections,
        }
    }
}

/// Whether a service may write its disk.
#[derive(Clone, Copy, Debug, PartialEq, Eq)]
pub enum Access {
    /// It writes it.
    ReadWrite,
    /// It only reads it.
    ReadOnly,
}

impl Access {
    // The daemon beside the service. An installer writes the disk.
    fn daemon(self) -> Daemon {
        match self {
            Access::ReadWrite => Daemon::new(),
            Access::ReadOnly => Daemon::without_installer(),
        }
    }
}

/// Where connections come from, by which control the service is ended, if by any, and whether it
/// may write its disk.
#[derive(Clone, Copy)]
pub struct Plan<'c> {
    /// Where it is reached.
    pub endpoint: Endpoint<'c>,
    /// By what a client ends it. Without one it ends where its device fails.
    pub control: Option<&'c Control>,
    /// Whether it may write its disk. Where it only reads it, the protocol is to commit nothing
    /// that writes.
    pub access: Access,
}

/// Serves a service over a journal, as a protocol by its `Visits`, with the daemon of the journal
/// beside it, until a client asks for the end by the control, if there is one, or until the device
/// fails. The port is printed once the daemon runs and connections are taken, before the first of
/// them is accepted. At the end all commits are stable, and the journal is stopped. Then it is
/// printed how many connections were refused for their addresses, where not all are allowed.
///
/// # Errors
/// - `CannotListen`: the address or the port is not to be had, or the system refused a connection.
/// - `Refused`: what the service needs, or the last flush.
/// - `CannotWrite`: the output failed.
///
/// Once the daemon was begun, the journal is stopped then too.
pub fn serve_by_pool<
    'b,
    S: Service + Sync,
    D: BlockDisk + Send,
    M: MapRule + Send + Sync,
    J: Naming + Send + Sync,
    R: Net<Listener = TcpListener, Stream = TcpStream> + Clock + Threads + Wait + Sync,
    O: Write,
>(
    rt: &R,
    alloc: Global,
    plan: Plan<'_>,
    journal: &Journal<'b, D, M, J>,
    service: &S,
    output: &mut O,
) -> Result<(), ServiceFault> {
    let Ok(load) = Load::new(alloc, plan.endpoint.pool_size()) else {
        return Err(ServiceFault::Refused(Refusal::NoMemory));
    };
    let opened = open(rt, alloc, plan.endpoint)?;
    let Ok(ending) = Ending::new(alloc, &load, &opened.entrance) else {
        return Err(ServiceFault::CannotListen);
    };
    let shared = Shared {
        ending,
        daemon: plan.access.daemon(),
        control: plan.control,
    };
    serve_threads(
        rt,
        &shared,
        || run_daemon(rt, journal, &shared),
        || serve_clients(rt, alloc, service, &shared, opened, output),
        || finish(rt, journal, &shared),
    )?;
    tell_refused(plan.endpoint.allowed, &load, output)
}

// Where connections come in, and the port's number.
#[derive(Drop)]
struct Opened {
    port: u16,
    entrance: Entrance,
}

// The state that the threads of a service share beside its store: what ends it, its daemon, and by
// which control it is ended, if by any.
#[derive(Drop)]
struct Shared<'s> {
    ending: Ending<'s>,
    daemon: Daemon,
    control: Option<&'s Control>,
}

// Opens the port.
fn open<R: Net<Listener = TcpListener, Stream = TcpStream>>(
    rt: &R,
    alloc: Global,
    endpoint: Endpoint<'_>,
) -> Result<Opened, ServiceFault> {
    let listener = listen_at(rt, endpoint.address, endpoint.port)?;
    let port = port_of(&listener)?;
    let Ok(allowed) = endpoint.allowed.clone() else {
        return Err(ServiceFault::Refused(Refusal::NoMemory));
    };
    let mut listeners = Vec::new(alloc);
    if listeners.push(Listener::Port(listener)).is_err() {
        return Err(ServiceFault::Refused(Refusal::NoMemory));
    }
    match Entrance::new(rt, listeners) {
        Ok(entrance) => Ok(Opened {
            port,
            entrance: entrance.only_from(allowed),
        }),
        Err(_) => Err(ServiceFault::CannotListen),
    }
}

// Serves while the daemon runs, and ends it. All commits are stable then.
//
// It knows neither the disk nor what is served, so that little has to be proved of what it sends to
// a thread: the daemon, the clients and the end come as closures.
fn serve_threads<
    F: FnOnce() + Send,
    G: FnOnce() -> Result<(), ServiceFault>,
    H: FnOnce() -> Result<(), ServiceFault>,
    R: Clock + Threads + Wait + Sync,
>(rt: &R, shared: &Shared<'_>, daemon: F, clients: G, finish: H) -> Result<(), ServiceFault>
    requires daemon { F.IsAlwaysCallable daemon }
    requires clients { G.IsAlwaysCallable clients }
    requires finish { H.IsAlwaysCallable finish }
{
    thread::scope(
        thread::scope_env(),
        rt,
        |scope| -> Result<(), ServiceFault> {
            let runs = scope.spawn(|| daemon()).is_ok()
                && shared.daemon.is_running(rt)
                && (shared.control.is_none() || scope.spawn(|| await_stop(rt, shared)).is_ok());
            let served = if runs {
                clients()
            } else {
                Err(ServiceFault::Refused(Refusal::NoMemory))
            };
            let finished = finish();
            served?;
            finished
        },
    )
}

// Runs the daemon. It ends by itself only where the device failed, and the service with it.
fn run_daemon<
    'b,
    D: BlockDisk + Send,
    M: MapRule + Send + Sync,
    J: Naming + Send + Sync,
    R: Clock + Threads + Wait + Sync,
>(rt: &R, journal: &Journal<'b, D, M, J>, shared: &Shared<'_>) {
    shared.daemon.run(rt, journal);
    shared.ending.end();
}

// Waits until a client asks for the end by the control, if there is one, and ends the service.
fn await_stop<R: Clock + Wait>(rt: &R, shared: &Shared<'_>) {
    if let Some(control) = shared.control {
        control.await_stop(rt);
        shared.ending.end();
    }
}

// Ends what the other threads wait for, once all commits are stable.
fn finish<'b, D: BlockDisk, M: MapRule, J: Naming, W: Wait>(
    rt: &W,
    journal: &Journal<'b, D, M, J>,
    shared: &Shared<'_>,
) -> Result<(), ServiceFault> {
    if let Some(control) = shared.control {
        control.close();
    }
    let flushed = flush(rt, journal);
    journal.stop(rt);
    flushed
}

// Prints the port, and serves what comes in.
fn serve_clients<S: Service + Sync, R: Clock + Threads + Wait + Sync, O: Write>(
    rt: &R,
    alloc: Global,
    service: &S,
    shared: &Shared<'_>,
    opened: Opened,
    output: &mut O,
) -> Result<(), ServiceFault> {
    let Opened { port, entrance } = opened;
    tell_port(port, output)?;
    match journal_connections::serve(rt, alloc, service, &shared.ending, entrance) {
        Ok(()) => Ok(()),
        Err(PoolFault::NoMemory) => Err(ServiceFault::Refused(Refusal::NoMemory)),
        Err(PoolFault::CannotAccept) => Err(ServiceFault::CannotListen),
    }
}

// Prints how many connections were refused for their addresses, where not all are allowed.
fn tell_refused<O: Write>(
    allowed: &AllowedAddresses,
    load: &Load,
    output: &mut O,
) -> Result<(), ServiceFault> {
    match allowed {
        AllowedAddresses::All => Ok(()),
        AllowedAddresses::Of(_) => print_line(output, "refused", load.counts.refused.value()),
    }
}
