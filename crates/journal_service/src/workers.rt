// Four workers that serve as many connections as are asked for.

use journal_clients::{ServiceFault, WallClock, flush, listen_at, port_of, tell_port};
use journal_disk::BlockDisk;
use journal_filestore::FileStore;
use journal_gate::OpenGate;
use journal_history::Naming;
use journal_inode::Version;
use journal_nfs3::Verifier;
use journal_program::Daemon;
use journal_server::{Listening, WaitingConnections, run_workers};
use journal_world::Refusal;
use std::alloc::Global;
use std::io::Write;
use std::net::{IpAddr, Ipv4Addr, Net, TcpListener, TcpStream};
use std::sync::Wait;
use std::thread;
use std::thread::Threads;
use std::time::Clock;

/// Serves connections of this machine by the nine procedures, until as many as are asked for have
/// come and ended.
#[derive(Clone, Copy)]
pub(crate) struct FourWorkers {
    /// The port, or 0 for one that is free.
    pub port: u16,
    /// How many connections are served.
    pub connections: u64,
}

/// Serves files while the daemon runs, and ends it. The daemon ends by itself only where the device
/// has failed.
///
/// # Errors
/// Those of `serve_files`.
pub(crate) fn serve_by_workers<
    'b,
    D: BlockDisk + Send,
    J: Naming + Send + Sync,
    V: Version + Send + Sync,
    R: Net<Listener = TcpListener, Stream = TcpStream> + Clock + Threads + Wait + Sync,
    O: Write,
>(
    rt: &R,
    alloc: Global,
    workers: FourWorkers,
    files: &FileStore<'b, D, J, V>,
    verifier: Verifier,
    output: &mut O,
) -> Result<(), ServiceFault> {
    let daemon = Daemon::new();
    thread::scope(
        thread::scope_env(),
        rt,
        |scope| -> Result<(), ServiceFault> {
            let runs = scope.spawn(|| daemon.run(rt, files.journal())).is_ok()
                && daemon.is_running(rt);
            let served = if runs {
                serve_connections(rt, alloc, workers, files, verifier, output)
            } else {
                Err(ServiceFault::Refused(Refusal::NoMemory))
            };
            let flushed = flush(rt, files.journal());
            files.journal().stop(rt);
            served?;
            flushed
        },
    )
}

// Serves the connections that come to the port.
fn serve_connections<
    'b,
    D: BlockDisk + Send,
    J: Naming + Send + Sync,
    V: Version + Send + Sync,
    R: Net<Listener = TcpListener, Stream = TcpStream> + Clock + Threads + Wait + Sync,
    O: Write,
>(
    rt: &R,
    alloc: Global,
    workers: FourWorkers,
    files: &FileStore<'b, D, J, V>,
    verifier: Verifier,
    output: &mut O,
) -> Result<(), ServiceFault> {
    let listener = listen_at(rt, IpAddr::V4(Ipv4Addr::LOCALHOST), workers.port)?;
    tell_port(port_of(&listener)?, output)?;
    let waiting = WaitingConnections::new();
    let source = Listening::new(rt, listener, workers.connections, &waiting);
    let clock = WallClock(rt);
    let (outcomes, source) = run_workers(rt, alloc, source, files, &clock, verifier, &OpenGate);
    if source.has_failed() {
        return Err(ServiceFault::CannotListen);
    }
    match outcomes {
        Ok(_) => Ok(()),
        Err(why) => Err(ServiceFault::refused(why)),
    }
}
