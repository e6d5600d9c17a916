// The front ends of a service of files.

use crate::workers::{FourWorkers, serve_by_workers};
use journal_clients::{Plan, ServiceFault, Visits, serve_by_pool};
use journal_disk::BlockDisk;
use journal_filestore::FileStore;
use journal_history::Naming;
use journal_inode::Version;
use journal_nfs3::Verifier;
use journal_server::{FileProtocol, FilesOf, Programs};
use journal_world::Layout;
use std::alloc::Global;
use std::io::Write;
use std::net::{Net, TcpListener, TcpStream};
use std::sync::Wait;
use std::thread::Threads;
use std::time::Clock;

/// A mounted disk: its layout, and what is told with each WRITE and COMMIT.
#[derive(Clone, Copy)]
pub(crate) struct Mount {
    pub layout: Layout,
    pub verifier: Verifier,
}

/// How the files of a mounted disk are served to clients, beside the daemon of its journal.
#[derive(Clone, Copy)]
pub(crate) enum FrontEnd<'c> {
    /// By a pool, until the service is ended.
    Pool(Plan<'c>),
    /// By four workers that answer the nine procedures, until as many connections as are asked for
    /// have come and ended.
    Workers(FourWorkers),
}

impl<'c> FrontEnd<'c> {
    /// True if the service ends where its device fails. The calls under way are answered then. Else
    /// each call is answered by IO from then on.
    pub fn ends_by_device(self) -> bool {
        matches!(self, FrontEnd::Pool(_))
    }
}

/// Serves the files of a mounted disk until the service ends. A pool answers the programs `P`. All
/// commits are stable then, and the journal is stopped.
///
/// # Errors
/// - `CannotListen`: the port is not to be had, or the system refused a connection.
/// - `Refused`: what the service needs, or the last flush.
/// - `CannotWrite`: the output failed.
///
/// The journal is stopped then too.
pub(crate) fn serve_files<
    'b,
    P: Programs + FileProtocol<V> + Sync + Drop,
    D: BlockDisk + Send,
    J: Naming + Send + Sync,
    V: Version + Send + Sync,
    R: Net<Listener = TcpListener, Stream = TcpStream> + Clock + Threads + Wait + Sync,
    O: Write,
>(
    rt: &R,
    alloc: Global,
    front: FrontEnd<'_>,
    files: &FileStore<'b, D, J, V>,
    mount: Mount,
    output: &mut O,
) -> Result<(), ServiceFault> {
    match front {
        FrontEnd::Pool(plan) => {
            let programs = P::on(mount.layout, mount.verifier);
            let protocol = FilesOf {
                files,
                protocol: &programs,
            };
            let visits = Visits::new(alloc, files.journal(), &protocol);
            serve_by_pool(rt, alloc, plan, files.journal(), &visits, output)
        }
        FrontEnd::Workers(workers) => {
            serve_by_workers(rt, alloc, workers, files, mount.verifier, output)
        }
    }
}
