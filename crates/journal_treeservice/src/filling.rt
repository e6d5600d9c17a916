// Files are written to a tree.
ghost use Rattle.std.specs.Prelude.{◌≡◌};
ghost use Rattle.journal_treestore.specs.Places.{shape_of, IsCut};
ghost use Rattle.journal_treeobjects.specs.Maps.{IsWhole};

use crate::cutting::TreeCut;
use crate::hints::StoreHints;
use crate::making::{SUPERUSER, time_at};
use crate::mounting::{close, mount, slot_cell};
use crate::root::{ROOT_HANDLE, call_by_root};
use journal_clients::{Explained, ServiceFault, begin_session, ended, flush};
use journal_history::{Book, Naming, Session};
use journal_lockmap::SlotCell;
use journal_program::{Daemon, Settled, SizedDisk};
use journal_tree::{BLOCK_BYTES, Handle, NewTime, Settings, Status};
use journal_treecalls::{Spare, WriteData};
use journal_treefs::TreeStore;
use journal_treeobjects::{CreateGuarded, SetAttr, TreeOperation, Write};
use journal_treerule::SoundTree;
use journal_treeserver::{Drawn, FreeHints, Taken};
use journal_treestore::Cut;
use journal_world::{Moment, Refusal};
use std::alloc::Global;
use std::marker::Brand;
use std::sync::Wait;
use std::thread;
use std::thread::Threads;
use std::time::Clock;

/// The rights of a new file: its owner reads and writes it, and others read it.
pub(crate) const FILE_MODE: u16 = 0o644;

// How many numbers are drawn for a new file, and how many blocks for a further one of the root.
const NUMBERS: usize = 2;

const DIRECTORY_BLOCKS: usize = 2;

// The blocks in which the bytes of a WRITE lie, at most.
const WRITE_BLOCKS: usize = 17;

/// A file that a tree is to have in its root directory.
#[derive(Clone, Copy)]
pub struct NewFile<'a> {
    /// Its name.
    pub name: &'a [u8],
    /// When its bytes last changed.
    pub mtime: Moment,
    /// All its bytes, at most 65536.
    pub bytes: &'a [u8],
}

/// The answer of calls on a tree: a success, or the case that is none.
pub type Answer<A> = Result<A, Status>;

// A tree that is written to, with what may be free on its disk, and the session of the calls.
struct Filling<'h, 'f, 'b, J: Naming, R: Clock> {
    store: &'f TreeStore<'b, SizedDisk, SoundTree, J>,
    hints: &'h StoreHints<'f, 'b, SizedDisk, SoundTree, J, R>,
    session: Session<'b, J, SoundTree>,
}

impl<'h, 'f, 'b, J: Naming, R: Clock> Drop for Filling<'h, 'f, 'b, J, R> {
    fn drop(self) {
        let Filling {
            store: _,
            hints: _,
            session: _,
        } = self;
    }
}

/// Writes files into the root directory of the tree of a disk that is cut so, and gives the disk
/// up. Each belongs to root and has the mode 644. All of them are stable then, and the disk is
/// unlocked.
///
/// The answer is the status of the first call that the tree refuses: `NoSpace` where it has too few
/// blocks or numbers, `Exists` where a name is there. The tree has some of the files then, and the
/// last one may lack its bytes and its time.
///
/// # Errors
/// The tree is sound, and may have some of the files.
/// - Those of `export`, but for those of its port and its output.
pub fn fill<R: Clock + Threads + Wait + Sync>(
    rt: &R,
    alloc: Global,
    disk: Settled,
    cut: TreeCut,
    files: &[NewFile<'_>],
) -> Result<Answer<()>, ServiceFault> {
    let book: Book<SoundTree> = Book::open::<()>().unwrap();
    let cell = slot_cell(alloc)?;
    fill_mounted::<Brand, R>(rt, alloc, &book, cell, cut.cut, disk.disk(), files)
}

// Mounts the disk, writes the files, and gives it up. Of two faults the first is answered.
fn fill_mounted<J: Naming + Send + Sync, R: Clock + Threads + Wait + Sync>(
    rt: &R,
    alloc: Global,
    book: &Book<SoundTree>,
    cell: SlotCell,
    cut: Cut,
    disk: SizedDisk,
    files: &[NewFile<'_>],
) -> Result<Answer<()>, ServiceFault>
    requires book { book.now ≡ J.book }
    requires cell { cell ≡ J.cell }
    requires cut { IsCut cut }
    requires whole { IsWhole cut }
    requires layout { J.layout ≡ shape_of cut }
{
    let store: TreeStore<SizedDisk, SoundTree, J> = mount(alloc, book, cell, cut, disk)?;
    let filled = fill_beside_daemon(rt, alloc, &store, cut, files);
    let closed = close(rt, store);
    let (served, answer) = match filled {
        Ok(answer) => (Ok(()), answer),
        Err(why) => (Err(why), Ok(())),
    };
    match Settled::by_barrier(ended(served, closed, true)?) {
        Ok(_) => Ok(answer),
        Err(disk) => Err(ServiceFault::Refused(Refusal::DeviceFailed(())).or_of_device(disk)),
    }
}

// Writes the files while the daemon runs, and ends it. All commits are stable then.
fn fill_beside_daemon<'b, J: Naming + Send + Sync, R: Clock + Threads + Wait + Sync>(
    rt: &R,
    alloc: Global,
    store: &TreeStore<'b, SizedDisk, SoundTree, J>,
    cut: Cut,
    files: &[NewFile<'_>],
) -> Result<Answer<()>, ServiceFault>
    requires { IsCut cut }
{
    let daemon = Daemon::new();
    thread::scope(
        thread::scope_env(),
        rt,
        |scope| -> Result<Answer<()>, ServiceFault>
            requires { IsCut cut }
        {
            let runs = scope.spawn(|| daemon.run(rt, store.journal())).is_ok()
                && daemon.is_running(rt);
            let filled = if runs {
                write_files(rt, alloc, store, cut, files)
            } else {
                Err(ServiceFault::Refused(Refusal::NoMemory))
            };
            let flushed = flush(rt, store.journal());
            store.journal().stop(rt);
            let answer = filled?;
            flushed?;
            Ok(answer)
        },
    )
}

// Writes the files.
fn write_files<'b, J: Naming, R: Clock + Wait>(
    rt: &R,
    alloc: Global,
    store: &TreeStore<'b, SizedDisk, SoundTree, J>,
    cut: Cut,
    files: &[NewFile<'_>],
) -> Result<Answer<()>, ServiceFault>
    requires { IsCut cut }
{
    let hints = StoreHints::new(rt, alloc, store.journal(), cut, rt)?;
    let mut filling = Filling {
        store,
        hints: &hints,
        session: begin_session(rt, store.journal())?,
    };
    for file in files.iter() {
        if let Err(status) = filling.write_file(rt, alloc, file)? {
            return Ok(Err(status));
        }
    }
    Ok(Ok(()))
}

impl<'h, 'f, 'b, J: Naming, R: Clock> Filling<'h, 'f, 'b, J, R> {
    // Makes a file, gives it its bytes, and then its time, which the bytes had changed.
    fn write_file<W: Clock + Wait>(
        &mut self,
        rt: &W,
        alloc: Global,
        file: &NewFile<'_>,
    ) -> Result<Answer<()>, ServiceFault> {
        let handle = match self.make_file(rt, alloc, file.name)? {
            Ok(handle) => handle,
            Err(status) => return Ok(Err(status)),
        };
        if let Err(status) = self.write_bytes(rt, alloc, handle, file.bytes)? {
            return Ok(Err(status));
        }
        self.set_time(rt, handle, file.mtime)
    }

    // Makes a file without bytes in the root directory.
    fn make_file<W: Clock + Wait>(
        &mut self,
        rt: &W,
        alloc: Global,
        name: &[u8],
    ) -> Result<Answer<Handle>, ServiceFault> {
        let drawn = self.draw(rt, alloc, NUMBERS, DIRECTORY_BLOCKS)?;
        let operation = create_of(name, &drawn);
        let answer = self.call(rt, &operation)?;
        let made = match answer {
            Ok(made) => made,
            Err(status) => return Ok(Err(status)),
        };
        let taken = Taken {
            number: Some(made.node.number),
            blocks: 0,
        };
        self.hints.put_back(rt, drawn, taken);
        Ok(Ok(Handle {
            number: made.node.number,
            generation: made.generation,
        }))
    }

    // Gives a file that has none these bytes.
    fn write_bytes<W: Clock + Wait>(
        &mut self,
        rt: &W,
        alloc: Global,
        handle: Handle,
        bytes: &[u8],
    ) -> Result<Answer<()>, ServiceFault> {
        let Ok(count) = u32::try_from(bytes.len()) else {
            return Ok(Err(Status::TooBig));
        };
        let drawn = self.draw(rt, alloc, 0, WRITE_BLOCKS)?;
        let operation = Write {
            handle,
            bytes: WriteData {
                offset: 0,
                count,
                bytes,
            },
            blocks: &drawn.blocks,
        };
        if let Err(status) = self.call(rt, &operation)? {
            return Ok(Err(status));
        }
        let taken = Taken {
            number: None,
            blocks: u64::from(count).div_ceil(BLOCK_BYTES),
        };
        self.hints.put_back(rt, drawn, taken);
        Ok(Ok(()))
    }

    // Gives a file its time.
    fn set_time<W: Clock + Wait>(
        &mut self,
        rt: &W,
        handle: Handle,
        mtime: Moment,
    ) -> Result<Answer<()>, ServiceFault> {
        let operation = SetAttr {
            handle,
            settings: Settings {
                mode: None,
                owner: None,
                group: None,
                size: None,
                mtime: NewTime::Client(time_at(mtime)),
            },
            guard: None,
        };
        match self.call(rt, &operation)? {
            Ok(_) => Ok(Ok(())),
            Err(status) => Ok(Err(status)),
        }
    }

    // Numbers and blocks that may be free.
    fn draw<W: Wait>(
        &self,
        rt: &W,
        alloc: Global,
        numbers: usize,
        blocks: usize,
    ) -> Result<Drawn, ServiceFault> {
        match self.hints.draw(rt, alloc, numbers, blocks) {
            Ok(drawn) => Ok(drawn),
            Err(_) => Err(ServiceFault::Refused(Refusal::NoMemory)),
        }
    }

    // Does a call of root, and does not wait until it is stable.
    fn call<O: TreeOperation, W: Clock + Wait>(
        &mut self,
        rt: &W,
        operation: &O,
    ) -> Result<O::Reply, ServiceFault> {
        call_by_root(rt, self.store, &mut self.session, operation)
    }
}

// CREATE of a new file of root, without bytes, in the root directory.
fn create_of<'n>(name: &'n [u8], drawn: &'n Drawn) -> CreateGuarded<'n> {
    let settings = Settings {
        mode: Some(u32::from(FILE_MODE)),
        owner: Some(SUPERUSER),
        group: Some(SUPERUSER),
        size: None,
        mtime: NewTime::Leave,
    };
    let spare = Spare {
        numbers: &drawn.numbers,
        blocks: &drawn.blocks,
    };
    CreateGuarded {
        directory: ROOT_HANDLE,
        name,
        settings,
        spare,
    }
}
