// How a journal ends, and what it leaves of its disk.
ghost use Rattle.std.specs.Prelude.{◌≡◌};
ghost use Rattle.journal_script.specs.Endings.{told_of, Leaves};

use crate::answer::Answer;
use crate::script::Next;
use journal_disk::MemDisk;

/// The effect of a crash on a disk.
#[derive(Clone, Copy)]
pub enum Ending {
    /// The machine loses its memory, and the disk is down.
    Down,
    /// The same, and the disk is opened again.
    Opens,
    /// A barrier fails, and the machine keeps its memory: writes are lost.
    Loses,
}

/// A crash that a line asks for: of the machine, or of the program once a barrier failed.
#[derive(Drop)]
pub struct Crash {
    /// The numbers that choose the image: the one that a crash leaves of the disk, or the one that
    /// the device has where writes are lost.
    pub numbers: Vec<u32>,
    /// Its effect on the disk.
    pub ending: Ending,
}

impl Crash {
    /// The answer to the line that named it. `None` where the disk is opened: the outcome of that
    /// answers the line.
    pub fn answer(&self) -> Option<Answer>
        ensures { result ≡ told_of self.now.ending }
    {
        match self.ending {
            Ending::Opens => None,
            Ending::Down | Ending::Loses => Some(Answer::Done),
        }
    }

    /// The disk after it.
    pub fn leave(self, disk: MemDisk) -> Next
        ensures { Leaves self disk result }
    {
        let Crash { numbers, ending } = self;
        match ending {
            Ending::Down => Next::Down(disk.crash(&numbers)),
            Ending::Opens => Next::Open(disk.crash(&numbers)),
            Ending::Loses => Next::Lost(disk.lose_writes(&numbers)),
        }
    }
}
