// A file that remembers why a call of it failed.
ghost use Rattle.std.specs.Prelude.{◌≡◌, IsSome, OnErr};

use journal_block::Block;
use journal_disk::{BlockFile, System};
use std::fs::File;
use std::io;

/// A file of the system, and why the first of its calls failed that did.
#[derive(Drop)]
pub struct NotedFile {
    file: System<File>,
    why: Option<io::Error>,
}

impl NotedFile {
    /// The file, of which no call has failed.
    pub fn new(file: File) -> NotedFile {
        NotedFile {
            file: System { file },
            why: None,
        }
    }

    /// Why the first call failed that did. The file is closed.
    pub fn into_failure(self) -> Option<io::Error>
        ensures { result ≡ self.why }
    {
        let NotedFile { file: _, why } = self;
        why
    }

    // Remembers why a call failed, unless one failed before.
    fn note(&mut self, done: io::Result<()>) -> io::Result<()>
        ensures same { result ≡ done }
        ensures first { IsSome self.old.why → self.new.why ≡ self.old.why }
        ensures noted { OnErr done (IsSome self.new.why) }
    {
        if let Err(why) = done {
            if self.why.is_none() {
                self.why = Some(why);
            }
            return Err(why);
        }
        done
    }
}

impl BlockFile for NotedFile {
    ghost use Rattle.journal_disk.specs.FileDisks.{untold, untold_keeps_nothing};

    ghost told = { λ _. untold };

    ghost leaves = { λ _ _. Unit {0} };

    ghost crash = { λ _ image keeps left. untold_keeps_nothing image keeps left };

    fn end(&mut self) -> io::Result<u64> {
        self.file.end()
    }

    fn read_block(&mut self, into: &mut Block, offset: u64) -> io::Result<()> {
        let read = self.file.read_block(into, offset);
        self.note(read)
    }

    fn write_block(&mut self, from: &Block, offset: u64) -> io::Result<()> {
        let written = self.file.write_block(from, offset);
        self.note(written)
    }

    fn sync(&mut self) -> io::Result<()> {
        let synced = self.file.sync();
        self.note(synced)
    }
}
