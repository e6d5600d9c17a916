// The rule that the disk is opened under.

use journal_inode::{SoundFiles, VersionOne, VersionTwo};
use journal_world::{MapRule, ObjectReader, Refusal};
use std::alloc::Global;

/// The rule of a migration: the files are sound in version 1 or in version 2.
#[derive(Drop)]
pub struct EitherVersion {
    one: SoundFiles<VersionOne>,
    two: SoundFiles<VersionTwo>,
}

impl EitherVersion {
    /// The rule, with the allocator that `admit` takes memory from.
    pub fn new(alloc: Global) -> EitherVersion {
        EitherVersion {
            one: SoundFiles::new(alloc),
            two: SoundFiles::new(alloc),
        }
    }
}

impl MapRule for EitherVersion {
    ghost use Rattle.journal_migrate.specs.Either.{HasEitherFiles, Either-same};

    ghost statement = { HasEitherFiles };

    ghost respects = { Either-same };

    fn admit<O: ObjectReader>(&self, reader: &mut O) -> Result<bool, Refusal<O::Cause>> {
        if self.one.admit(reader)? {
            return Ok(true);
        }
        self.two.admit(reader)
    }
}
