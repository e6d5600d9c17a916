// The root's times. They are the moment of the call: a client keeps its listing, and that a name is
// not there, as long as the root's times stay, so that with times that never change it would not
// see what another client makes or removes.
ghost use Rattle.std.specs.Prelude.{◌≡◌};
ghost use Rattle.journal_inode.specs.declared.version.FormatVersion.{FormatVersion};
ghost use Rattle.journal_nfs3_wire.specs.Profile.{results_of};
ghost use Rattle.journal_mount3.specs.Roots.{attributes_at, changed_at, found_at, accepted_at, results_at};

use journal_filestore::{Attributes, Changed, Found};
use journal_inode::Time;
use journal_nfs3_wire::{NfsError, Results};

// The number of the root directory's inode.
pub(crate) const ROOT: u32 = 1;

// The attributes, with this time as the root's.
pub(crate) fn attributes_at(now: Time, attributes: Attributes) -> Attributes
    ensures { result ≡ attributes_at now attributes }
{
    if attributes.number == ROOT {
        Attributes {
            mtime: now,
            ..attributes
        }
    } else {
        attributes
    }
}

// A change, with this time as the root's before and after it.
fn changed_at(now: Time, changed: Changed) -> Changed
    ensures { result ≡ changed_at now changed }
{
    if changed.after.number == ROOT {
        Changed {
            before: Attributes {
                mtime: now,
                ..changed.before
            },
            after: Attributes {
                mtime: now,
                ..changed.after
            },
        }
    } else {
        changed
    }
}

// The same, with this time as the root's.
fn found_at(now: Time, found: Found) -> Found
    ensures { result ≡ found_at now found }
{
    Found {
        root: attributes_at(now, found.root),
        ..found
    }
}

// Puts this time as the root's into what is told of a file or of the root.
fn set_attributes_outcome(now: Time, outcome: &mut Result<Attributes, NfsError>)
    ensures { outcome.new ≡ accepted_at (attributes_at now) outcome.old }
{
    if let Ok(attributes) = outcome {
        *attributes = attributes_at(now, *attributes);
    }
}

// Puts it into what is told of a change.
fn set_changed_outcome(now: Time, outcome: &mut Result<Changed, NfsError>)
    ensures { outcome.new ≡ accepted_at (changed_at now) outcome.old }
{
    if let Ok(changed) = outcome {
        *changed = changed_at(now, *changed);
    }
}

// Puts it into what is told of a file that was found or made.
fn set_found_outcome(now: Time, outcome: &mut Result<Found, NfsError>)
    ensures { outcome.new ≡ accepted_at (found_at now) outcome.old }
{
    if let Ok(found) = outcome {
        *found = found_at(now, *found);
    }
}

// Puts this time as the root's into the results of one of the nine procedures, wherever they tell
// of it. READ, WRITE and COMMIT tell of files alone: their results stay where they are, uncopied.
pub(crate) fn set_results_at(now: Time, results: &mut Results)
    ensures { (version : FormatVersion) → results_of version results.new ≡ results_at now (results_of version results.old) }
{
    match results {
        Results::GetAttributes(outcome) => set_attributes_outcome(now, outcome),
        Results::SetAttributes(outcome) => set_changed_outcome(now, outcome),
        Results::Lookup(outcome) => set_found_outcome(now, outcome),
        Results::Create(outcome) => set_found_outcome(now, outcome),
        Results::Remove(outcome) => set_attributes_outcome(now, outcome),
        Results::Null | Results::Read(_) | Results::Write { .. } | Results::Commit { .. } => {}
    }
}
