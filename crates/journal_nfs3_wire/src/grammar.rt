// These functions are called for their contracts: the results are in the grammar.
ghost use Rattle.std.specs.Prelude.{◌≡◌, ◌<◌, ◌^◌, length, None};
ghost use Rattle.journal_nfs3_wire.specs.Results.{given_handle, fattr, before, change, GetAttributes, SetAttributes, Lookup, Read, Write, Create, Remove, Commit, IsResult};
ghost use Rattle.journal_nfs3_wire.specs.Profile.{fattr_of, before_of, change_of, unchanged_of, no_change, found_handle, lookup_of, read_results_of, write_of, create_of, commit_of, outcome_of, results_of};

use crate::arguments::StableHow;
use crate::results::{FormatResults, NfsError, Results, Verifier};
use journal_file_types::{Attributes, Changed, Found, Portion};
use journal_inode::FormatVersion;

impl FormatResults {
    /// The results are in the grammar of their procedure's, and short.
    #[tactic(auto, using(crate::proofs::ResultFacts::null_result))]
    pub fn prove_grammar(&self)
        ensures { IsResult (results_of self.now.version self.now.results) }
    {
        let version = self.version;
        match &self.results {
            Results::Null => {}
            Results::GetAttributes(outcome) => prove_get_attributes(version, outcome),
            Results::SetAttributes(outcome) => prove_set_attributes(version, outcome),
            Results::Lookup(outcome) => prove_lookup(version, outcome),
            Results::Read(outcome) => prove_read(version, outcome),
            Results::Write {
                outcome,
                count,
                how,
                verifier,
            } => prove_write(version, outcome, *count, *how, verifier),
            Results::Create(outcome) => prove_create(version, outcome),
            Results::Remove(outcome) => prove_remove(version, outcome),
            Results::Commit { outcome, verifier } => prove_commit(version, outcome, verifier),
        }
    }
}

#[tactic(auto, using(crate::proofs::ResultFacts::get_attributes_ok))]
fn prove_get_attributes(version: FormatVersion, outcome: &Result<Attributes, NfsError>)
    ensures { IsResult (GetAttributes (outcome_of (fattr_of version) tt outcome.now)) }
{
    match outcome {
        Ok(attributes) => {
            prove_attributes(version, attributes);
        }
        Err(_) => {}
    }
}

#[tactic(auto, using(crate::proofs::ResultFacts::set_attributes_ok))]
fn prove_set_attributes(version: FormatVersion, outcome: &Result<Changed, NfsError>)
    ensures { IsResult (SetAttributes (outcome_of (change_of version) no_change outcome.now)) }
{
    match outcome {
        Ok(changed) => {
            prove_change(version, changed);
        }
        Err(_) => {}
    }
}

#[tactic(auto, using(crate::proofs::ResultFacts::lookup_ok))]
fn prove_lookup(version: FormatVersion, outcome: &Result<Found, NfsError>)
    ensures { IsResult (Lookup (outcome_of (lookup_of version) None outcome.now)) }
{
    match outcome {
        Ok(found) => {
            prove_found(version, found);
        }
        Err(_) => {}
    }
}

#[tactic(auto, using(crate::proofs::ResultFacts::read_ok))]
fn prove_read(version: FormatVersion, outcome: &Result<Portion, NfsError>)
    ensures { IsResult (Read (outcome_of (read_results_of version) None outcome.now)) }
{
    match outcome {
        Ok(portion) => {
            prove_attributes(version, &portion.file());
            let _ = portion.bytes();
        }
        Err(_) => {}
    }
}

fn prove_write(
    version: FormatVersion,
    outcome: &Result<Changed, NfsError>,
    count: u32,
    how: StableHow,
    verifier: &Verifier,
)
    ensures { IsResult (Write (outcome_of (write_of version count how verifier.now.0) no_change outcome.now)) }
{
    match outcome {
        Ok(changed) => {
            prove_change(version, changed);
            prove_verifier(verifier);
        }
        Err(_) => {}
    }
}

#[tactic(auto, using(crate::proofs::ResultFacts::create_ok))]
fn prove_create(version: FormatVersion, outcome: &Result<Found, NfsError>)
    ensures { IsResult (Create (outcome_of (create_of version) no_change outcome.now)) }
{
    match outcome {
        Ok(found) => {
            prove_found(version, found);
        }
        Err(_) => {}
    }
}

#[tactic(auto, using(crate::proofs::ResultFacts::remove_ok))]
fn prove_remove(version: FormatVersion, outcome: &Result<Attributes, NfsError>)
    ensures { IsResult (Remove (outcome_of (unchanged_of version) no_change outcome.now)) }
{
    match outcome {
        Ok(root) => {
            prove_unchanged(version, root);
        }
        Err(_) => {}
    }
}

fn prove_commit(version: FormatVersion, outcome: &Result<Attributes, NfsError>, verifier: &Verifier)
    ensures { IsResult (Commit (outcome_of (commit_of version verifier.now.0) no_change outcome.now)) }
{
    match outcome {
        Ok(attributes) => {
            prove_unchanged(version, attributes);
            prove_verifier(verifier);
        }
        Err(_) => {}
    }
}

fn prove_word(number: u32)
    ensures { number < 2 ^ 32 }
{}

fn prove_hyper(number: u64)
    ensures { number < 2 ^ 64 }
{}

fn prove_verifier(verifier: &Verifier)
    ensures { length verifier.now.0 ≡ 8 }
{
    let bytes: &[u8] = &verifier.0;
    let _ = bytes.len();
}

#[tactic(auto, using(crate::proofs::Fitting::fattr_has, crate::proofs::Fitting::before_has))]
fn prove_attributes(version: FormatVersion, attributes: &Attributes)
    ensures fattr { fattr.Has (fattr_of version attributes.now) }
    ensures before { before.Has (before_of attributes.now) }
{
    prove_word(attributes.number);
    prove_hyper(attributes.size);
    prove_word(attributes.mtime.secs);
    prove_word(attributes.mtime.nanos);
}

#[tactic(auto, using(crate::proofs::Fitting::change_has))]
fn prove_change(version: FormatVersion, changed: &Changed)
    ensures { change.Has (change_of version changed.now) }
{
    prove_attributes(version, &changed.before);
    prove_attributes(version, &changed.after);
}

#[tactic(auto, using(crate::proofs::Fitting::handle_has, crate::proofs::Fitting::change_has))]
fn prove_found(version: FormatVersion, found: &Found)
    ensures handle { given_handle.Has (found_handle found.now) }
    ensures file { fattr.Has (fattr_of version found.now.file) }
    ensures root { fattr.Has (fattr_of version found.now.root) }
    ensures unchanged { change.Has (unchanged_of version found.now.root) }
{
    prove_word(found.file.number);
    prove_word(found.generation);
    prove_attributes(version, &found.file);
    prove_attributes(version, &found.root);
}

#[tactic(auto, using(crate::proofs::Fitting::change_has))]
fn prove_unchanged(version: FormatVersion, attributes: &Attributes)
    ensures { change.Has (unchanged_of version attributes.now) }
{
    prove_attributes(version, attributes);
}
