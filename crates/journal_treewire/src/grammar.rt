// These functions are called for their contracts: the results are in the grammar.
ghost use Rattle.std.specs.Prelude.{◌≡◌, ◌<◌, ◌^◌, length, None};
ghost use Rattle.std.specs.List.{All};
ghost use Rattle.journal_nfs3_wire.specs.Profile.{no_change, outcome_of};
ghost use Rattle.journal_nfs3_wire.specs.QueryResults.{entry, access_results, page_results, status_results, information_results, configuration_results};
ghost use Rattle.journal_nfs3_wire.specs.Results.{outcome, nothing, fattr, before, post_op_attributes, change, read_results, write_results, commit_results};
ghost use Rattle.journal_treewire.specs.CodeViews.{results_of, access_seen, link_seen, read_seen, line_seen, line_plus_seen, list_seen, list_plus_seen, information_seen, configuration_seen};
ghost use Rattle.journal_treewire.specs.Profile.{fattr_of, before_of, change_of, handle_of, found_of, write_of, made_of, renamed_of, no_changes, status_of, commit_of};
ghost use Rattle.journal_treewire.specs.Results.{given_handle, found_results, link_results, made_results, two_changes, entry_plus, AreInGrammar};

use crate::length::prove_verifier;
use crate::parts::{FilePart, Lines, ShortText};
use crate::results::{DiskResults, TreeResults};
use journal_nfs3_wire::{NfsError, StableHow, Verifier};
use journal_tree::{Changed, Found, Made, Renamed, Space, Time, Told};
use journal_treecalls::{AccessReply, FactsReply, Line, NameFactsReply};

impl DiskResults {
    /// Each of the results is a value of its procedure's grammar (RFC 1813, section 3.3). The call
    /// is for its contract.
    pub fn prove_grammar(&self)
        ensures { AreInGrammar (results_of self.now.disk self.now.results) }
    {
        let disk = self.disk;
        match &self.results {
            TreeResults::Null => {}
            TreeResults::Attributes(answer) => prove_attributes(disk, answer),
            TreeResults::Changed(answer) => prove_changed(disk, answer),
            TreeResults::Found(answer) => prove_found(disk, answer),
            TreeResults::Access(answer) => prove_access(disk, answer),
            TreeResults::LinkText(answer) => prove_link_text(disk, answer),
            TreeResults::Read(answer) => prove_read(disk, answer),
            TreeResults::Write {
                outcome,
                count,
                how,
                verifier,
            } => prove_write(disk, outcome, *count, *how, verifier),
            TreeResults::Made(answer) => prove_made(disk, answer),
            TreeResults::Renamed(answer) => prove_renamed(disk, answer),
            TreeResults::NotLinked(_) => {}
            TreeResults::Directory(answer) => prove_list(disk, answer),
            TreeResults::DirectoryPlus(answer) => prove_list_plus(disk, answer),
            TreeResults::FileSystemStatus(answer) => prove_space(disk, answer),
            TreeResults::FileSystemInformation(answer) => prove_information(disk, answer),
            TreeResults::PathConfiguration(answer) => prove_configuration(disk, answer),
            TreeResults::Commit { outcome, verifier } => prove_commit(disk, outcome, verifier),
        }
    }
}

#[tactic(auto, using(crate::proofs::Fitting::attributes_ok, crate::proofs::Fitting::attributes_err))]
fn prove_attributes(disk: u64, answer: &Result<Told, NfsError>)
    ensures { (outcome fattr nothing).Has (outcome_of (fattr_of disk) tt answer.now) }
{
    match answer {
        Ok(told) => {
            prove_told(disk, told);
        }
        Err(_) => {}
    }
}

#[tactic(auto, using(crate::proofs::Fitting::changed_ok))]
fn prove_changed(disk: u64, answer: &Result<Changed, NfsError>)
    ensures { (outcome change change).Has (outcome_of (change_of disk) no_change answer.now) }
{
    match answer {
        Ok(changed) => {
            prove_change(disk, changed);
        }
        Err(_) => {}
    }
}

#[tactic(auto, using(crate::proofs::Fitting::found_ok))]
fn prove_found(disk: u64, answer: &Result<Found, NfsError>)
    ensures { (outcome found_results post_op_attributes).Has (outcome_of (found_of disk) None answer.now) }
{
    match answer {
        Ok(found) => {
            prove_handle(disk, found.node.number, found.generation);
            prove_told(disk, &found.node);
            prove_told(disk, &found.directory);
        }
        Err(_) => {}
    }
}

#[tactic(auto, using(crate::proofs::Fitting::access_ok))]
fn prove_access(disk: u64, answer: &Result<AccessReply, NfsError>)
    ensures { (outcome access_results post_op_attributes).Has (outcome_of (access_seen disk) None answer.now) }
{
    match answer {
        Ok(access) => {
            prove_told(disk, &access.node);
            prove_word(access.rights);
        }
        Err(_) => {}
    }
}

#[tactic(auto, using(crate::proofs::Fitting::link_ok))]
fn prove_link_text(disk: u64, answer: &Result<ShortText, NfsError>)
    ensures { (outcome link_results post_op_attributes).Has (outcome_of (link_seen disk) None answer.now) }
{
    match answer {
        Ok(text) => {
            prove_told(disk, &text.reply.node);
            let _ = text.reply.text.len();
        }
        Err(_) => {}
    }
}

#[tactic(auto, using(crate::proofs::Fitting::read_ok))]
fn prove_read(disk: u64, answer: &Result<FilePart, NfsError>)
    ensures { (outcome read_results post_op_attributes).Has (outcome_of (read_seen disk) None answer.now) }
{
    match answer {
        Ok(part) => {
            prove_told(disk, &part.reply.file);
            let _ = part.reply.bytes.len();
        }
        Err(_) => {}
    }
}

#[tactic(auto, using(crate::proofs::Fitting::made_ok))]
fn prove_made(disk: u64, answer: &Result<Made, NfsError>)
    ensures { (outcome made_results change).Has (outcome_of (made_of disk) no_change answer.now) }
{
    match answer {
        Ok(made) => {
            prove_handle(disk, made.node.number, made.generation);
            prove_told(disk, &made.node);
            prove_change(disk, &made.directory);
        }
        Err(_) => {}
    }
}

#[tactic(auto, using(crate::proofs::Fitting::renamed_ok))]
fn prove_renamed(disk: u64, answer: &Result<Renamed, NfsError>)
    ensures { (outcome two_changes two_changes).Has (outcome_of (renamed_of disk) no_changes answer.now) }
{
    match answer {
        Ok(renamed) => {
            prove_change(disk, &renamed.source);
            prove_change(disk, &renamed.goal);
        }
        Err(_) => {}
    }
}

#[tactic(auto, using(crate::proofs::Fitting::list_ok))]
fn prove_list(disk: u64, answer: &Result<Lines, NfsError>)
    ensures { (outcome (page_results entry) post_op_attributes).Has (outcome_of (list_seen disk) None answer.now) }
{
    match answer {
        Ok(lines) => {
            prove_told(disk, &lines.reply.directory);
            prove_entries(&lines.reply.lines);
        }
        Err(_) => {}
    }
}

#[tactic(auto, using(crate::proofs::Fitting::list_plus_ok))]
fn prove_list_plus(disk: u64, answer: &Result<Lines, NfsError>)
    ensures { (outcome (page_results entry_plus) post_op_attributes).Has (outcome_of (list_plus_seen disk) None answer.now) }
{
    match answer {
        Ok(lines) => {
            prove_told(disk, &lines.reply.directory);
            prove_entries_plus(disk, &lines.reply.lines);
        }
        Err(_) => {}
    }
}

#[tactic(auto, using(crate::proofs::Fitting::space_ok))]
fn prove_space(disk: u64, answer: &Result<Space, NfsError>)
    ensures { (outcome status_results post_op_attributes).Has (outcome_of (status_of disk) None answer.now) }
{
    match answer {
        Ok(space) => {
            prove_told(disk, &space.node);
            prove_hyper(space.total_bytes);
            prove_hyper(space.free_bytes);
            prove_hyper(space.total_nodes);
            prove_hyper(space.free_nodes);
        }
        Err(_) => {}
    }
}

#[tactic(auto, using(crate::proofs::Fitting::information_ok))]
fn prove_information(disk: u64, answer: &Result<FactsReply, NfsError>)
    ensures { (outcome information_results post_op_attributes).Has (outcome_of (information_seen disk) None answer.now) }
{
    match answer {
        Ok(facts) => {
            prove_told(disk, &facts.node);
            prove_word(facts.transfer);
            prove_hyper(facts.file);
            prove_word(facts.step_secs);
            prove_word(facts.step_nanos);
            prove_word(facts.properties);
        }
        Err(_) => {}
    }
}

#[tactic(auto, using(crate::proofs::Fitting::configuration_ok))]
fn prove_configuration(disk: u64, answer: &Result<NameFactsReply, NfsError>)
    ensures { (outcome configuration_results post_op_attributes).Has (outcome_of (configuration_seen disk) None answer.now) }
{
    match answer {
        Ok(facts) => {
            prove_told(disk, &facts.node);
            prove_word(facts.links);
        }
        Err(_) => {}
    }
}

fn prove_write(
    disk: u64,
    answer: &Result<Changed, NfsError>,
    count: u32,
    how: StableHow,
    verifier: &Verifier,
)
    ensures { (outcome write_results change).Has (outcome_of (write_of disk count how verifier.now.0) no_change answer.now) }
{
    match answer {
        Ok(changed) => {
            prove_change(disk, changed);
            prove_verifier(verifier);
        }
        Err(_) => {}
    }
}

fn prove_commit(disk: u64, answer: &Result<Changed, NfsError>, verifier: &Verifier)
    ensures { (outcome commit_results change).Has (outcome_of (commit_of disk verifier.now.0) no_change answer.now) }
{
    match answer {
        Ok(changed) => {
            prove_change(disk, changed);
            prove_verifier(verifier);
        }
        Err(_) => {}
    }
}

// Each line of READDIR.
fn prove_entries(lines: &[Line])
    ensures { All (λ l. entry.Has (line_seen l)) lines.now }
{
    for line in lines {
        prove_entry(line);
    }
}

// Each line of READDIRPLUS.
fn prove_entries_plus(disk: u64, lines: &[Line])
    ensures { All (λ l. entry_plus.Has (line_plus_seen disk l)) lines.now }
{
    for line in lines {
        prove_entry_plus(disk, line);
    }
}

#[tactic(auto, using(crate::proofs::Fitting::entry_has))]
fn prove_entry(line: &Line)
    ensures { entry.Has (line_seen line.now) }
{
    prove_word(line.number);
    prove_byte(line.name_bytes);
    prove_hyper(line.cookie);
}

#[tactic(auto, using(crate::proofs::Fitting::plus_some, crate::proofs::Fitting::plus_none))]
fn prove_entry_plus(disk: u64, line: &Line)
    ensures { entry_plus.Has (line_plus_seen disk line.now) }
{
    prove_entry(line);
    prove_handle(disk, line.number, line.generation);
    match &line.node {
        Some(told) => {
            prove_told(disk, told);
        }
        None => {}
    }
}

// The attributes of a node.
#[tactic(auto, using(crate::proofs::Fitting::fattr_has, crate::proofs::Fitting::before_has))]
fn prove_told(disk: u64, told: &Told)
    ensures attributes { fattr.Has (fattr_of disk told.now) }
    ensures before { before.Has (before_of told.now) }
{
    let attributes = &told.attributes;
    prove_hyper(disk);
    prove_word(told.number);
    prove_hyper(told.size);
    prove_mode(attributes.mode);
    prove_word(attributes.owner);
    prove_word(attributes.group);
    prove_time(attributes.mtime);
    prove_time(attributes.ctime);
}

#[tactic(auto, using(journal_nfs3_wire::proofs::Fitting::change_has))]
fn prove_change(disk: u64, changed: &Changed)
    ensures { change.Has (change_of disk changed.now) }
{
    prove_told(disk, &changed.before);
    prove_told(disk, &changed.after);
}

#[tactic(auto, using(crate::proofs::Fitting::handle_has))]
fn prove_handle(disk: u64, number: u32, generation: u32)
    ensures { given_handle.Has (handle_of disk number generation) }
{
    prove_hyper(disk);
    prove_word(number);
    prove_word(generation);
}

fn prove_time(time: Time)
    ensures secs { time.secs < 2 ^ 32 }
    ensures nanos { time.nanos < 2 ^ 32 }
{
    prove_word(time.secs);
    prove_word(time.nanos);
}

fn prove_byte(number: u8)
    ensures { number < 2 ^ 8 }
{}

fn prove_mode(number: u16)
    ensures { number < 2 ^ 16 }
{}

fn prove_word(number: u32)
    ensures { number < 2 ^ 32 }
{}

fn prove_hyper(number: u64)
    ensures { number < 2 ^ 64 }
{}
