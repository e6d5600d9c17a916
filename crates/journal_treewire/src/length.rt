// The lengths of results.
ghost use Rattle.std.specs.Prelude.{◌≡◌, ◌≤◌, ◌<◌, ◌^◌, ◌*◌, ◌+◌, length, flat_map, None};
ghost use Rattle.journal_nfs3_wire.specs.Profile.{no_change, outcome_of};
ghost use Rattle.journal_nfs3_wire.specs.QueryResults.{entry, page_results};
ghost use Rattle.journal_nfs3_wire.specs.Results.{outcome, post_op_attributes, change, read_results, write_results, commit_results};
ghost use Rattle.journal_treewire.specs.CodeViews.{results_of, line_text, line_plus_text, link_seen, read_seen, list_seen, list_plus_seen};
ghost use Rattle.journal_treewire.specs.Profile.{write_of, commit_of};
ghost use Rattle.journal_treewire.specs.Results.{results_text, link_results, entry_plus};

use crate::parts::{FilePart, Lines, ShortText};
use crate::results::{DiskResults, TreeResults};
use journal_nfs3_wire::{NfsError, StableHow, Verifier};
use journal_tree::Changed;
use journal_treecalls::Line;

// The most bytes of results without bytes of a file and without lines.
const FORM_BYTES: usize = 512;

// The most bytes of a line of READDIRPLUS without its name.
const LINE_BYTES: usize = 148;

impl DiskResults {
    /// A number of bytes for which room is made before they are written. Longer ones take more.
    pub fn room(&self) -> usize {
        match &self.results {
            TreeResults::LinkText(Ok(text)) => FORM_BYTES + text.reply.text.len(),
            TreeResults::Read(Ok(part)) => FORM_BYTES + part.reply.bytes.len(),
            TreeResults::Directory(Ok(lines)) => FORM_BYTES + room_of(0, &lines.reply.lines),
            TreeResults::DirectoryPlus(Ok(lines)) => FORM_BYTES + room_of(0, &lines.reply.lines),
            _ => FORM_BYTES,
        }
    }

    /// The results are short enough for a reply. The call is for its contract.
    #[tactic(auto, using(crate::proofs::Short::attributes_result, crate::proofs::Short::changed_result, crate::proofs::Short::found_result, crate::proofs::Short::access_result, crate::proofs::Short::made_result, crate::proofs::Short::renamed_result, crate::proofs::Short::status_result, crate::proofs::Short::information_result, crate::proofs::Short::configuration_result))]
    pub fn prove_short(&self)
        ensures { length (results_text (results_of self.now.disk self.now.results)) < 2 ^ 30 }
    {
        let disk = self.disk;
        match &self.results {
            TreeResults::Null => {}
            TreeResults::Attributes(_) => {}
            TreeResults::Changed(_) => {}
            TreeResults::Found(_) => {}
            TreeResults::Access(_) => {}
            TreeResults::LinkText(outcome) => prove_text(disk, outcome),
            TreeResults::Read(outcome) => prove_part(disk, outcome),
            TreeResults::Write {
                outcome,
                count,
                how,
                verifier,
            } => prove_written(disk, outcome, *count, *how, verifier),
            TreeResults::Made(_) => {}
            TreeResults::Renamed(_) => {}
            TreeResults::NotLinked(_) => {}
            TreeResults::Directory(outcome) => prove_lines(disk, outcome),
            TreeResults::DirectoryPlus(outcome) => prove_lines_plus(disk, outcome),
            TreeResults::FileSystemStatus(_) => {}
            TreeResults::FileSystemInformation(_) => {}
            TreeResults::PathConfiguration(_) => {}
            TreeResults::Commit { outcome, verifier } => prove_committed(disk, outcome, verifier),
        }
    }
}

#[tactic(auto, using(crate::proofs::Short::link_result, crate::proofs::Short::refused_link))]
fn prove_text(disk: u64, answer: &Result<ShortText, NfsError>)
    ensures { length ((outcome link_results post_op_attributes).spelling (outcome_of (link_seen disk) None answer.now)) < 2 ^ 30 }
{
    match answer {
        Ok(text) => {
            let _ = text.reply.text.len();
        }
        Err(_) => {}
    }
}

#[tactic(auto, using(crate::proofs::Short::part_result, crate::proofs::Short::refused_read))]
fn prove_part(disk: u64, answer: &Result<FilePart, NfsError>)
    ensures { length ((outcome read_results post_op_attributes).spelling (outcome_of (read_seen disk) None answer.now)) < 2 ^ 30 }
{
    match answer {
        Ok(part) => {
            let _ = part.reply.bytes.len();
        }
        Err(_) => {}
    }
}

#[tactic(auto, using(crate::proofs::Short::written_ok, crate::proofs::Short::written_err))]
fn prove_written(
    disk: u64,
    answer: &Result<Changed, NfsError>,
    count: u32,
    how: StableHow,
    verifier: &Verifier,
)
    ensures { length ((outcome write_results change).spelling (outcome_of (write_of disk count how verifier.now.0) no_change answer.now)) < 2 ^ 30 }
{
    prove_verifier(verifier);
    match answer {
        Ok(_) => {}
        Err(_) => {}
    }
}

#[tactic(auto, using(crate::proofs::Short::committed_ok, crate::proofs::Short::committed_err))]
fn prove_committed(disk: u64, answer: &Result<Changed, NfsError>, verifier: &Verifier)
    ensures { length ((outcome commit_results change).spelling (outcome_of (commit_of disk verifier.now.0) no_change answer.now)) < 2 ^ 30 }
{
    prove_verifier(verifier);
    match answer {
        Ok(_) => {}
        Err(_) => {}
    }
}

pub(crate) fn prove_verifier(verifier: &Verifier)
    ensures { length verifier.now.0 ≡ 8 }
{
    let bytes: &[u8] = &verifier.0;
    let _ = bytes.len();
}

#[tactic(auto, using(crate::proofs::LineTexts::list_result))]
fn prove_lines(disk: u64, answer: &Result<Lines, NfsError>)
    ensures { length ((outcome (page_results entry) post_op_attributes).spelling (outcome_of (list_seen disk) None answer.now)) < 2 ^ 30 }
{
    match answer {
        Ok(lines) => {
            let _ = room_of(disk, &lines.reply.lines);
        }
        Err(_) => {}
    }
}

#[tactic(auto, using(crate::proofs::LineTexts::list_plus_result))]
fn prove_lines_plus(disk: u64, answer: &Result<Lines, NfsError>)
    ensures { length ((outcome (page_results entry_plus) post_op_attributes).spelling (outcome_of (list_plus_seen disk) None answer.now)) < 2 ^ 30 }
{
    match answer {
        Ok(lines) => {
            let _ = room_of(disk, &lines.reply.lines);
        }
        Err(_) => {}
    }
}

// Room for lines, also with the attributes of READDIRPLUS.
fn room_of(disk: u64, lines: &[Line]) -> usize
    requires { length lines.now ≤ 2730 }
    ensures plain { length (flat_map line_text lines.now) ≤ result }
    ensures plus { length (flat_map (line_plus_text disk) lines.now) ≤ result }
    ensures short { result ≤ 1100190 }
{
    let mut room = 0;
    for line in lines {
        room += line_room(line);
    }
    room
}

// Room for a line.
fn line_room(line: &Line) -> usize
    ensures is { result ≡ 148 + line.now.name_bytes }
    ensures few { result ≤ 403 }
{
    LINE_BYTES + usize::from(line.name_bytes)
}
