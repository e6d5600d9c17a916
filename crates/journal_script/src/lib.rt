//! Scripts: lines that are obeyed and answered one after another, over a disk in memory and its
//! journal.
//!
//! `run` makes a disk without files, opens it, and answers each line of an input by one line of
//! output. A line is for the journal that is open, for a disk that is down, or for one of which
//! writes were lost. `down` and `crash` end a journal and leave an image of its disk. An opening
//! begins a history of its own. `lose` ends a journal as a failed barrier does: the disk reads as
//! it did, and its device lacks writes until it is mended.
//!
//! `specs/Clients.antt` says what a line does to the open transaction, `specs/Downs.antt` what it
//! does to a disk that is down, and `specs/Lost.antt` what it does where writes were lost.
//! `specs/Endings.antt` says what is left of a disk. `specs/Transcripts.antt` has what is printed:
//! the line of one answer to each line of the input, in order, and nothing else.
#![tactic(auto)]

mod answer;
mod blocks;
mod client;
mod console;
mod ending;
mod lost;
mod mounted;
mod script;
mod script_fault;
mod steps;
mod unmounted;

pub use script::run;
pub use script_fault::ScriptFault;
