// The parts that the grammars of both programs have.

use crate::fault::Fault;
use clap::{Arg, ArgAction, ArgMatches, Command};
use std::alloc::{AllocError, Global};

const STATUSES: &str =
    "Exit status:\n  0  it was done\n  1  it was not done, or not to its end; standard error has the reason\n  2  the words are no command";

/// The name of the argument that is the file of a disk.
pub const FILE: &str = "FILE";

/// The grammar of the program of this name, without its subcommands, of which one is required. Its
/// help is printed from it.
///
/// # Errors
/// - Memory is refused.
pub fn program_command<'w>(
    alloc: Global,
    name: &'w str,
    about: &'w str,
    versions: &'w str,
) -> Result<Command<'w>, AllocError> {
    let command = subcommand(alloc, name, about, STATUSES)
        .bin_name(name)?
        .version(versions);
    Ok(with_subcommands(command))
}

// A grammar that takes a subcommand, and its words without the program's name.
fn with_subcommands<'w>(command: Command<'w>) -> Command<'w> {
    command
        .no_binary_name(true)
        .subcommand_required(true)
        .arg_required_else_help(true)
}

// The functions below have no clauses. The prover takes twice as long with each further call of a
// builder, so grammars are made of these, and not of long chains.
/// A subcommand with the line that its help begins with, and the notes at its end.
pub fn subcommand<'w>(alloc: Global, name: &'w str, about: &'w str, notes: &'w str) -> Command<'w> {
    Command::new(alloc, name).about(about).after_help(notes)
}

/// An argument that is given or not, as `--name`.
pub fn flag_arg<'w>(alloc: Global, name: &'w str, help: &'w str) -> Arg<'w> {
    Arg::new(alloc, name)
        .long(name)
        .action(ArgAction::SetTrue)
        .help(help)
}

/// An argument with a value, as `--name VALUE`.
pub fn option_arg<'w>(alloc: Global, name: &'w str, value_name: &'w str, help: &'w str) -> Arg<'w> {
    Arg::new(alloc, name)
        .long(name)
        .value_name(value_name)
        .help(help)
}

/// The file that a subcommand is for, with the text of its help.
pub fn file_arg<'w>(alloc: Global, help: &'w str) -> Arg<'w> {
    Arg::new(alloc, FILE).required(true).help(help)
}

/// The word that was given for an argument that a subcommand requires.
///
/// # Errors
/// - `NoCommand`: there is none, which the grammar rules out.
pub fn word<'w>(given: &ArgMatches<'w>, name: &str) -> Result<&'w str, Fault<'w>> {
    match given.get_str(name) {
        Some(text) => Ok(text),
        None => Err(Fault::NoCommand),
    }
}
