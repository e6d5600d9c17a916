//! The meaning of a program's words and of the lines of a script, with no journal: the request of
//! the words, the lines of an input, the command of each line, and how numbers and values are
//! written.
//!
//! A line is its words, with one space between each two, and `specs/Commands.antt` says which words
//! say which command. A command lends the bytes of its value, or the numbers of its choice, from a
//! `Room` whose memory is taken once, so that no line takes any.
//!
//! `specs/Values.antt` has the text of a value: terms joined by `+`. A text spells one value at
//! most, and `print_value` prints the text that spells it by its maximal runs of equal bytes.
#![tactic(auto)]

mod ask;
mod choice;
mod command;
mod line;
mod number;
mod room;
mod value;

pub use ask::{Ask, AskFault};
pub use command::{Choice, Command};
pub use line::{LINE_BYTES, Lines};
pub use number::{read_number, read_port};
pub use room::Room;
pub use value::print_value;
