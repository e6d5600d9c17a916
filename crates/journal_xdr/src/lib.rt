//! The items of XDR, the External Data Representation of RFC 4506, as a file service uses them.
//!
//! An item is a type of values with one spelling each, in units of four bytes, numbers with their
//! highest byte first. `specs/Items.antt` defines items, and puts larger ones together from smaller
//! ones: one after another, enumerations, unions by a tag, optional data. `specs/Basic.antt` has
//! those of the standard, and `specs/Lists.antt` has lists of others. The laws beside them say
//! once, for each way to put items together, that a value is read exactly where its spelling is at
//! the front, so that no spelling begins another.
//!
//! A `Reader` lends the values from the bytes that it was given, and a `Writer` appends to the
//! bytes that it has written. The reader of a larger type is a function of a few lines that reads
//! the parts with `?`, and its contract is one line that names the item.
#![tactic(auto)]

mod element;
mod enumeration;
mod laws;
mod padding;
mod reader;
mod writer;

pub use element::Element;
pub use enumeration::Enumeration;
pub use laws::{
    HasArms, HasItem, combinations_are_spellings, lists_are_spellings, readings_are_spellings,
    spellings_are_single,
};
pub use reader::Reader;
pub use writer::Writer;
