// Memory for the values of a line.
use crate::choice::ChoiceRoom;
use crate::value::ValueRoom;
use std::alloc::{AllocError, Global};

/// Room for the value or the choice of one line, taken once and used for one line after another.
#[derive(Drop)]
pub struct Room {
    /// For the bytes of a value.
    pub(crate) value: ValueRoom,
    /// For the numbers of a choice.
    pub(crate) choice: ChoiceRoom,
}

impl Room {
    /// Takes the memory.
    ///
    /// # Errors
    /// - Memory is refused. Nothing was made.
    pub fn new(alloc: Global) -> Result<Room, AllocError> {
        Ok(Room {
            value: ValueRoom::new(alloc)?,
            choice: ChoiceRoom::new(alloc)?,
        })
    }
}
