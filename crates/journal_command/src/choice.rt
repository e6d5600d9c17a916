// The text of a choice among the images of a disk.
ghost use Rattle.std.specs.Prelude.{◌≡◌, ℕ, ◌≤◌, false, List, [], IsTrue, IfSome, IfNone, vec_len, vec_capacity};
ghost use Rattle.journal_command.specs.declared.command.Choice.{Choice as Chosen};
ghost use Rattle.journal_command.specs.Commands.{Lists, Chooses};

use crate::command::Choice;
use crate::number::read_number;
use std::alloc::{AllocError, Global};

/// The most numbers of a choice: each but the last takes two bytes of a line at least.
const MOST: usize = 10000;

/// Room for the numbers of one choice, taken once and used for one choice after another.
#[derive(Drop)]
pub struct ChoiceRoom {
    numbers: Vec<u32>,
    ghost roomy: { 10000 ≤ vec_capacity numbers },
    ghost fits: { vec_len numbers ≤ 10000 },
}

impl ChoiceRoom {
    /// Takes the memory.
    ///
    /// # Errors
    /// - Memory is refused. Nothing was made.
    pub fn new(alloc: Global) -> Result<ChoiceRoom, AllocError> {
        Ok(ChoiceRoom {
            numbers: Vec::with_capacity(alloc, MOST)?,
        })
    }

    /// The choice of the text, or `None` if it is none. The call takes no memory.
    pub fn read(&mut self, text: &[u8]) -> Option<Choice<'_>>
        ensures found { IfSome result (Chooses text.now) }
        ensures none { IfNone result ((choice : Chosen) → Chooses text.now choice → ⊥) }
    {
        match text {
            b"none" => Some(Choice::Stable),
            b"all" => Some(Choice::Last),
            _ => Some(Choice::Listed(self.read_numbers(text)?)),
        }
    }

    // The numbers that the text lists.
    fn read_numbers(&mut self, text: &[u8]) -> Option<&[u32]>
        ensures found { IfSome result (λ numbers. Lists text.now numbers.now) }
        ensures none { IfNone result ((numbers : List ℕ) → Lists text.now numbers → ⊥) }
    {
        self.numbers.clear();
        if !self.push_numbers(text) {
            return None;
        }
        Some(&self.numbers)
    }

    // Adds the numbers between the commas. False if the text lists none, or too many.
    fn push_numbers(&mut self, text: &[u8]) -> bool
        requires { self.old.numbers.items ≡ [] }
        ensures found { IsTrue result → Lists text.now self.new.numbers.items }
        ensures none { result ≡ false → (numbers : List ℕ) → Lists text.now numbers → ⊥ }
    {
        for part in text.split(|byte| *byte == b',') {
            let Some(number) = read_number(part) else {
                return false;
            };
            if self.numbers.len() == MOST {
                return false;
            }
            self.numbers.push_reserved(number);
        }
        true
    }
}
