// The words of a line, read one after another.
ghost use Rattle.std.specs.Prelude.{◌≡◌, ◌≢◌, ◌==◌, ◌∷◌, [], List, ℕ, position, IfSome, IfNone, MatchOption};
ghost use Rattle.std.specs.Fmt.{decimal};
ghost use Rattle.journal_command.specs.Commands.{line_words as words_of, IsNumber};

use crate::number::read_number;
use std::marker::Model;

/// The words of a line that are still to be read. Contracts see their list.
#[derive(Drop)]
pub struct Words<'a> {
    // The text after the last space that was passed, and `None` after the last word.
    rest: Option<&'a [u8]>,
}

impl<'a> Model for Words<'a> {
    ghost use Rattle.std.specs.Prelude.{ℕ, List};
    ghost use Rattle.std.specs.Option.{option_copied};
    ghost use Rattle.journal_command.specs.Commands.{words_left};

    ghost Value = { List (List ℕ) };

    ghost view = { λ words. words_left (option_copied words.rest) };
}

impl<'a> Words<'a> {
    /// The words of the line.
    pub fn new(line: &'a [u8]) -> Words<'a>
        ensures { result ≡ words_of line.now }
    {
        Words { rest: Some(line) }
    }

    /// Takes the next word, if there is one.
    pub fn word(&mut self) -> Option<&'a [u8]>
        ensures { MatchOption result (self.old ≡ []) (λ word. self.old ≡ word.now ∷ self.new) }
    {
        let rest = self.rest?;
        match first_space(rest) {
            Some(at) => {
                self.rest = Some(&rest[at + 1..]);
                Some(&rest[..at])
            }
            None => {
                self.rest = None;
                Some(rest)
            }
        }
    }

    /// Takes the next word, if it is a number.
    pub fn number(&mut self) -> Option<u32>
        ensures found { IfSome result (λ n. IsNumber n × (self.old ≡ decimal n ∷ self.new)) }
        ensures none { IfNone result ((n : ℕ) (more : List (List ℕ)) → IsNumber n → self.old ≢ decimal n ∷ more) }
    {
        let word = self.word()?;
        read_number(word)
    }

    /// `Some` if no word is left.
    pub fn end(&self) -> Option<()>
        ensures { MatchOption result (self.now ≢ []) (λ _. self.now ≡ []) }
    {
        match self.rest {
            None => Some(()),
            Some(_) => None,
        }
    }
}

// Where the first space is.
fn first_space(words: &[u8]) -> Option<usize>
    ensures { result ≡ position (λ b. b == 32) words.now }
{
    words.iter().position(|byte| *byte == b' ')
}
