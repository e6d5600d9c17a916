// The first word of a line.
ghost use Rattle.std.specs.Prelude.{◌≡◌, ◌≢◌, IfSome, IfNone};
ghost use Rattle.journal_command.specs.declared.command.verb.Verb.{Verb as Word};
ghost use Rattle.journal_command.specs.Commands.{verb_text};

/// The first word of a line.
#[derive(Clone, Copy)]
pub enum Verb {
    Put,
    Get,
    Commit,
    Abort,
    Fence,
    Wait,
    Log,
    Install,
    Stat,
    Pend,
    Disk,
    Fail,
    Down,
    Open,
    Crash,
    Poke,
    Lose,
    Mend,
}

const VERBS: [Verb; 18] = [
    Verb::Put,
    Verb::Get,
    Verb::Commit,
    Verb::Abort,
    Verb::Fence,
    Verb::Wait,
    Verb::Log,
    Verb::Install,
    Verb::Stat,
    Verb::Pend,
    Verb::Disk,
    Verb::Fail,
    Verb::Down,
    Verb::Open,
    Verb::Crash,
    Verb::Poke,
    Verb::Lose,
    Verb::Mend,
];

impl Verb {
    /// The verb that the word is.
    pub fn read(word: &[u8]) -> Option<Verb>
        ensures found { IfSome result (λ verb. word.now ≡ verb_text verb) }
        ensures none { IfNone result ((verb : Word) → word.now ≢ verb_text verb) }
    {
        for verb in VERBS {
            if word == verb.text() {
                return Some(verb);
            }
        }
        None
    }

    // How it is written.
    fn text(self) -> &'static [u8]
        ensures { result.now ≡ verb_text self }
    {
        match self {
            Verb::Put => b"put",
            Verb::Get => b"get",
            Verb::Commit => b"commit",
            Verb::Abort => b"abort",
            Verb::Fence => b"fence",
            Verb::Wait => b"wait",
            Verb::Log => b"log",
            Verb::Install => b"install",
            Verb::Stat => b"stat",
            Verb::Pend => b"pend",
            Verb::Disk => b"disk",
            Verb::Fail => b"fail",
            Verb::Down => b"down",
            Verb::Open => b"open",
            Verb::Crash => b"crash",
            Verb::Poke => b"poke",
            Verb::Lose => b"lose",
            Verb::Mend => b"mend",
        }
    }
}
