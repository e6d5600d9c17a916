// The forms of a log.
ghost use Rattle.std.specs.Prelude.{◌≡◌, ◌↔◌, IsTrue};
ghost use Rattle.journal_form.specs.Forms.{form_by};

/// The form of the log of a disk.
#[derive(Clone, Copy, Debug, PartialEq, Eq)]
pub enum LogForm {
    /// A group takes two barriers. Each program that knows the journal's disks opens it.
    Plain,
    /// A group takes one barrier. A program that knows the plain form alone answers J7 `BadLog`.
    Sealed,
}

impl LogForm {
    /// The sealed form if the flag is true, else the plain one.
    pub(crate) fn of(is_sealed: bool) -> LogForm
        ensures { result ≡ form_by is_sealed }
    {
        if is_sealed {
            LogForm::Sealed
        } else {
            LogForm::Plain
        }
    }

    /// Its name in lower case.
    pub fn name(self) -> &'static str {
        match self {
            LogForm::Plain => "plain",
            LogForm::Sealed => "sealed",
        }
    }
}
