// The layout of a journal.
ghost use Rattle.std.specs.Prelude.{◌≡◌};
ghost use Rattle.journal_world.specs.Files.{shape};

use journal_history::Naming;
use journal_world::Layout;
use std::marker::{Model, PhantomData};

// The journal's name has its layout, and memory has the layout that runs. This type keeps the two
// equal, so the invariant of memory has no further fact.
/// The layout by which a journal was opened, which its name carries.
#[derive(Drop)]
pub(crate) struct NamedLayout<J: Naming> {
    layout: Layout,
    journal: PhantomData<J>,
}

impl<J: Naming> Model for NamedLayout<J> {
    ghost use Rattle.std.specs.Prelude.{◌≡◌};
    ghost use Rattle.journal_world.specs.Addresses.{Shape};
    ghost use Rattle.journal_world.specs.Files.{shape};

    ghost Value = { Shape };

    ghost view = { λ l. shape l.layout };

    ghost invariant = { λ l. shape l.layout ≡ J.layout };
}

impl<J: Naming> NamedLayout<J> {
    /// The layout of the journal's name.
    pub(crate) fn new(layout: Layout) -> NamedLayout<J>
        requires layout { shape layout ≡ J.layout }
        ensures { result ≡ J.layout }
    {
        NamedLayout {
            layout,
            journal: PhantomData,
        }
    }

    /// The layout, lent.
    pub(crate) fn get(&self) -> &Layout
        ensures { shape result.now ≡ J.layout }
    {
        &self.layout
    }
}
