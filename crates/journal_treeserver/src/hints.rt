// Numbers and blocks that may be free.
use journal_tree::Free;
use journal_treecalls::Spare;
use std::alloc::{AllocError, Global};
use std::sync::Wait;

/// Numbers and blocks that may be free. A call looks at each before it takes it.
#[derive(Drop)]
pub struct Drawn {
    /// Numbers of inodes.
    pub numbers: Vec<u32>,
    /// Numbers of blocks.
    pub blocks: Vec<u32>,
}

impl Drawn {
    // All of them, for a call.
    pub(crate) fn spare(&self) -> Spare<'_> {
        Spare {
            numbers: &self.numbers,
            blocks: &self.blocks,
        }
    }
}

/// The number and the blocks that a call has taken of them, as far as its answer says it.
#[derive(Clone, Copy, Debug, PartialEq, Eq)]
pub struct Taken {
    /// The number of a node that it made.
    pub number: Option<u32>,
    /// How many of the first blocks it has taken.
    pub blocks: u64,
}

/// Where they come from.
pub trait FreeHints {
    /// Numbers and blocks, at most as many as are asked for.
    ///
    /// # Errors
    /// - Memory is refused. Nothing was drawn.
    fn draw<W: Wait>(
        &self,
        rt: &W,
        alloc: Global,
        numbers: usize,
        blocks: usize,
    ) -> Result<Drawn, AllocError>;

    /// Takes back the others, which a call has not taken.
    fn put_back<W: Wait>(&self, rt: &W, drawn: Drawn, taken: Taken);

    /// A call may have freed numbers and blocks.
    fn note_freed<W: Wait>(&self, rt: &W);

    /// How many blocks and numbers may be free.
    fn free<W: Wait>(&self, rt: &W) -> Free;
}
