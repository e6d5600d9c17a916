// The numbers of blocks that lie in a block of them.
ghost use Rattle.std.specs.Prelude.{◌≡◌, ◌≤◌, ◌+◌, ◌*◌, length};
ghost use Rattle.journal_treestore.specs.Bytes.{word_at};

use crate::bytes::word;

/// The number at a place of a block of numbers. It is 0 where no block is named.
pub fn number_at(block: &[u8], place: usize) -> u32
    requires { 4 * place + 4 ≤ length block.now }
    ensures { result ≡ word_at block.now (4 * place) }
{
    word(block, 4 * place)
}
