// A block that is open for writing: a guard whose drop closes the mark and writes the check.
ghost use Rattle.std.specs.Prelude.{◌≡◌, ◌<◌, slice_set};
ghost use Rattle.std.specs.Str.{bytes_eq};
ghost use Rattle.image.specs.Blocks.{closed, row_of, with_row};

use crate::block::{Block, Row, close, put_row, rows_of};

// The block's mark is 1 as long as the guard lives.
pub(crate) struct OpenBlock<'a> {
    block: &'a mut Block,
}

impl<'a> OpenBlock<'a> {
    pub(crate) fn open(block: &'a mut Block) -> OpenBlock<'a>
        ensures opened { result.block.now ≡ slice_set block.old 3 1 }
        ensures same { result.block.ghost_name ≡ block.entry.ghost_name }
    {
        block[3] = 1;
        OpenBlock { block }
    }

    // Whether row k already holds these bytes.
    pub(crate) fn holds(&self, k: usize, row: &Row) -> bool
        requires { k < 31 }
        ensures { result ≡ bytes_eq (row_of self.now.block.now k) row.now }
    {
        rows_of(self.block)[k] == *row
    }

    pub(crate) fn put(&mut self, k: usize, row: &Row)
        requires { k < 31 }
        ensures after { self.new.block.now ≡ with_row self.old.block.now k row.now }
        ensures same { self.new.block.ghost_name ≡ self.old.block.ghost_name }
    {
        put_row(self.block, k, row);
    }
}

impl Drop for OpenBlock<'_> {
    fn drop(self)
        ensures { self.exit.0.now ≡ closed self.entry.block.now }
    {
        let OpenBlock { block } = self;
        close(block);
    }
}

// Writes row k of a block. The write ends early where the row already holds these bytes; the drop of the guard closes
// the block on both ways out.
pub(crate) fn write_row(block: &mut Block, k: usize, row: &Row)
    requires { k < 31 }
    ensures { block.new ≡ closed (with_row block.old k row.now) }
{
    let mut open = OpenBlock::open(block);
    if open.holds(k, row) {
        return;
    }
    open.put(k, row);
}
