//! A row of blocks for each set, in whatever way the rows are stored.
pub(crate) mod plain;
pub(crate) mod row;
pub(crate) mod split;

ghost use Rattle.std.specs.Prelude.{◌≡◌, ◌<◌, false, length, slice_index, slice_set};
ghost use Rattle.profile_core.specs.profile.RecencyList.{is_front};
ghost use Rattle.profile_core.specs.internal.set_lists.Moves.{is_second, standing_of};
ghost use Rattle.profile_core.specs.internal.set_lists.Lists.{IsRow, IsBroughtInRow};
ghost use Rattle.profile_core.specs.internal.rows.Rows.{RowsValue, row_for, with_row, list_in_row};

use crate::set_lists::recency::Standing;

/// Rows of `stride` numbers, one for each set.
pub trait RowStore: Drop {
    /// The rows that it stands for.
    ghost view: { Self → RowsValue };

    /// The first number of a set's row.
    fn first(&self, set: usize) -> u64
        requires within { set < length (view self.now).rows }
        requires some { 0 < (view self.now).stride }
        ensures { result ≡ slice_index (row_for (view self.now) set) 0 };

    /// Writes the first number of a set's row.
    fn put_first(&mut self, set: usize, number: u64)
        requires within { set < length (view self.old).rows }
        requires some { 0 < (view self.old).stride }
        ensures { view self.new ≡ with_row (view self.old) set
            (slice_set (row_for (view self.old) set) 0 number) };

    /// Brings a block that is neither the front nor the second of a set's list to the front. The
    /// list has `len` blocks: `front`, and the first `len - 1` of its set's row. It grows by one if
    /// the block is new and the row has room. No other row changes.
    fn bring(&mut self, set: usize, front: &mut u64, len: &mut u32, block: u64) -> Standing
        requires within { set < length (view self.old).rows }
        requires some { 0 < len.old }
        requires row { IsRow (row_for (view self.old) set) len.old }
        requires behind { is_front block (list_in_row (view self.old) set front.old len.old)
            ≡ false }
        requires further { is_second block (list_in_row (view self.old) set front.old len.old)
            ≡ false }
        ensures found { result ≡ standing_of block
            (list_in_row (view self.old) set front.old len.old) }
        ensures moved { IsBroughtInRow block (list_in_row (view self.old) set front.old len.old)
            front.new (row_for (view self.new) set) len.new }
        ensures long { length (row_for (view self.new) set) ≡ (view self.old).stride }
        ensures others { view self.new
            ≡ with_row (view self.old) set (row_for (view self.new) set) };
}
