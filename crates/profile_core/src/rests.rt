//! The rest of each set's row of blocks, which is all but its first number, in whatever way it is
//! stored.
pub(crate) mod slotted;
pub(crate) mod sparse;

ghost use Rattle.std.specs.Prelude.{◌≡◌, ◌+◌, ◌-◌, ◌<◌, ◌≤◌, ◌∷◌, false, nat_eq, length, take};
ghost use Rattle.std.specs.List.{remove};
ghost use Rattle.profile_core.specs.profile.RecencyList.{index_of};
ghost use Rattle.profile_core.specs.internal.set_lists.Moves.{rest_standing_of};
ghost use Rattle.profile_core.specs.internal.rows.Rows.{RowsValue, row_for, with_row};

use crate::set_lists::recency::Standing;

/// A rest for each set, of `stride` numbers. The first two blocks of a set's list are stored
/// elsewhere; the others are the first numbers of the set's rest.
pub trait RestStore: Drop {
    /// The rests that it stands for, as rows.
    ghost view: { Self → RowsValue };

    /// Takes a block out of a set's list of `len` blocks, if it is there, and puts `second` in
    /// front of the rest. The block is neither the first nor the second of the list. The list grows
    /// by one if the block is new and the rest has room. No other rest changes.
    fn exchange(&mut self, set: usize, second: u64, len: &mut u32, block: u64) -> Standing
        requires within { set < length (view self.old).rows }
        requires some { 0 < (view self.old).stride }
        requires two { 2 ≤ len.old }
        requires fits { len.old ≤ (view self.old).stride + 2 }
        requires other { nat_eq second block ≡ false }
        ensures found { result
            ≡ rest_standing_of 2 block (take (len.old - 2) (row_for (view self.old) set)) }
        ensures two { 2 ≤ len.new }
        ensures fits { len.new ≤ (view self.old).stride + 2 }
        ensures moved { let rest = take (len.old - 2) (row_for (view self.old) set) in
            take (len.new - 2) (row_for (view self.new) set)
            ≡ take (view self.old).stride (second ∷ remove rest (index_of block rest)) }
        ensures long { length (row_for (view self.new) set) ≡ (view self.old).stride }
        ensures others { view self.new
            ≡ with_row (view self.old) set (row_for (view self.new) set) };
}
