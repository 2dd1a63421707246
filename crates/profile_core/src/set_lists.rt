//! The calls that a profile makes on its lists, in whatever way they are kept.
pub(crate) mod long_lists;
pub(crate) mod recency;

ghost use Rattle.std.specs.Prelude.{◌≡◌, ◌*◌, ◌<◌, ◌≤◌, [], true, false, length, replicate, sum_by};
ghost use Rattle.std.specs.Prelude.{slice_index, slice_index_or, IsTrue, ◌↔◌};
ghost use Rattle.profile_core.specs.profile.RecencyList.{is_front};
ghost use Rattle.profile_core.specs.internal.set_lists.Moves.{is_second, standing_of};
ghost use Rattle.profile_core.specs.internal.set_lists.Lists.{Lists, lists_after_bring};

use crate::set_lists::recency::Standing;

/// A recency list for each set, the most recent block first (LRU stacks, Mattson 1970).
pub trait SetLists: Drop {
    /// The lists that it stands for.
    ghost view: { Self → Lists };

    /// The front of a set's list, or 0 if the list is empty. So it tells whether a block is the
    /// front, except for block 0.
    fn front(&self, set: usize) -> u64
        requires { set < length (view self.now).lists }
        ensures { result ≡ slice_index (slice_index_or (view self.now).lists set []) 0 };

    /// Whether a set's list has a block. Only block 0 needs this.
    fn has_block(&self, set: usize) -> bool
        requires { set < length (view self.now).lists }
        ensures { IsTrue result ↔ (0 < length (slice_index_or (view self.now).lists set [])) };

    /// Whether a block is the front of a set's list. Only for block 0 it also looks whether the
    /// list has a block.
    #[inline(always)]
    fn is_front(&self, set: usize, block: u64) -> bool
        requires { set < length (view self.now).lists }
        ensures { result ≡ is_front block (slice_index_or (view self.now).lists set []) }
    {
        self.front(set) == block && (block != 0 || self.has_block(set))
    }

    /// Whether a block is the second of a set's list.
    fn is_second(&self, set: usize, block: u64) -> bool
        requires { set < length (view self.now).lists }
        ensures { result ≡ is_second block (slice_index_or (view self.now).lists set []) };

    /// Brings the second block of a set's list to the front.
    fn bring_second(&mut self, set: usize, block: u64)
        requires within { set < length (view self.old).lists }
        requires behind { is_front block (slice_index_or (view self.old).lists set []) ≡ false }
        requires second { is_second block (slice_index_or (view self.old).lists set []) ≡ true }
        ensures { view self.new ≡ lists_after_bring (view self.old) set block };

    /// Brings a block that is neither the front nor the second of a set's list to the front, and
    /// returns where it stood, or that it is new.
    fn bring(&mut self, set: usize, block: u64) -> Standing
        requires within { set < length (view self.old).lists }
        requires behind { is_front block (slice_index_or (view self.old).lists set []) ≡ false }
        requires further { is_second block (slice_index_or (view self.old).lists set []) ≡ false }
        ensures found { result ≡ standing_of block (slice_index_or (view self.old).lists set []) }
        ensures moved { view self.new ≡ lists_after_bring (view self.old) set block };

    /// Empties the lists.
    fn clear(&mut self)
        ensures { view self.new
            ≡ record (view self.old) { lists = replicate (length (view self.old).lists) [] } };

    /// How many blocks the lists have. It visits all sets.
    fn held(&self) -> u64
        ensures value { result ≡ sum_by length (view self.now).lists }
        ensures at_most { result ≤ length (view self.now).lists * (view self.now).depth };
}
