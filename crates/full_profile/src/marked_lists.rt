//! Recency lists with a clean depth beside each block, in whatever way they are kept.
pub(crate) mod long_lists;
pub(crate) mod row;
pub(crate) mod rows;
pub(crate) mod slotted;
pub(crate) mod sparse;
pub(crate) mod touched;

ghost use Rattle.std.specs.Prelude.{◌≡◌, ◌+◌, ◌^◌, ◌<◌, ◌≤◌, IsTrue, false, ◌↔◌, length};
ghost use Rattle.std.specs.Prelude.{slice_index};
ghost use Rattle.std.specs.Prelude.{sum, sum_by};
ghost use Rattle.trace_core.specs.Events.{is_write};
ghost use Rattle.profile_core.specs.profile.RecencyList.{is_front};
ghost use Rattle.full_profile.specs.internal.Copies.{with_all_copies, up_to_of, CanTake};
ghost use Rattle.full_profile.specs.internal.Marked.{Marked, blocks_in, cleans_in, marked_touch_of};
ghost use Rattle.full_profile.specs.internal.Marked.{after_access, after_write_in_front, emptied};

use crate::copies::{Copies, Emptying};
use trace_core::Access;

/// Where an access finds its block. `Behind`: at this stack distance, with this clean depth. `New`:
/// nowhere in the list, which has this many blocks and room for more. `Full`: nowhere in the list,
/// which is full; the last block left it, with this clean depth.
#[derive(Debug, Clone, Copy)]
pub enum MarkedTouch {
    Behind(usize, u32),
    New(usize),
    Full(u32),
}

/// Whether an access writes.
#[inline(always)]
pub fn writes(access: Access) -> bool
    ensures { result ≡ is_write access }
{
    matches!(access, Access::Write)
}

/// A recency list for each set, the most recent block first, with a clean depth beside each block
/// (Thompson and Smith 1989).
pub trait MarkedLists: Drop {
    /// The lists that it stands for.
    ghost view: { Self → Marked };

    /// The front of a set's list, or 0 if the list is empty. So it tells whether a block is the
    /// front, except for block 0.
    fn front(&self, set: usize) -> u64
        requires { set < length (view self.now).blocks }
        ensures { result ≡ slice_index (blocks_in (view self.now) set) 0 };

    /// Whether a set's list has a block. Only block 0 needs this.
    fn has_block(&self, set: usize) -> bool
        requires { set < length (view self.now).blocks }
        ensures { IsTrue result ↔ (0 < length (blocks_in (view self.now) set)) };

    /// Whether a block is the front of a set's list. Only for block 0 it also looks whether the
    /// list has a block.
    #[inline(always)]
    fn is_front(&self, set: usize, block: u64) -> bool
        requires { set < length (view self.now).blocks }
        ensures { result ≡ is_front block (blocks_in (view self.now) set) }
    {
        self.front(set) == block && (block != 0 || self.has_block(set))
    }

    /// The clean depth of the front of a set's list.
    fn front_clean(&self, set: usize) -> u32
        requires within { set < length (view self.now).blocks }
        requires some { 0 < length (blocks_in (view self.now) set) }
        ensures { result ≡ slice_index (cleans_in (view self.now) set) 0 };

    /// Writes the front of a set's list: it is dirty in all caches then.
    fn write_front(&mut self, set: usize)
        requires within { set < length (view self.old).blocks }
        requires some { 0 < length (blocks_in (view self.old) set) }
        ensures { view self.new ≡ after_write_in_front (view self.old) set };

    /// Brings a block that is not the front of a set's list to the front by an access, and returns
    /// where it stood.
    fn bring(&mut self, set: usize, block: u64, access: Access) -> MarkedTouch
        requires within { set < length (view self.old).blocks }
        requires behind { is_front block (blocks_in (view self.old) set) ≡ false }
        ensures found { result ≡ marked_touch_of (view self.old).depth block
            (blocks_in (view self.old) set) (cleans_in (view self.old) set) }
        ensures moved { view self.new ≡ after_access (view self.old) set block access };

    /// Empties the lists, and counts the copybacks of their blocks.
    fn empty(&mut self, emptying: Emptying, copies: &mut Copies)
        requires { CanTake (view self.old).depth (view self.old).cleans copies.old }
        ensures lists { view self.new ≡ emptied (view self.old) }
        ensures copies { copies.new ≡ with_all_copies (up_to_of emptying (view self.old).depth)
            (view self.old).cleans copies.old };
}
