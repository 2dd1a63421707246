//! Recency lists with a clean depth beside each block, of which it is known which have a block.
ghost use Rattle.std.specs.Prelude.{◌≡◌, ◌+◌, ◌^◌, ◌<◌, ◌≤◌, IfOk, false, length, map, slice_index};
ghost use Rattle.std.specs.Prelude.{sum};
ghost use Rattle.cache_core.specs.Touched.{ListsFilled};
ghost use Rattle.profile_core.specs.profile.RecencyList.{is_front};
ghost use Rattle.full_profile.specs.internal.Copies.{with_copies_of, with_all_copies, up_to_of};
ghost use Rattle.full_profile.specs.internal.Copies.{CanTake};
ghost use Rattle.full_profile.specs.internal.Marked.{Marked, blocks_in, cleans_in, empty_marked};
ghost use Rattle.full_profile.specs.internal.Marked.{marked_touch_of, after_access, emptied};
ghost use Rattle.full_profile.specs.internal.Marked.{after_write_in_front, without_list, AreAlike};

use crate::copies::{Copies, Emptying};
use crate::marked_lists::{MarkedLists, MarkedTouch};
use cache_core::touched::TouchedSets;
use std::alloc::{AllocError, Global};
use std::marker::Model;
use trace_core::Access;

/// A recency list for each set, with a clean depth beside each block, in whatever way they are
/// stored.
pub trait ListStore: Drop {
    /// The lists that it stands for.
    ghost view: { Self → Marked };

    /// How many sets there are.
    fn sets(&self) -> usize
        ensures value { result ≡ length (view self.now).blocks };

    /// The front of a set's list, or 0 if the list is empty.
    fn front(&self, set: usize) -> u64
        requires { set < length (view self.now).blocks }
        ensures { result ≡ slice_index (blocks_in (view self.now) set) 0 };

    /// How many blocks a set's list has.
    fn held(&self, set: usize) -> u32
        requires { set < length (view self.now).blocks }
        ensures { result ≡ length (blocks_in (view self.now) set) };

    /// The clean depth of the front of a set's list.
    fn front_clean(&self, set: usize) -> u32
        requires within { set < length (view self.now).blocks }
        requires some { 0 < length (blocks_in (view self.now) set) }
        ensures { result ≡ slice_index (cleans_in (view self.now) set) 0 };

    /// Writes the front of a set's list.
    fn write_front(&mut self, set: usize)
        requires within { set < length (view self.old).blocks }
        requires some { 0 < length (blocks_in (view self.old) set) }
        ensures { view self.new ≡ after_write_in_front (view self.old) set };

    /// Brings a block that is not the front of a set's list to the front by an access.
    fn bring(&mut self, set: usize, block: u64, access: Access) -> MarkedTouch
        requires within { set < length (view self.old).blocks }
        requires behind { is_front block (blocks_in (view self.old) set) ≡ false }
        ensures found { result ≡ marked_touch_of (view self.old).depth block
            (blocks_in (view self.old) set) (cleans_in (view self.old) set) }
        ensures moved { view self.new ≡ after_access (view self.old) set block access };

    /// Empties a set's list, and counts the copybacks of its blocks.
    fn empty_list(&mut self, set: usize, emptying: Emptying, copies: &mut Copies)
        requires set { set < length (view self.old).blocks }
        requires above_within { (view self.old).depth < length copies.old.above }
        requires within { (view self.old).depth < length copies.old.up_to }
        requires above { sum copies.old.above + length (cleans_in (view self.old) set) < 2 ^ 63 }
        requires up_to { sum copies.old.up_to + length (cleans_in (view self.old) set) < 2 ^ 63 }
        ensures lists { view self.new ≡ without_list (view self.old) set }
        ensures copies { copies.new ≡ with_copies_of (up_to_of emptying (view self.old).depth) 0
            (cleans_in (view self.old) set) copies.old };
}

/// The lists of all sets. `touched` lists the sets that have a block, as long as they are few, so
/// that emptying visits only these.
#[derive(Drop)]
pub struct TouchedLists<S: ListStore> {
    lists: S,
    touched: TouchedSets,
}

impl<S: ListStore> Model for TouchedLists<S> {
    ghost use Rattle.full_profile.specs.internal.Marked.{Marked, AreTouched};

    ghost Value = { Marked };

    ghost view = { λ l. S.view l.lists };

    ghost invariant = { λ l. AreTouched (S.view l.lists) l.touched };
}

impl<S: ListStore> TouchedLists<S> {
    /// The lists of a number of sets, which are empty. It takes a quarter of a byte for each set.
    pub fn new(alloc: Global, lists: S, sets: usize) -> Result<TouchedLists<S>, AllocError>
        requires empty { S.view lists ≡ empty_marked sets (S.view lists).depth }
        requires few { sets ≤ 2 ^ 22 }
        requires small { (S.view lists).depth ≤ 2 ^ 22 }
        ensures { IfOk result (λ touched. touched ≡ S.view lists) }
    {
        Ok(TouchedLists {
            lists,
            touched: TouchedSets::new(alloc, sets)?,
        })
    }
}

impl<S: ListStore> MarkedLists for TouchedLists<S> {
    ghost view = { λ l. l };

    #[inline(always)]
    fn front(&self, set: usize) -> u64 {
        self.lists.front(set)
    }

    #[inline(always)]
    fn has_block(&self, set: usize) -> bool {
        self.lists.held(set) != 0
    }

    #[inline(always)]
    fn front_clean(&self, set: usize) -> u32 {
        self.lists.front_clean(set)
    }

    #[inline(always)]
    fn write_front(&mut self, set: usize) {
        self.lists.write_front(set);
    }

    #[inline(always)]
    fn bring(&mut self, set: usize, block: u64, access: Access) -> MarkedTouch {
        let touch = self.lists.bring(set, block, access);
        if let MarkedTouch::New(held) = touch {
            self.touched.add_grown(set, held as u32, held as u32 + 1);
        }
        touch
    }

    fn empty(&mut self, emptying: Emptying, copies: &mut Copies) {
        match self.touched.listed() {
            Some(sets) => empty_listed(&mut self.lists, sets, emptying, copies),
            None => empty_all(&mut self.lists, emptying, copies),
        }
        self.touched.clear();
    }
}

/// Empties the lists of the listed sets; those of all other sets are empty already.
fn empty_listed<S: ListStore>(lists: &mut S, sets: &[u32], emptying: Emptying, copies: &mut Copies)
    requires filled { ListsFilled sets.now (map length (S.view lists.old).blocks) }
    requires beside { AreAlike (S.view lists.old) }
    requires room { CanTake (S.view lists.old).depth (S.view lists.old).cleans copies.old }
    ensures lists { S.view lists.new ≡ emptied (S.view lists.old) }
    ensures copies { copies.new ≡ with_all_copies (up_to_of emptying (S.view lists.old).depth)
        (S.view lists.old).cleans copies.old }
{
    for set in sets {
        lists.empty_list(*set as usize, emptying, copies);
    }
}

/// Empties all lists.
fn empty_all<S: ListStore>(lists: &mut S, emptying: Emptying, copies: &mut Copies)
    requires beside { AreAlike (S.view lists.old) }
    requires room { CanTake (S.view lists.old).depth (S.view lists.old).cleans copies.old }
    ensures lists { S.view lists.new ≡ emptied (S.view lists.old) }
    ensures copies { copies.new ≡ with_all_copies (up_to_of emptying (S.view lists.old).depth)
        (S.view lists.old).cleans copies.old }
{
    for set in 0..lists.sets() {
        lists.empty_list(set, emptying, copies);
    }
}
