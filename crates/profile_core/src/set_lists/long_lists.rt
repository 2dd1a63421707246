//! A recency list for each set, the most recent block first, for lists that may be long. The first
//! blocks of each are in a row of blocks. Those behind them are in a deep list, which is not
//! walked.
ghost use Rattle.std.specs.Prelude.{◌≡◌, ◌*◌, ◌^◌, ◌<◌, ◌≤◌, [], false, length, replicate, sum_by};
ghost use Rattle.std.specs.Prelude.{map, IfOk, slice_index_or};
ghost use Rattle.deep_list.specs.Deep.{list_after_exchange};
ghost use Rattle.profile_core.specs.profile.RecencyList.{is_in, is_front};
ghost use Rattle.profile_core.specs.internal.set_lists.Moves.{is_second, rest_standing_of};
ghost use Rattle.profile_core.specs.internal.set_lists.LongLists.{in_row_of, empty_deep};
ghost use Rattle.profile_core.specs.internal.set_lists.Lists.{lists_after_bring};

use crate::rows::plain::PlainRows;
use crate::set_lists::SetLists;
use crate::set_lists::recency::{RecencyLists, Standing};
use deep_list::DeepList;
use std::alloc::{AllocError, Global};
use std::marker::Model;

/// The least depth at which lists are kept in this way. With fewer blocks it costs less to walk
/// over them all.
pub const DEEP: usize = 256;

/// How many blocks of a list stand in its row.
const ROW: usize = 64;

/// The result of bringing a block to the front of its row. `Settled`: the row alone tells where the
/// block was in the list. `Full`: the block was not in the row, and the row was full; how many
/// blocks the row has, and which block was its last.
#[derive(Debug, Clone, Copy)]
enum InRow {
    Settled(Standing),
    Full(usize, u64),
}

/// The lists of all sets: `near` has the first `ROW` blocks of each, and `far` a list for each set,
/// of up to `beyond` blocks more.
#[derive(Drop)]
pub struct LongLists {
    near: RecencyLists<PlainRows>,
    beyond: usize,
    far: Vec<DeepList<()>>,
}

impl Model for LongLists {
    ghost use Rattle.std.specs.Prelude.{◌+◌};
    ghost use Rattle.profile_core.specs.internal.set_lists.Lists.{Lists};
    ghost use Rattle.profile_core.specs.internal.set_lists.LongLists.{whole_lists, AreSplit};

    ghost Value = { Lists };

    ghost view = { λ l. record {
      depth = l.near.depth + l.beyond;
      lists =
          whole_lists l.near.lists l.far.items;
    } };

    ghost invariant = { λ l. AreSplit l.near l.beyond l.far.items };
}

impl LongLists {
    /// Empty lists for a number of sets.
    pub fn new(alloc: Global, sets: usize, depth: usize) -> Result<LongLists, AllocError>
        requires deep { DEEP ≤ depth }
        requires filled { 1 ≤ sets }
        requires small { sets * depth ≤ 2 ^ 22 }
        ensures { IfOk result (λ r. r ≡ record { depth = depth; lists = replicate sets [] }) }
    {
        let beyond = depth - ROW;
        let near = near_lists(alloc, sets)?;
        let far = far_lists(alloc, sets, beyond)?;
        Ok(LongLists { near, beyond, far })
    }
}

impl SetLists for LongLists {
    ghost view = { λ s. s };

    #[inline(always)]
    fn front(&self, set: usize) -> u64 {
        self.near.front(set)
    }

    #[inline(always)]
    fn has_block(&self, set: usize) -> bool {
        self.near.has_block(set)
    }

    #[inline(always)]
    fn is_second(&self, set: usize, block: u64) -> bool {
        self.near.is_second(set, block)
    }

    #[inline(always)]
    fn bring_second(&mut self, set: usize, block: u64) {
        self.near.bring_second(set, block);
    }

    #[inline(always)]
    fn bring(&mut self, set: usize, block: u64) -> Standing {
        match bring_near(&mut self.near, set, block) {
            InRow::Settled(standing) => standing,
            InRow::Full(held, last) => exchange(&mut self.far[set], held, block, last),
        }
    }

    fn clear(&mut self) {
        self.near.clear();
        clear_all(&mut self.far);
    }

    fn held(&self) -> u64 {
        self.near.held() + held_by(&self.far)
    }
}

/// Empties lists.
fn clear_all(far: &mut [DeepList<()>])
    ensures { far.new ≡ map empty_deep far.old }
{
    for list in far.iter_mut() {
        list.clear();
    }
}

/// How many blocks these lists have.
fn held_by(far: &[DeepList<()>]) -> u64
    requires { sum_by (λ d. length d.blocks) far.now ≤ 2 ^ 22 }
    ensures { result ≡ sum_by (λ d. length d.blocks) far.now }
{
    let mut total = 0;
    for list in far {
        total += list.len() as u64;
    }
    total
}

/// Brings a block to the front of its row.
#[inline(always)]
fn bring_near(near: &mut RecencyLists<PlainRows>, set: usize, block: u64) -> InRow
    requires within { set < length near.old.lists }
    requires two { 2 ≤ near.old.depth }
    requires behind { is_front block (slice_index_or near.old.lists set []) ≡ false }
    requires further { is_second block (slice_index_or near.old.lists set []) ≡ false }
    ensures found { result ≡ in_row_of near.old.depth block (slice_index_or near.old.lists set []) }
    ensures moved { near.new ≡ lists_after_bring near.old set block }
{
    let last = near.last_of_full(set);
    match near.bring(set, block) {
        Standing::Behind(distance) => InRow::Settled(Standing::Behind(distance)),
        Standing::New(held) => match last {
            Some(last) => InRow::Full(held, last),
            None => InRow::Settled(Standing::New(held)),
        },
    }
}

/// An empty list in a row for each set.
fn near_lists(alloc: Global, sets: usize) -> Result<RecencyLists<PlainRows>, AllocError>
    requires { sets * ROW ≤ 2 ^ 22 }
    ensures { IfOk result (λ near. near ≡ record { depth = ROW; lists = replicate sets [] }) }
{
    let rows = PlainRows::new(alloc, sets, ROW - 1)?;
    RecencyLists::new(alloc, rows, sets)
}

/// An empty list for the blocks behind each row.
fn far_lists(alloc: Global, sets: usize, beyond: usize) -> Result<Vec<DeepList<()>>, AllocError>
    requires some { 1 ≤ beyond }
    requires small { beyond ≤ 2 ^ 22 }
    ensures { IfOk result (λ far.
        far.items ≡ replicate sets (record { cap = beyond; blocks = []; values = [] })) }
{
    let mut far = Vec::with_capacity(alloc, sets)?;
    for made in 0..sets {
        far.push(DeepList::new(alloc, beyond, ())?)?;
    }
    Ok(far)
}

/// Takes a block out of the deep list behind a row, if it is there, and puts `last`, which was the
/// last block of the row, in its front. Returns where the block was in the whole list, which has
/// `held` blocks in the row.
fn exchange(rest: &mut DeepList<()>, held: usize, block: u64, last: u64) -> Standing
    requires other { is_in last rest.old.blocks ≡ false }
    requires few { held ≤ 2 ^ 22 }
    requires short { length rest.old.blocks ≤ 2 ^ 22 }
    ensures found { result ≡ rest_standing_of held block rest.old.blocks }
    ensures moved { rest.new ≡ list_after_exchange rest.old block last tt }
{
    let more = rest.len();
    match rest.exchange(block, last, ()).found {
        Some((place, ())) => Standing::Behind(held + place),
        None => Standing::New(held + more),
    }
}
