//! How the blocks of a list are shifted, in its row of blocks or in the rest of that.

ghost use Rattle.std.specs.Prelude.{◌≡◌, ◌+◌, ◌-◌, ◌^◌, ◌<◌, ◌≤◌, ◌∷◌, false, nat_eq, length, take};
ghost use Rattle.std.specs.List.{remove};
ghost use Rattle.profile_core.specs.profile.RecencyList.{index_of, is_front};
ghost use Rattle.profile_core.specs.internal.set_lists.Moves.{is_second, standing_of, shifted_of};
ghost use Rattle.profile_core.specs.internal.set_lists.Moves.{rest_standing_of};
ghost use Rattle.profile_core.specs.internal.set_lists.Lists.{IsRow, IsBroughtInRow};

use crate::set_lists::recency::Standing;
use std::mem;

/// How far a list was shifted. `Found`: up to the block that was looked for, at this stack
/// distance. `Out`: to the end, and this block fell out, which was the last. The caller keeps it if
/// the list has room.
#[derive(Debug, Clone, Copy)]
enum Shifted {
    Found(usize),
    Out(u64),
}

/// Brings a block that is neither the front nor the second of a list to the front. The list grows
/// by one if the block is new and the row has room.
#[inline(always)]
pub fn bring_in_row(front: &mut u64, rest: &mut [u64], len: &mut u32, block: u64) -> Standing
    requires some { 0 < len.old }
    requires row { IsRow rest.old len.old }
    requires behind { is_front block (take len.old (front.old ∷ rest.old)) ≡ false }
    requires further { is_second block (take len.old (front.old ∷ rest.old)) ≡ false }
    ensures found { result ≡ standing_of block (take len.old (front.old ∷ rest.old)) }
    ensures moved { let list = take len.old (front.old ∷ rest.old) in
        IsBroughtInRow block list front.new rest.new len.new }
{
    let held = *len as usize;
    let first = mem::replace(front, block);
    match shift_past(&mut rest[..held - 1], first, block) {
        Shifted::Found(distance) => Standing::Behind(distance),
        Shifted::Out(last) => {
            if held <= rest.len() {
                rest[held - 1] = last;
                *len += 1;
            }
            Standing::New(held)
        }
    }
}

/// Takes a block out of a list whose first two blocks are stored elsewhere, of which it is neither,
/// and puts `second` in front of the others, with which `rest` begins. The list grows by one if the
/// block is new and the rest has room.
#[inline(always)]
pub fn exchange_in_row(rest: &mut [u64], second: u64, len: &mut u32, block: u64) -> Standing
    requires some { 0 < length rest.old }
    requires small { length rest.old ≤ 2 ^ 26 }
    requires two { 2 ≤ len.old }
    requires fits { len.old ≤ length rest.old + 2 }
    requires other { nat_eq second block ≡ false }
    ensures found { result ≡ rest_standing_of 2 block (take (len.old - 2) rest.old) }
    ensures two { 2 ≤ len.new }
    ensures fits { len.new ≤ length rest.old + 2 }
    ensures moved { let list = take (len.old - 2) rest.old in
        take (len.new - 2) rest.new
        ≡ take (length rest.old) (second ∷ remove list (index_of block list)) }
{
    let count = *len as usize;
    let held = count - 2;
    if held > 0 && rest[0] == block {
        rest[0] = second;
        return Standing::Behind(2);
    }
    match shift_past(&mut rest[..held], second, block) {
        Shifted::Found(distance) => Standing::Behind(distance + 1),
        Shifted::Out(last) => {
            if held < rest.len() {
                rest[held] = last;
                *len += 1;
            }
            Standing::New(count)
        }
    }
}

/// `first`, followed by `list`, is the list of a set, of which `block` is neither the first nor the
/// second. Shifts it by one index into `list`, up to the index of `block`, or to the end.
#[inline(always)]
fn shift_past(list: &mut [u64], first: u64, block: u64) -> Shifted
    requires behind { is_front block (first ∷ list.old) ≡ false }
    requires further { is_second block (first ∷ list.old) ≡ false }
    ensures shifted { result ≡ shifted_of block (first ∷ list.old) }
    ensures moved { list.new ≡
        take (length list.old) (remove (first ∷ list.old) (index_of block (first ∷ list.old))) }
{
    let Some(front) = list.first_mut() else {
        return Shifted::Out(first);
    };
    let mut carried = mem::replace(front, first);
    let mut compared: usize = 1;
    // Two per turn: a sweep of one set of up to 4,096 ways takes an eighth less time.
    while compared + 1 < list.len() {
        let found = pass(&mut list[compared], &mut carried, block);
        compared += 1;
        if found {
            return Shifted::Found(compared);
        }
        let found = pass(&mut list[compared], &mut carried, block);
        compared += 1;
        if found {
            return Shifted::Found(compared);
        }
    }
    if compared == list.len() {
        return Shifted::Out(carried);
    }
    let found = pass(&mut list[compared], &mut carried, block);
    compared += 1;
    if found {
        Shifted::Found(compared)
    } else {
        Shifted::Out(carried)
    }
}

/// Puts the carried block into an entry, and carries the one that was there from now on. Returns
/// whether that is `block`.
#[inline(always)]
fn pass(entry: &mut u64, carried: &mut u64, block: u64) -> bool
    ensures put { entry.new ≡ carried.old }
    ensures carried { carried.new ≡ entry.old }
    ensures found { result ≡ nat_eq entry.old block }
{
    mem::swap(entry, carried);
    *carried == block
}
