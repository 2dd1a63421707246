//! How a block is brought to the front of a list that a row begins with, and its clean depth with
//! it.
ghost use Rattle.std.specs.Prelude.{◌≡◌, ◌+◌, ◌-◌, ◌^◌, ◌<◌, ◌≤◌, ◌∷◌, length, take, nat_eq};
ghost use Rattle.std.specs.Prelude.{if◌then◌else◌, slice_index};
ghost use Rattle.std.specs.List.{remove};
ghost use Rattle.profile_core.specs.profile.RecencyList.{index_of, move_to_front};
ghost use Rattle.full_profile.specs.internal.Marked.{marked_touch_of, cleans_after};
ghost use Rattle.full_profile.specs.internal.Rows.{marked_shift_of};

use crate::marked_lists::{MarkedTouch, writes};
use std::mem;
use trace_core::Access;

/// How far a list was shifted. `Found`: up to the block that was looked for, at this index, with
/// this clean depth. `Out`: to the end, and this block fell out with its clean depth.
#[derive(Debug, Clone, Copy)]
enum Shifted {
    Found(usize, u32),
    Out(u64, u32),
}

/// Brings a block to the front of a list by an access: the list is the first `len` blocks of a row.
/// It grows by one if the block is new and the row has room.
#[inline(always)]
pub fn bring_in_row(
    blocks: &mut [u64],
    cleans: &mut [u32],
    len: &mut u32,
    block: u64,
    access: Access,
) -> MarkedTouch
    requires small { length blocks.old ≤ 2 ^ 22 }
    requires some { 1 ≤ length blocks.old }
    requires beside { length cleans.old ≡ length blocks.old }
    requires fits { len.old ≤ length blocks.old }
    ensures found { result ≡ marked_touch_of (length blocks.old) block
        (take len.old blocks.old) (take len.old cleans.old) }
    ensures some { 0 < len.new }
    ensures fits { len.new ≤ length blocks.old }
    ensures blocks { take len.new blocks.new
        ≡ take (length blocks.old) (move_to_front block (take len.old blocks.old)) }
    ensures cleans { take len.new cleans.new ≡ cleans_after (length blocks.old) access block
        (take len.old blocks.old) (take len.old cleans.old) }
{
    let held = *len as usize;
    let written = writes(access);
    let clean_if_new = if written { 0 } else { blocks.len() as u32 };
    match shift_past(
        &mut blocks[..held],
        &mut cleans[..held],
        block,
        clean_if_new,
    ) {
        Shifted::Found(distance, clean) => {
            if !written {
                cleans[0] = clean.max(distance as u32);
            }
            MarkedTouch::Behind(distance, clean)
        }
        Shifted::Out(last, clean) => {
            if held < blocks.len() {
                blocks[held] = last;
                cleans[held] = clean;
                *len += 1;
                MarkedTouch::New(held)
            } else {
                MarkedTouch::Full(clean)
            }
        }
    }
}

/// How many blocks of a list are moved one by one, as they are passed. Most are found among these.
const NEAR: usize = 16;

/// Puts a block with a clean depth in front of a list, and shifts the others by one index, up to
/// where the block stood, or to the end. The first `NEAR` are passed one by one, and those behind
/// them are moved at once: a full sweep of up to 64 ways takes a tenth less time.
#[inline(always)]
fn shift_past(blocks: &mut [u64], cleans: &mut [u32], block: u64, clean: u32) -> Shifted
    requires { length cleans.old ≡ length blocks.old }
    ensures shifted { result ≡ marked_shift_of block block blocks.old clean cleans.old }
    ensures blocks { blocks.new
        ≡ take (length blocks.old) (move_to_front block blocks.old) }
    ensures cleans { cleans.new ≡ take (length cleans.old)
        (clean ∷ remove cleans.old (index_of block blocks.old)) }
{
    if blocks.len() <= NEAR {
        return shift_by_one(blocks, cleans, block, clean);
    }
    let (near, far) = blocks.split_at_mut(NEAR);
    let (near_cleans, far_cleans) = cleans.split_at_mut(NEAR);
    match shift_by_one(near, near_cleans, block, clean) {
        Shifted::Found(index, clean) => Shifted::Found(index, clean),
        Shifted::Out(last, clean) => match shift_at_once(far, far_cleans, last, clean, block) {
            Shifted::Found(index, clean) => Shifted::Found(NEAR + index, clean),
            Shifted::Out(last, clean) => Shifted::Out(last, clean),
        },
    }
}

/// Shifts a list as `shift_past` does, one block after the other.
#[inline(always)]
fn shift_by_one(blocks: &mut [u64], cleans: &mut [u32], block: u64, clean: u32) -> Shifted
    requires { length cleans.old ≡ length blocks.old }
    ensures shifted { result ≡ marked_shift_of block block blocks.old clean cleans.old }
    ensures blocks { blocks.new
        ≡ take (length blocks.old) (move_to_front block blocks.old) }
    ensures cleans { cleans.new ≡ take (length cleans.old)
        (clean ∷ remove cleans.old (index_of block blocks.old)) }
{
    let mut carried = block;
    let mut carried_clean = clean;
    for index in 0..blocks.len() {
        mem::swap(&mut blocks[index], &mut carried);
        mem::swap(&mut cleans[index], &mut carried_clean);
        if carried == block {
            return Shifted::Found(index, carried_clean);
        }
    }
    Shifted::Out(carried, carried_clean)
}

/// Puts `first` with a clean depth in front of the end of a list, in which `block` is looked for.
/// The others are shifted by one index, up to where that stood, or to the end.
#[inline(never)]
fn shift_at_once(
    blocks: &mut [u64],
    cleans: &mut [u32],
    first: u64,
    clean: u32,
    block: u64,
) -> Shifted
    requires some { 0 < length blocks.old }
    requires beside { length cleans.old ≡ length blocks.old }
    ensures shifted { result ≡ marked_shift_of block first blocks.old clean cleans.old }
    ensures blocks { blocks.new ≡ take (length blocks.old)
        (first ∷ remove blocks.old (index_of block blocks.old)) }
    ensures cleans { cleans.new ≡ take (length cleans.old)
        (clean ∷ remove cleans.old (index_of block blocks.old)) }
{
    let found = find(blocks, block);
    if found < blocks.len() {
        let (_, clean) = move_up(blocks, cleans, first, clean, found);
        Shifted::Found(found, clean)
    } else {
        let (last, clean) = move_up(blocks, cleans, first, clean, found - 1);
        Shifted::Out(last, clean)
    }
}

/// Puts a block with a clean depth in front of a list, and shifts the others by one index, up to
/// `last`. Returns the block that stood there, and its clean depth.
#[inline(always)]
fn move_up(
    blocks: &mut [u64],
    cleans: &mut [u32],
    first: u64,
    clean: u32,
    last: usize,
) -> (u64, u32)
    requires within { last < length blocks.old }
    requires beside { length cleans.old ≡ length blocks.old }
    ensures gone { result.0 ≡ slice_index blocks.old last }
    ensures gone_clean { result.1 ≡ slice_index cleans.old last }
    ensures blocks { blocks.new ≡ first ∷ remove blocks.old last }
    ensures cleans { cleans.new ≡ clean ∷ remove cleans.old last }
{
    let gone = (blocks[last], cleans[last]);
    blocks.copy_within(..last, 1);
    blocks[0] = first;
    cleans.copy_within(..last, 1);
    cleans[0] = clean;
    gone
}

/// The index of a block in a list, or the length of the list. It compares four blocks in a turn,
/// since a compiler doesn't unroll a search.
#[inline(always)]
fn find(blocks: &[u64], block: u64) -> usize
    ensures { result ≡ index_of block blocks.now }
{
    let mut at = 0;
    while blocks.len() - at >= 4 {
        for index in at..at + 4 {
            if blocks[index] == block {
                return index;
            }
        }
        at += 4;
    }
    for index in at..blocks.len() {
        if blocks[index] == block {
            return index;
        }
    }
    blocks.len()
}
