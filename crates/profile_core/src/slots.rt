//! Numbers in slots, for lists that change at each step. No number is moved: only the order of the
//! slots changes.

ghost use Rattle.std.specs.Prelude.{◌≡◌, ◌^◌, ◌<◌, ◌≤◌, ◌∷◌, length, map, slice_index, slice_set};
ghost use Rattle.std.specs.Prelude.{◌==◌};
ghost use Rattle.std.specs.Simd.Lanes.{mask_l};
ghost use Rattle.std.specs.List.{remove};
ghost use Rattle.profile_core.specs.Slots.{mark_of, ordered_numbers, IsOrder};
ghost use Rattle.profile_core.specs.internal.set_lists.Moves.{standing_of};

use crate::set_lists::recency::Standing;
use std::simd::prelude::*;

/// How many slots there are: as many as a vector has lanes.
pub const SLOTS: usize = 16;

/// An odd number whose products have their high bits mixed from all bits (a prime of xxHash, Collet
/// 2012).
const FACTOR: u32 = 0x27d4_eb2f;

/// Sixteen numbers in an order. Each slot has one of `numbers`. `order` has the slots, each at the
/// place of its number. `marks` has, at each place, the mark of the number there: a byte by which
/// most numbers differ.
#[derive(Clone, Copy, Debug)]
pub struct Slots {
    pub marks: [u8; SLOTS],
    pub order: [u8; SLOTS],
    pub numbers: [u64; SLOTS],
}

/// Slots that are all 0.
pub const BLANK: Slots = Slots {
    marks: [0; SLOTS],
    order: [0, 1, 2, 3, 4, 5, 6, 7, 8, 9, 10, 11, 12, 13, 14, 15],
    numbers: [0; SLOTS],
};

impl Slots {
    /// Where a number is among the first `held`, or that it is not there. It is compared only with
    /// those that have its mark; usually there is at most one.
    #[inline(always)]
    pub fn find(&self, held: usize, number: u64) -> Standing
        requires sound { IsOrder self.now.marks self.now.order self.now.numbers }
        requires most { held ≤ 16 }
        ensures { result
            ≡ standing_of number (ordered_numbers self.now.order self.now.numbers held) }
    {
        let mut place = 0;
        let mut left = lanes_with(&self.marks, mark_of(number));
        while left != 0 {
            let others = left.trailing_zeros();
            let next = place + others as usize;
            if next >= held {
                return Standing::New(held);
            }
            if self.numbers[self.order[next] as usize] == number {
                return Standing::Behind(next);
            }
            place = next + 1;
            left = left >> others >> 1;
        }
        Standing::New(held)
    }

    /// Replaces the number at a place, and brings its slot to the front. Returns the slot. What a
    /// caller keeps beside each number, by its slot, needs no move: only what this slot has is new.
    #[inline(always)]
    pub fn put(&mut self, place: usize, number: u64) -> usize
        requires sound { IsOrder self.old.marks self.old.order self.old.numbers }
        requires within { place < 16 }
        ensures slot { result ≡ slice_index self.old.order place }
        ensures order { self.new.order ≡ result ∷ remove self.old.order place }
        ensures numbers { self.new.numbers ≡ slice_set self.old.numbers result number }
        ensures sound { IsOrder self.new.marks self.new.order self.new.numbers }
        ensures moved { ordered_numbers self.new.order self.new.numbers 16
            ≡ number ∷ remove (ordered_numbers self.old.order self.old.numbers 16) place }
    {
        let slot = self.order[place];
        self.numbers[slot as usize] = number;
        turn_with(&mut self.marks, place, mark_of(number));
        turn_with(&mut self.order, place, slot);
        slot as usize
    }
}

/// A byte by which most numbers differ, by their lower 32 bits: a product of 64 bits would take two
/// instructions more. Two bytes of the product are mixed: with one alone, sixteen numbers at a
/// stride of 2,995 have the same mark. For each stride below 2^20, sixteen numbers were tried, from
/// four first numbers each. At powers of two 12 or more of the marks differ, and in one trial of
/// 260 fewer than 10. At a few strides all marks are the same; the least of these is 46,187.
#[inline(always)]
fn mark_of(number: u64) -> u8
    ensures { result ≡ mark_of number }
{
    let product = ((number % (1 << 32)) as u32).wrapping_mul(FACTOR);
    (product >> 24) as u8 ^ (product >> 16 & 0xff) as u8
}

/// For each place: the order of a vector's lanes after the lane of that place came to the front.
static TURNS: [[u8; SLOTS]; SLOTS] = [
    [0, 1, 2, 3, 4, 5, 6, 7, 8, 9, 10, 11, 12, 13, 14, 15],
    [1, 0, 2, 3, 4, 5, 6, 7, 8, 9, 10, 11, 12, 13, 14, 15],
    [2, 0, 1, 3, 4, 5, 6, 7, 8, 9, 10, 11, 12, 13, 14, 15],
    [3, 0, 1, 2, 4, 5, 6, 7, 8, 9, 10, 11, 12, 13, 14, 15],
    [4, 0, 1, 2, 3, 5, 6, 7, 8, 9, 10, 11, 12, 13, 14, 15],
    [5, 0, 1, 2, 3, 4, 6, 7, 8, 9, 10, 11, 12, 13, 14, 15],
    [6, 0, 1, 2, 3, 4, 5, 7, 8, 9, 10, 11, 12, 13, 14, 15],
    [7, 0, 1, 2, 3, 4, 5, 6, 8, 9, 10, 11, 12, 13, 14, 15],
    [8, 0, 1, 2, 3, 4, 5, 6, 7, 9, 10, 11, 12, 13, 14, 15],
    [9, 0, 1, 2, 3, 4, 5, 6, 7, 8, 10, 11, 12, 13, 14, 15],
    [10, 0, 1, 2, 3, 4, 5, 6, 7, 8, 9, 11, 12, 13, 14, 15],
    [11, 0, 1, 2, 3, 4, 5, 6, 7, 8, 9, 10, 12, 13, 14, 15],
    [12, 0, 1, 2, 3, 4, 5, 6, 7, 8, 9, 10, 11, 13, 14, 15],
    [13, 0, 1, 2, 3, 4, 5, 6, 7, 8, 9, 10, 11, 12, 14, 15],
    [14, 0, 1, 2, 3, 4, 5, 6, 7, 8, 9, 10, 11, 12, 13, 15],
    [15, 0, 1, 2, 3, 4, 5, 6, 7, 8, 9, 10, 11, 12, 13, 14],
];

/// A lane of 255, and fifteen of 0.
static FIRST_LANE: [u8; SLOTS] = [255, 0, 0, 0, 0, 0, 0, 0, 0, 0, 0, 0, 0, 0, 0, 0];

/// Puts a new lane in front of sixteen. The lanes before a place move one place back, and the lane
/// of that place is gone.
#[inline(always)]
fn turn_with(lanes: &mut [u8; SLOTS], place: usize, first: u8)
    requires within { place < 16 }
    requires all { length lanes.old ≡ 16 }
    ensures { lanes.new ≡ first ∷ remove lanes.old place }
{
    let turned = u8x16::from_array(*lanes).swizzle_dyn(u8x16::from_array(TURNS[place]));
    // All lanes are stored at once, since a load of a vector waits for stores of its parts.
    u8x16::from_array(FIRST_LANE)
        .simd_eq(u8x16::splat(255))
        .select(u8x16::splat(first), turned)
        .copy_to_slice(&mut lanes[..]);
}

/// A bit for each lane, the lowest for the first: 1 if the lane is this mark.
#[inline(always)]
fn lanes_with(marks: &[u8; SLOTS], mark: u8) -> u64
    requires { length marks.now ≡ 16 }
    ensures { result ≡ mask_l (map (λ m. m == mark) marks.now) }
{
    u8x16::from_array(*marks)
        .simd_eq(u8x16::splat(mark))
        .to_bitmask()
}
