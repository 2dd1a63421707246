//! A text that is put together in a buffer of fixed size.
ghost use Rattle.std.specs.Prelude.{◌≡◌, ◌<◌, ◌≤◌, ◌^◌};
ghost use Rattle.trace_core.specs.Text.{hexadecimal};
ghost use Rattle.trace_core.specs.internal.HexadecimalDigits.{hexadecimal_digits};

use crate::nibbles::sixteen_digits;
use itoa::Buffer;
use std::marker::Model;
use std::simd::prelude::*;

/// The most digits of a number in decimal.
pub const DECIMAL: usize = 20;

/// The most digits of a number in hexadecimal.
pub const HEXADECIMAL: usize = 16;

/// A text of at most `CAPACITY` bytes, to which pieces are added. It takes no memory from the heap.
#[derive(Drop)]
pub struct Text<const CAPACITY: usize> {
    bytes: [u8; CAPACITY],
    len: usize,
}

impl<const CAPACITY: usize> Model for Text<CAPACITY> {
    ghost use Rattle.std.specs.Prelude.{◌≤◌, List, ℕ, take};

    ghost Value = { List ℕ };

    ghost view = { λ t. take t.len t.bytes };

    ghost invariant = { λ t. t.len ≤ CAPACITY };
}

impl<const CAPACITY: usize> Text<CAPACITY> {
    ghost use Rattle.std.specs.Prelude.{◌≡◌, ◌+◌, ◌≤◌, ◌++◌, [], length, take, decimal};

    /// An empty text.
    pub fn new() -> Self
        ensures { result ≡ [] }
    {
        Text {
            bytes: [0; CAPACITY],
            len: 0,
        }
    }

    /// Makes it empty.
    pub fn clear(&mut self)
        ensures { self.new ≡ [] }
    {
        self.len = 0;
    }

    /// Its bytes.
    pub fn as_slice(&self) -> &[u8]
        ensures { result.now ≡ self.now }
    {
        &self.bytes[..self.len]
    }

    /// Adds bytes.
    #[inline(always)]
    pub fn push(&mut self, piece: &[u8])
        requires { length self.old + length piece.now ≤ CAPACITY }
        ensures { self.new ≡ self.old ++ piece.now }
    {
        let end = self.len + piece.len();
        let bytes = &mut self.bytes[..];
        bytes[self.len..end].copy_from_slice(piece);
        self.len = end;
    }

    /// Adds a number in decimal digits.
    #[inline(always)]
    pub fn push_decimal(&mut self, number: u64)
        requires { length self.old + DECIMAL ≤ CAPACITY }
        ensures value { self.new ≡ self.old ++ decimal number }
        ensures short { length self.new ≤ length self.old + DECIMAL }
    {
        if number < 10 {
            self.push(&[b'0' + number as u8]);
        } else {
            self.push_long_decimal(number);
        }
    }

    /// Adds a number of any length. It is a function of its own, so that the path of the many
    /// numbers of one digit stays short.
    #[inline(never)]
    fn push_long_decimal(&mut self, number: u64)
        requires { length self.old + DECIMAL ≤ CAPACITY }
        ensures value { self.new ≡ self.old ++ decimal number }
        ensures short { length self.new ≤ length self.old + DECIMAL }
    {
        let mut buffer = Buffer::new();
        self.push(buffer.format(number).as_bytes());
    }

    /// Adds a number in lower-case hexadecimal digits. They are moved to the front of sixteen,
    /// which are then made and stored all at once, so no branch depends on how many they are.
    #[inline(always)]
    pub fn push_hexadecimal(&mut self, number: u64)
        requires { length self.old + HEXADECIMAL ≤ CAPACITY }
        ensures value { self.new ≡ self.old ++ hexadecimal number }
        ensures short { length self.new ≤ length self.old + HEXADECIMAL }
    {
        let count = hexadecimal_len(number);
        let digits = sixteen_digits(number << (64 - 4 * count));
        self.push_front(digits, count);
    }

    /// Adds the first of sixteen bytes, as many as `count` says. All are stored, and those behind
    /// them are no part of the text.
    #[inline(always)]
    fn push_front(&mut self, bytes: u8x16, count: usize)
        requires lanes { length bytes ≡ 16 }
        requires within { count ≤ 16 }
        requires room { length self.old + 16 ≤ CAPACITY }
        ensures value { self.new ≡ self.old ++ take count bytes }
        ensures len { length self.new ≡ length self.old + count }
    {
        let longer = self.len + count;
        let room = &mut self.bytes[..];
        bytes.copy_to_slice(&mut room[self.len..]);
        self.len = longer;
    }
}

/// How many hexadecimal digits a number has.
#[inline(always)]
fn hexadecimal_len(number: u64) -> usize
    ensures some { 1 ≤ result }
    ensures most { result ≤ 16 }
    ensures fits { number < 16 ^ result }
    ensures value { hexadecimal_digits result number ≡ hexadecimal number }
{
    16 - number.max(1).leading_zeros() as usize / 4
}
