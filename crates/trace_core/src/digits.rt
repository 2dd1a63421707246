//! Digits, and the numbers that they write.
ghost use Rattle.std.specs.Prelude.{◌≡◌, ℕ, ◌+◌, ◌*◌, ◌^◌, ◌<◌, ◌≤◌, ◌++◌, List, Some, false};
ghost use Rattle.std.specs.Prelude.{length, slice_index, IfSome, if◌then◌else◌};
ghost use Rattle.std.specs.Char.{digit_value, is_digit};
ghost use Rattle.trace_core.specs.Fields.{WritesNumber, number_written};

use crate::nibbles::{digit_mask, digit_values, number_of};
use std::simd::prelude::*;

/// The number that 1 to 16 hexadecimal digits in front write, what follows them, and how many they
/// are.
#[inline(always)]
pub(crate) fn split_hexadecimal(text: &[u8]) -> Option<(u64, &[u8], usize)>
    ensures parts { IfSome result (λ parts. (digits : List ℕ) × (text.now ≡ digits ++ parts.1.now)
        × (number_written 16 16 digits ≡ Some parts.0)) }
    ensures many { IfSome result (λ parts. (length text.now ≡ length parts.1.now + parts.2)
        × (parts.2 ≤ 16)) }
{
    let (value, len) = read_hexadecimal(text);
    if len == 0 {
        return None;
    }
    let (_, rest) = text.split_at(len);
    Some((value, rest, len))
}

/// The number that 1 to `most` digits in front write, and what follows them.
#[inline(always)]
pub(crate) fn split_number(radix: u8, most: usize, text: &[u8]) -> Option<(u64, &[u8])>
    requires some { 0 < radix }
    requires known { radix ≤ 16 }
    requires fits { radix ^ most ≤ 2 ^ 64 }
    ensures parts { IfSome result (λ parts. (digits : List ℕ) × (text.now ≡ digits ++ parts.1.now)
        × (number_written radix most digits ≡ Some parts.0)) }
    ensures bound { IfSome result (λ parts. parts.0 < radix ^ most) }
    ensures near { IfSome result (λ parts. length text.now ≤ length parts.1.now + most) }
{
    let (value, len) = read_digits(radix, most, text);
    if len == 0 {
        return None;
    }
    let (_, rest) = text.split_at(len);
    Some((value, rest))
}

/// The number that 1 to `most` digits write.
#[inline(always)]
pub(crate) fn read_number(radix: u8, most: usize, digits: &[u8]) -> Option<u64>
    requires some { 0 < radix }
    requires known { radix ≤ 16 }
    requires fits { radix ^ most ≤ 2 ^ 64 }
    ensures value { result ≡ number_written radix most digits.now }
    ensures bound { IfSome result (λ n. n < radix ^ most) }
{
    let (value, len) = read_digits(radix, most, digits);
    if len == 0 || len < digits.len() {
        return None;
    }
    Some(value)
}

/// The number that the hexadecimal digits in front write, and how many they are; at most 16 are
/// read.
#[inline(always)]
fn read_hexadecimal(text: &[u8]) -> (u64, usize)
    ensures value { WritesNumber 16 text.now result }
    ensures most { result.1 ≤ 16 }
{
    if text.len() < 16 {
        return more_digits(16, text, text.len(), (0, 0));
    }
    front_hexadecimal(text)
}

/// `read_hexadecimal` where there are at least 16 bytes. All are read at once, so no branch depends
/// on how many digits they are.
#[inline(always)]
fn front_hexadecimal(text: &[u8]) -> (u64, usize)
    requires room { 16 ≤ length text.now }
    ensures value { WritesNumber 16 text.now result }
    ensures most { result.1 ≤ 16 }
{
    let bytes = u8x16::from_slice(text);
    let len = digit_mask(bytes).trailing_ones() as usize;
    if len == 0 {
        return (0, 0);
    }
    (number_of(digit_values(bytes)) >> (64 - 4 * len), len)
}

/// The number that `len` hexadecimal digits in front write. There is none if they are fewer, or
/// more.
#[inline(always)]
pub(crate) fn hexadecimal_of(text: &[u8], len: usize) -> Option<u64>
    requires room { 16 ≤ length text.now }
    requires some { 1 ≤ len }
    ensures value { IfSome result (λ value. WritesNumber 16 text.now (value, len)) }
    ensures most { IfSome result (λ _. len ≤ 16) }
{
    let bytes = u8x16::from_slice(text);
    if digit_mask(bytes).trailing_ones() as usize != len {
        return None;
    }
    Some(number_of(digit_values(bytes)) >> (64 - 4 * len))
}

/// The number that the digits in front write, and how many they are; at most `most` are read. Where
/// the text has `most` bytes, the loop has a constant bound, and no step tests for the text's end.
#[inline(always)]
fn read_digits(radix: u8, most: usize, text: &[u8]) -> (u64, usize)
    requires some { 0 < radix }
    requires known { radix ≤ 16 }
    requires fits { radix ^ most ≤ 2 ^ 64 }
    ensures value { WritesNumber radix text.now result }
    ensures most { result.1 ≤ most }
    ensures stops { result.1 < most → result.1 < length text.now →
        is_digit (slice_index text.now result.1) radix ≡ false }
{
    if text.len() < most {
        return more_digits(radix, text, text.len(), (0, 0));
    }
    more_digits(radix, text, most, (0, 0))
}

/// Reads on from `front`, the number and the count of the digits already read, as far as there are
/// digits, but not past `end`: so many digits always write a number below 2^64.
#[inline(always)]
fn more_digits(radix: u8, text: &[u8], end: usize, front: (u64, usize)) -> (u64, usize)
    requires some { 0 < radix }
    requires known { radix ≤ 16 }
    requires fits { radix ^ end ≤ 2 ^ 64 }
    requires within { (front.1 ≤ end) × (end ≤ length text.now) }
    requires begun { WritesNumber radix text.now front }
    ensures value { WritesNumber radix text.now result }
    ensures end { result.1 ≤ end }
    ensures stops { result.1 < end → is_digit (slice_index text.now result.1) radix ≡ false }
{
    let (mut value, from) = front;
    for at in from..end {
        let digit = hexadecimal_digit(text[at]);
        if digit >= radix as u32 {
            return (value, at);
        }
        value = value * radix as u64 + digit as u64;
    }
    (value, end)
}

/// The value of a hexadecimal digit, or `NO_DIGIT` for another byte.
#[inline(always)]
fn hexadecimal_digit(c: u8) -> u32
    ensures { result ≡ if is_digit c 16 then digit_value c else NO_DIGIT }
{
    DIGITS[c as usize]
}

/// The table's entry for a byte that is not a hexadecimal digit.
const NO_DIGIT: u32 = 65536;

/// For each byte its value as a hexadecimal digit, or `NO_DIGIT`.
static DIGITS: [u32; 256] = [
    NO_DIGIT, NO_DIGIT, NO_DIGIT, NO_DIGIT, NO_DIGIT, NO_DIGIT, NO_DIGIT, NO_DIGIT, NO_DIGIT,
    NO_DIGIT, NO_DIGIT, NO_DIGIT, NO_DIGIT, NO_DIGIT, NO_DIGIT, NO_DIGIT, NO_DIGIT, NO_DIGIT,
    NO_DIGIT, NO_DIGIT, NO_DIGIT, NO_DIGIT, NO_DIGIT, NO_DIGIT, NO_DIGIT, NO_DIGIT, NO_DIGIT,
    NO_DIGIT, NO_DIGIT, NO_DIGIT, NO_DIGIT, NO_DIGIT, NO_DIGIT, NO_DIGIT, NO_DIGIT, NO_DIGIT,
    NO_DIGIT, NO_DIGIT, NO_DIGIT, NO_DIGIT, NO_DIGIT, NO_DIGIT, NO_DIGIT, NO_DIGIT, NO_DIGIT,
    NO_DIGIT, NO_DIGIT, NO_DIGIT, 0, 1, 2, 3, 4, 5, 6, 7, 8, 9, NO_DIGIT, NO_DIGIT, NO_DIGIT,
    NO_DIGIT, NO_DIGIT, NO_DIGIT, NO_DIGIT, 10, 11, 12, 13, 14, 15, NO_DIGIT, NO_DIGIT, NO_DIGIT,
    NO_DIGIT, NO_DIGIT, NO_DIGIT, NO_DIGIT, NO_DIGIT, NO_DIGIT, NO_DIGIT, NO_DIGIT, NO_DIGIT,
    NO_DIGIT, NO_DIGIT, NO_DIGIT, NO_DIGIT, NO_DIGIT, NO_DIGIT, NO_DIGIT, NO_DIGIT, NO_DIGIT,
    NO_DIGIT, NO_DIGIT, NO_DIGIT, NO_DIGIT, NO_DIGIT, 10, 11, 12, 13, 14, 15, NO_DIGIT, NO_DIGIT,
    NO_DIGIT, NO_DIGIT, NO_DIGIT, NO_DIGIT, NO_DIGIT, NO_DIGIT, NO_DIGIT, NO_DIGIT, NO_DIGIT,
    NO_DIGIT, NO_DIGIT, NO_DIGIT, NO_DIGIT, NO_DIGIT, NO_DIGIT, NO_DIGIT, NO_DIGIT, NO_DIGIT,
    NO_DIGIT, NO_DIGIT, NO_DIGIT, NO_DIGIT, NO_DIGIT, NO_DIGIT, NO_DIGIT, NO_DIGIT, NO_DIGIT,
    NO_DIGIT, NO_DIGIT, NO_DIGIT, NO_DIGIT, NO_DIGIT, NO_DIGIT, NO_DIGIT, NO_DIGIT, NO_DIGIT,
    NO_DIGIT, NO_DIGIT, NO_DIGIT, NO_DIGIT, NO_DIGIT, NO_DIGIT, NO_DIGIT, NO_DIGIT, NO_DIGIT,
    NO_DIGIT, NO_DIGIT, NO_DIGIT, NO_DIGIT, NO_DIGIT, NO_DIGIT, NO_DIGIT, NO_DIGIT, NO_DIGIT,
    NO_DIGIT, NO_DIGIT, NO_DIGIT, NO_DIGIT, NO_DIGIT, NO_DIGIT, NO_DIGIT, NO_DIGIT, NO_DIGIT,
    NO_DIGIT, NO_DIGIT, NO_DIGIT, NO_DIGIT, NO_DIGIT, NO_DIGIT, NO_DIGIT, NO_DIGIT, NO_DIGIT,
    NO_DIGIT, NO_DIGIT, NO_DIGIT, NO_DIGIT, NO_DIGIT, NO_DIGIT, NO_DIGIT, NO_DIGIT, NO_DIGIT,
    NO_DIGIT, NO_DIGIT, NO_DIGIT, NO_DIGIT, NO_DIGIT, NO_DIGIT, NO_DIGIT, NO_DIGIT, NO_DIGIT,
    NO_DIGIT, NO_DIGIT, NO_DIGIT, NO_DIGIT, NO_DIGIT, NO_DIGIT, NO_DIGIT, NO_DIGIT, NO_DIGIT,
    NO_DIGIT, NO_DIGIT, NO_DIGIT, NO_DIGIT, NO_DIGIT, NO_DIGIT, NO_DIGIT, NO_DIGIT, NO_DIGIT,
    NO_DIGIT, NO_DIGIT, NO_DIGIT, NO_DIGIT, NO_DIGIT, NO_DIGIT, NO_DIGIT, NO_DIGIT, NO_DIGIT,
    NO_DIGIT, NO_DIGIT, NO_DIGIT, NO_DIGIT, NO_DIGIT, NO_DIGIT, NO_DIGIT, NO_DIGIT, NO_DIGIT,
    NO_DIGIT, NO_DIGIT, NO_DIGIT, NO_DIGIT, NO_DIGIT, NO_DIGIT, NO_DIGIT, NO_DIGIT, NO_DIGIT,
    NO_DIGIT, NO_DIGIT, NO_DIGIT, NO_DIGIT, NO_DIGIT, NO_DIGIT, NO_DIGIT, NO_DIGIT, NO_DIGIT,
    NO_DIGIT, NO_DIGIT, NO_DIGIT, NO_DIGIT, NO_DIGIT, NO_DIGIT, NO_DIGIT,
];
