//! Sixteen bytes at once: hexadecimal digits, and the byte that ends them.
ghost use Rattle.std.specs.Prelude.{◌≡◌, ℕ, ◌+◌, ◌-◌, ◌%◌, ◌≤◌, true, false, map, nat_le, nat_lt};
ghost use Rattle.std.specs.Prelude.{if◌then◌else◌, bit_or, length, slice_index};
ghost use Rattle.std.specs.Char.{digit_value, is_digit};
ghost use Rattle.std.specs.Int.Digits.{number_from_digits, AllBelowBase};
ghost use Rattle.std.specs.Simd.Lanes.{mask_l, Each1};
ghost use Rattle.std.specs.Fmt.{digit_glyph};
ghost use Rattle.memchr.specs.Find.{is_byte};
ghost use Rattle.trace_core.specs.internal.HexadecimalDigits.{nibbles, hexadecimal_digits};

use std::simd::prelude::*;

/// A bit for each byte that is a hexadecimal digit, the lowest for the first byte.
#[inline(always)]
pub(crate) fn digit_mask(bytes: u8x16) -> u64
    ensures { result ≡ mask_l (map (λ c. is_digit c 16) bytes) }
{
    let ascii = ascii_lanes(bytes);
    let digits = lanes_within(ascii, b'0', 9) | letters(ascii);
    digits.simd_eq(u8x16::splat(255)).to_bitmask()
}

/// A bit for each byte that is this one, the lowest for the first.
#[inline(always)]
pub(crate) fn byte_mask(bytes: u8x16, byte: u8) -> u64
    ensures { result ≡ mask_l (map (is_byte byte) bytes) }
{
    bytes.simd_eq(u8x16::splat(byte)).to_bitmask()
}

/// The values of the bytes that are hexadecimal digits, and any below 16 for the others. A letter's
/// lowest bits are 9 below its value.
#[inline(always)]
pub(crate) fn digit_values(bytes: u8x16) -> u8x16
    ensures lanes { length result ≡ 16 }
    ensures below { AllBelowBase 16 result }
    ensures values { (k : ℕ) → is_digit (slice_index bytes k) 16 ≡ true →
        slice_index result k ≡ digit_value (slice_index bytes k) }
{
    (bytes + (letters(ascii_lanes(bytes)) & u8x16::splat(9))) & u8x16::splat(15)
}

/// The number that sixteen digits write. A product brings the two of each pair together, in the
/// higher byte of their lane. These bytes are read from the last to the first, by one instruction
/// of the processor.
#[inline(always)]
pub(crate) fn number_of(digits: u8x16) -> u64
    requires { AllBelowBase 16 digits }
    ensures { result ≡ number_from_digits 16 digits }
{
    let words = u16x8::from_le_bytes(digits);
    let pairs = (words * u16x8::splat((16 << 8) + 1)).to_le_bytes();
    u64x1::from_le_bytes(pairs.swizzle([15, 13, 11, 9, 7, 5, 3, 1])).to_array()[0]
}

/// The bytes, where 127 stands for each that is no ASCII. That is no digit either, and lanes up to
/// it can be compared as signed ones, for which the processor has an instruction: three less.
#[inline(always)]
fn ascii_lanes(bytes: u8x16) -> u8x16
    ensures lanes { length result ≡ 16 }
    ensures low { Each1 (λ c. c ≤ 127) result }
    ensures values { result ≡ map (λ c. if nat_lt c 127 then c else 127) bytes }
{
    bytes.simd_min(u8x16::splat(127))
}

/// 255 for each byte that is a letter from `a` to `f` or from `A` to `F`, and 0 for the others.
#[inline(always)]
fn letters(ascii: u8x16) -> u8x16
    requires low { Each1 (λ c. c ≤ 127) ascii }
    ensures { result ≡ map (λ c. if nat_le ((bit_or c 32 + (256 - 97)) % 256) 5 then 255 else 0)
        ascii }
{
    lanes_within(ascii | u8x16::splat(32), b'a', 5)
}

/// 255 for each byte that is `first` or at most `more` above it, and 0 for the others.
#[inline(always)]
fn lanes_within(ascii: u8x16, first: u8, more: u8) -> u8x16
    requires low { Each1 (λ c. c ≤ 127) ascii }
    requires some { 1 ≤ first }
    requires begins { first ≤ 127 }
    requires ends { more ≤ 127 }
    ensures { result ≡ map (λ c. if nat_le ((c + (256 - first)) % 256) more then 255 else 0) ascii }
{
    let moved = ascii.cast::<i8>() + u8x16::splat(128 - first).cast::<i8>();
    let last = u8x16::splat(more).cast::<i8>() + i8x16::splat(i8::MIN);
    moved
        .simd_le(last)
        .select(u8x16::splat(255), u8x16::splat(0))
}

/// The sixteen hexadecimal digits of a number in lower case, leading zeros too.
#[inline(always)]
pub(crate) fn sixteen_digits(number: u64) -> u8x16
    ensures { result ≡ hexadecimal_digits 16 number }
{
    digits_of(nibbles_of(number))
}

/// The values of these digits.
#[inline(always)]
fn nibbles_of(number: u64) -> u8x16
    ensures { result ≡ nibbles 16 number }
{
    let bytes = u64x2::from_array([number, 0])
        .to_le_bytes()
        .extract::<0, 8>();
    let bytes = bytes.reverse().cast::<u16>();
    let pairs = (bytes >> u16x8::splat(4)) + ((bytes & u16x8::splat(15)) << u16x8::splat(8));
    pairs.to_le_bytes()
}

/// The digits of these values.
#[inline(always)]
fn digits_of(values: u8x16) -> u8x16
    requires lanes { length values ≡ 16 }
    requires below { AllBelowBase 16 values }
    ensures { result ≡ map (digit_glyph false) values }
{
    u8x16::from_array(*b"0123456789abcdef").swizzle_dyn(values)
}
