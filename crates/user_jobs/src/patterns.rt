//! Traces of simple patterns: those for which caches are studied beside whole programs.
use crate::randomness::Random;
use crate::text::{Action, TraceText};
use std::alloc::AllocError;

/// Where the heap of a program lies that is not relocated.
const HEAP: u64 = 0x0421_0000;

/// How many rows and columns a matrix has.
const ORDER: u64 = 200;

/// How many bytes lie from one access of an array to the next: a block of the usual size.
const STRIDE: u64 = 64;

/// How many bytes the large heap has.
const LARGE: u64 = 128 << 20;

/// How many bytes some thousand pages have.
const SOME_PAGES: u64 = 2_000 * 4_096;

/// Writes the data references of a product of two square matrices of 8-byte numbers: for each
/// element a row of the first and a column of the second, and then the store.
pub fn write_matrix(text: &mut TraceText, random: &mut Random) -> Result<(), AllocError> {
    let [first, second, product] = places_of(random);
    for row in 0..text.lines() {
        for column in 0..ORDER {
            for inner in 0..ORDER {
                text.add(Action::Load, element(first, row % ORDER, inner), 8)?;
                text.add(Action::Load, element(second, inner, column), 8)?;
            }
            text.add(Action::Store, element(product, row % ORDER, column), 8)?;
            if text.is_full() {
                return Ok(());
            }
        }
    }
    Ok(())
}

/// Writes two loads and a store on each step through three arrays, a block a step.
pub fn write_stream(text: &mut TraceText, random: &mut Random) -> Result<(), AllocError> {
    let [first, second, sums] = places_of(random);
    for step in 0..text.lines() {
        let offset = step.wrapping_mul(STRIDE);
        text.add(Action::Load, first.wrapping_add(offset), 8)?;
        text.add(Action::Load, second.wrapping_add(offset), 8)?;
        text.add(Action::Store, sums.wrapping_add(offset), 8)?;
        if text.is_full() {
            return Ok(());
        }
    }
    Ok(())
}

/// Writes accesses anywhere in a large heap.
pub fn write_random(text: &mut TraceText, random: &mut Random) -> Result<(), AllocError> {
    write_anywhere(text, random, LARGE)
}

/// Writes accesses anywhere in some thousand pages.
pub fn write_pages(text: &mut TraceText, random: &mut Random) -> Result<(), AllocError> {
    write_anywhere(text, random, SOME_PAGES)
}

/// Writes accesses anywhere in so many bytes, three loads for a store.
fn write_anywhere(text: &mut TraceText, random: &mut Random, bytes: u64) -> Result<(), AllocError> {
    let first = 0x1000_0000 + random.next() % 0x1000 * 0x1000;
    for _ in 0..text.lines() {
        let number = random.next();
        let action = if number >> 62 == 0 {
            Action::Store
        } else {
            Action::Load
        };
        let place = ((number & 0xffff_ffff).wrapping_mul(bytes) >> 32) & !7;
        text.add(action, first.wrapping_add(place), 8)?;
    }
    Ok(())
}

/// Where three arrays lie, far from one another.
fn places_of(random: &mut Random) -> [u64; 3] {
    let first = HEAP + random.next() % 0x1_0000 * 16;
    let second = first + 0x1000_0000 + random.next() % 0x1_0000 * 16;
    let third = second + 0x1000_0000 + random.next() % 0x1_0000 * 16;
    [first, second, third]
}

/// Where an element of a matrix lies.
fn element(matrix: u64, row: u64, column: u64) -> u64 {
    let index = row.wrapping_mul(ORDER).wrapping_add(column);
    matrix.wrapping_add(index.wrapping_mul(8))
}
