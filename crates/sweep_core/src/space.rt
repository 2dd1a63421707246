//! The configurations of a cache, the ranges of a sweep, and which configurations lie in them.
pub mod configs;

ghost use Rattle.std.specs.Prelude.{◌≡◌, ◌<◌, ◌^◌, MatchResult, None, Some};
ghost use Rattle.sweep_core.specs.Space.{is_in_range};
ghost use Rattle.cache_core.specs.Powers.{is_power};
ghost use Rattle.sweep_core.specs.Space.{order_cause, limit_cause, power_cause};

use crate::space::configs::bits_of;
use cache_core::powers::is_power;
use cache_core::{Geometry, MAX_BITS, MAX_CACHE_LINES, MAX_WAYS};
use std::fmt;
use std::marker::Model;
use thiserror::Error;

/// An LRU write-allocate cache of `sets` sets of `assoc` lines of `bsize` bytes.
#[derive(Clone, Copy, Debug, PartialEq, Eq, PartialOrd, Ord)]
pub struct Config {
    pub bsize: u64,
    pub sets: u64,
    pub assoc: u64,
}

impl Config {
    ghost use Rattle.std.specs.Prelude.{◌≡◌};
    ghost use Rattle.sweep_core.specs.Space.{bytes_of, HasSize};
    ghost use Rattle.sweep_core.specs.SweepText.{config_geometry};

    /// Its geometry, if it has one: its block size and set count are powers of two, and it is
    /// within the limits. Each configuration of a space has one.
    pub fn geometry(&self) -> Option<Geometry>
        ensures { result ≡ config_geometry self.now }
    {
        if is_power(self.bsize) && is_power(self.sets) {
            Geometry::new(bits_of(self.sets), self.assoc, bits_of(self.bsize))
        } else {
            None
        }
    }

    /// The bytes of all its lines. They have to be fewer than 2^64; the configurations of a space
    /// have at most 2^42.
    pub fn bytes(&self) -> u64
        requires { HasSize self.now }
        ensures { result ≡ bytes_of self.now }
    {
        self.bsize * self.sets * self.assoc
    }
}

/// A range of a space.
#[derive(Clone, Copy, Debug, PartialEq, Eq)]
pub enum Which {
    Bsize,
    Sets,
    Assoc,
    Size,
}

impl fmt::Display for Which {
    ghost use Rattle.std.specs.Prelude.{Some};
    ghost use Rattle.sweep_core.specs.Space.{name_of};

    ghost output = { λ which. Some (name_of which) };

    fn fmt<W: fmt::Write>(&self, f: &mut fmt::Formatter<W>) -> fmt::Result {
        f.write_str(match self {
            Which::Bsize => "bsize",
            Which::Sets => "sets",
            Which::Assoc => "assoc",
            Which::Size => "size",
        })
    }
}

/// Why a range is refused: the first of these causes that applies.
#[derive(Clone, Copy, Debug, PartialEq, Eq, Error)]
pub enum Cause {
    /// An end is not a power of two. Checked for block sizes and set counts.
    #[error("not a power of two")]
    NotPower,
    /// An end is outside the limits. Checked for all but sizes.
    #[error("out of limits")]
    Limit,
    /// The lowest value is above the greatest.
    #[error("reversed range")]
    Reversed,
}

/// The first range that is refused, and why.
#[derive(Clone, Copy, Debug, PartialEq, Eq, Error)]
#[error("{which}: {cause}")]
pub struct SpaceFault {
    pub which: Which,
    pub cause: Cause,
}

/// The greatest block size in bytes, and the greatest set count.
const MAX_POWER: u64 = 1 << MAX_BITS;

/// The configurations of a sweep: a lowest and a greatest value for each number, and for the size
/// in bytes. The clauses `limits` of `has` and `configs` say that they are within the limits.
#[derive(Clone, Copy, Debug)]
pub struct Space {
    bsize: (u64, u64),
    sets: (u64, u64),
    assoc: (u64, u64),
    size: (u64, u64),
    /// Only associativities that are powers of two.
    powers: bool,
}

impl Model for Space {
    ghost use Rattle.std.specs.Prelude.{◌≡◌, None};
    ghost use Rattle.sweep_core.specs.Space.{Ranges, ranges, space_fault};

    ghost Value = { Ranges };

    ghost view = { λ s. ranges s.bsize s.sets s.assoc s.size s.powers };

    ghost invariant = { λ s. space_fault (ranges s.bsize s.sets s.assoc s.size s.powers) ≡ None };

    ghost inverse = { λ r. record {
      bsize = r.bsize;
      sets = r.sets;
      assoc = r.assoc;
      size = r.size;
      powers = r.powers;
    } };
}

impl Space {
    ghost use Rattle.std.specs.Prelude.{◌≡◌, None};
    ghost use Rattle.sweep_core.specs.Space.{is_valid, space_of, space_fault};

    /// The space of these ranges, each a lowest and a greatest value, or the first of them that is
    /// refused. Block sizes and sizes are in bytes. Block sizes and set counts are powers of two up
    /// to 2^20, associativities 1 to 65,536, and sizes any numbers. With `powers` only
    /// associativities that are powers of two count.
    pub fn new(
        bsize: (u64, u64),
        sets: (u64, u64),
        assoc: (u64, u64),
        size: (u64, u64),
        powers: bool,
    ) -> Result<Space, SpaceFault>
        ensures { result ≡ space_of bsize sets assoc size powers }
    {
        judge(Which::Bsize, power_cause(MAX_POWER, bsize))?;
        judge(Which::Sets, power_cause(MAX_POWER, sets))?;
        judge(Which::Assoc, limit_cause(MAX_WAYS, assoc))?;
        judge(Which::Size, order_cause(size))?;
        Ok(Space {
            bsize,
            sets,
            assoc,
            size,
            powers,
        })
    }

    /// Whether a configuration is in the space. Its numbers may be any.
    pub fn has(&self, config: &Config) -> bool
        ensures value { result ≡ is_valid self.now config.now }
        ensures limits { space_fault self.now ≡ None }
    {
        let Config { bsize, sets, assoc } = *config;
        if !is_in_range(self.bsize, bsize)
            || !is_in_range(self.sets, sets)
            || !is_in_range(self.assoc, assoc)
        {
            return false;
        }
        is_in_range(self.size, bsize * sets * assoc)
            && is_power(bsize)
            && is_power(sets)
            && (!self.powers || is_power(assoc))
            && assoc * sets <= MAX_CACHE_LINES
    }
}

/// The fault of a range, if there is a cause.
fn judge(which: Which, cause: Option<Cause>) -> Result<(), SpaceFault>
    ensures { MatchResult result (λ _. cause ≡ None)
        (λ fault. (fault.which ≡ which) × (cause ≡ Some fault.cause)) }
{
    match cause {
        None => Ok(()),
        Some(cause) => Err(SpaceFault { which, cause }),
    }
}

/// Why a range whose ends may be any numbers is refused, if it is: it is reversed.
fn order_cause(range: (u64, u64)) -> Option<Cause>
    ensures { result ≡ order_cause range }
{
    (range.1 < range.0).then_some(Cause::Reversed)
}

/// Why a range whose ends have to be 1 to `most` is refused, if it is.
fn limit_cause(most: u64, range: (u64, u64)) -> Option<Cause>
    ensures { result ≡ limit_cause most range }
{
    if is_in_range((1, most), range.0) && is_in_range((1, most), range.1) {
        order_cause(range)
    } else {
        Some(Cause::Limit)
    }
}

/// Why a range whose ends have to be powers of two up to `most` is refused, if it is.
fn power_cause(most: u64, range: (u64, u64)) -> Option<Cause>
    ensures { result ≡ power_cause most range }
{
    if is_power(range.0) && is_power(range.1) {
        limit_cause(most, range)
    } else {
        Some(Cause::NotPower)
    }
}

/// Whether a number lies in a range, its ends included.
#[inline]
fn is_in_range(range: (u64, u64), n: u64) -> bool
    ensures { result ≡ is_in_range range n }
{
    range.0 <= n && n <= range.1
}
