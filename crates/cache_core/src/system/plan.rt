//! Plans of a system of caches.
ghost use Rattle.std.specs.Prelude.{◌≡◌, ◌≤◌, ◌<◌, ◌*◌, ◌^◌, true, false, IfSome, MatchResult};
ghost use Rattle.std.specs.Prelude.{option_and_then};
ghost use Rattle.cache_core.specs.system.Plans.{exponent_of, geometry_for, planned_cache};
ghost use Rattle.cache_core.specs.system.Plans.{lacks_geometry, has_none, is_mixed};
ghost use Rattle.cache_core.specs.system.Plans.{has_smaller_blocks_than, has_larger_blocks_than};

use crate::design::{AllocMode, Design, Repl, WriteMode};
use crate::geometry::{Geometry, MAX_BITS};
use std::fmt::{self, Display, Formatter, Write};
use std::marker::Model;
use thiserror::Error;

/// A cache as it is asked for: its size and block size in bytes, and its lines in a set; named as
/// the options of Dinero IV.
#[derive(Clone, Copy, Debug, PartialEq, Eq)]
pub struct CacheSpec {
    pub size: u64,
    pub bsize: u64,
    pub assoc: u64,
    pub repl: Repl,
    pub wback: WriteMode,
    pub walloc: AllocMode,
}

/// The first level as it is asked for: one cache for all references, or one for fetches, one for
/// reads and writes, or both.
#[derive(Clone, Copy, Debug, PartialEq, Eq)]
pub struct FirstLevel {
    /// The cache for fetches.
    pub i: Option<CacheSpec>,
    /// The cache for reads and writes.
    pub d: Option<CacheSpec>,
    /// The cache for all references.
    pub u: Option<CacheSpec>,
}

/// A cache of a system, by name.
#[derive(Clone, Copy, Debug, PartialEq, Eq)]
pub enum CacheName {
    L1I,
    L1D,
    L1U,
    L2U,
}

impl CacheName {
    ghost use Rattle.std.specs.Prelude.{◌≡◌, length};
    ghost use Rattle.cache_core.specs.system.Plans.{cache_name};

    /// The name, as options and output write it.
    pub fn text(self) -> &'static str
        ensures value { result.now ≡ cache_name self }
        ensures short { length result.now ≡ 4 }
    {
        match self {
            CacheName::L1I => "l1-i",
            CacheName::L1D => "l1-d",
            CacheName::L1U => "l1-u",
            CacheName::L2U => "l2-u",
        }
    }
}

impl Display for CacheName {
    ghost use Rattle.std.specs.Prelude.{Some};
    ghost use Rattle.cache_core.specs.system.Plans.{cache_name};

    ghost output = { λ name. Some (cache_name name) };

    fn fmt<W: Write>(&self, f: &mut Formatter<W>) -> fmt::Result {
        f.write_str(self.text())
    }
}

/// A cache of a plan: its design, and its replacement policy.
#[derive(Clone, Copy, Debug)]
pub struct PlannedCache {
    pub design: Design,
    pub policy: Repl,
}

/// Why a plan is refused: the first cause that applies, in this order.
#[derive(Clone, Copy, Debug, PartialEq, Eq, Error)]
pub enum PlanFault {
    #[error("no first-level cache")]
    NoFirst,
    #[error("unified cache beside a split first level")]
    MixedFirst,
    /// The first cache, in the order of the names, that has no geometry of its size, block size and
    /// associativity.
    #[error("{cache}: bad geometry")]
    BadGeometry { cache: CacheName },
    #[error("l2-u: block size smaller than in the first level")]
    SmallBlock,
}

/// The caches of a system, each with its geometry.
#[derive(Clone, Copy, Debug)]
pub struct Plan {
    i: Option<PlannedCache>,
    d: Option<PlannedCache>,
    u: Option<PlannedCache>,
    second: Option<PlannedCache>,
}

impl Model for Plan {
    ghost use Rattle.cache_core.specs.system.Plans.{PlannedCaches, IsPlan};

    ghost Value = { PlannedCaches };

    ghost view = { λ p. record { i = p.i; d = p.d; u = p.u; second = p.second } };

    ghost invariant = { λ p. IsPlan (record { i = p.i; d = p.d; u = p.u; second = p.second }) };

    ghost inverse = { λ v. record { i = v.i; d = v.d; u = v.u; second = v.second } };
}

/// The least k up to `MAX_BITS` for which unit * 2^k is the number.
fn exponent_of(unit: u128, number: u64) -> Option<u64>
    requires { unit < 2 ^ 100 }
    ensures value { result ≡ exponent_of unit number }
    ensures found { IfSome result (λ k. (k ≤ MAX_BITS) × (unit * 2 ^ k ≡ number)) }
{
    for k in 0..=MAX_BITS {
        if unit << k == u128::from(number) {
            return Some(k);
        }
    }
    None
}

/// The geometry of a cache, if it has one.
fn geometry_for(spec: CacheSpec) -> Option<Geometry>
    ensures { result ≡ geometry_for spec }
{
    let b = exponent_of(1, spec.bsize)?;
    let s = exponent_of(u128::from(spec.assoc) * u128::from(spec.bsize), spec.size)?;
    Geometry::new(s, spec.assoc, b)
}

/// The cache of this name, if it is asked for.
fn planned_cache_for(
    cache: CacheName,
    spec: Option<CacheSpec>,
) -> Result<Option<PlannedCache>, PlanFault>
    ensures { MatchResult result
        (λ planned. (lacks_geometry spec ≡ false) × (planned ≡ option_and_then planned_cache spec))
        (λ fault. (lacks_geometry spec ≡ true) × (fault ≡ PlanFault.BadGeometry cache)) }
{
    let Some(spec) = spec else {
        return Ok(None);
    };
    match geometry_for(spec) {
        Some(geometry) => {
            let design = Design {
                geometry,
                write: spec.wback,
                allocate: spec.walloc,
            };
            Ok(Some(PlannedCache {
                design,
                policy: spec.repl,
            }))
        }
        None => Err(PlanFault::BadGeometry { cache }),
    }
}

impl CacheSpec {
    /// Whether the first-level cache is there and this one has smaller blocks.
    fn has_smaller_blocks_than(&self, first: Option<CacheSpec>) -> bool
        ensures { result ≡ has_smaller_blocks_than self.now first }
    {
        match first {
            Some(first) => self.bsize < first.bsize,
            None => false,
        }
    }
}

impl FirstLevel {
    /// Whether it has no cache.
    fn has_none(&self) -> bool
        ensures { result ≡ has_none self.now }
    {
        self.i.is_none() && self.d.is_none() && self.u.is_none()
    }

    /// Whether it has a unified cache beside another.
    fn is_mixed(&self) -> bool
        ensures { result ≡ is_mixed self.now }
    {
        self.u.is_some() && (self.i.is_some() || self.d.is_some())
    }

    /// Whether a cache of it has larger blocks than the second-level one, if there is one.
    fn has_larger_blocks_than(&self, second: Option<CacheSpec>) -> bool
        ensures { result ≡ has_larger_blocks_than self.now second }
    {
        match second {
            Some(second) => {
                second.has_smaller_blocks_than(self.i)
                    || second.has_smaller_blocks_than(self.d)
                    || second.has_smaller_blocks_than(self.u)
            }
            None => false,
        }
    }
}

impl Plan {
    ghost use Rattle.cache_core.specs.system.Plans.{plan_of, IsPlan};

    /// A plan of these caches, or the first cause against it.
    pub fn new(first: FirstLevel, second: Option<CacheSpec>) -> Result<Self, PlanFault>
        ensures { result ≡ plan_of first second }
    {
        if first.has_none() {
            return Err(PlanFault::NoFirst);
        }
        if first.is_mixed() {
            return Err(PlanFault::MixedFirst);
        }
        let i = planned_cache_for(CacheName::L1I, first.i)?;
        let d = planned_cache_for(CacheName::L1D, first.d)?;
        let u = planned_cache_for(CacheName::L1U, first.u)?;
        let lower = planned_cache_for(CacheName::L2U, second)?;
        if first.has_larger_blocks_than(second) {
            return Err(PlanFault::SmallBlock);
        }
        Ok(Plan {
            i,
            d,
            u,
            second: lower,
        })
    }

    /// The cache for fetches.
    pub(crate) fn first_i(&self) -> Option<PlannedCache>
        ensures value { result ≡ self.now.i }
        ensures limits { IsPlan self.now }
    {
        self.i
    }

    /// The cache for data.
    pub(crate) fn first_d(&self) -> Option<PlannedCache>
        ensures { result ≡ self.now.d }
    {
        self.d
    }

    /// The unified cache.
    pub(crate) fn first_u(&self) -> Option<PlannedCache>
        ensures { result ≡ self.now.u }
    {
        self.u
    }

    /// The cache of the second level.
    pub(crate) fn second(&self) -> Option<PlannedCache>
        ensures { result ≡ self.now.second }
    {
        self.second
    }
}
