//! The geometry of a cache.
ghost use Rattle.std.specs.Prelude.{◌≡◌, ◌^◌, ◌*◌, ◌<◌, ◌≤◌};

use std::marker::Model;

/// The most set index bits, and the most block bits.
pub const MAX_BITS: u64 = 20;

/// The most lines in a set. Texts and tools that can't cite it name it too, as 65536 or 64k: the
/// help of `options` (`table.rt`, `help.rt`), the manual, `tools/three-c`, `tools/by-line`,
/// `tests/model.py`, `tests/limits` and `tests/fuzz`.
pub const MAX_WAYS: u64 = 65_536;

/// The most lines in a cache: 2^22. Help and manual name it as 4m.
pub const MAX_CACHE_LINES: u64 = 4_194_304;

/// The geometry of a cache: `2^s` sets of `e` lines of `2^b` bytes (CS:APP's s, E, b).
#[derive(Clone, Copy, Debug)]
pub struct Geometry {
    s: u64,
    e: u64,
    b: u64,
    set_mask: u64,
}

impl Model for Geometry {
    ghost use Rattle.std.specs.Prelude.{◌≡◌, ◌-◌, ◌^◌};
    ghost use Rattle.cache_core.specs.Geometry.{GeometryValue, IsGeometry, geometry_value};

    ghost Value = { GeometryValue };

    ghost view = { λ g. geometry_value g.s g.e g.b };

    ghost invariant = { λ g. IsGeometry (geometry_value g.s g.e g.b) × (g.set_mask ≡ 2 ^ g.s - 1) };

    ghost inverse = { λ g. record { s = g.s; e = g.e; b = g.b; set_mask = 2 ^ g.s - 1 } };
}

impl Geometry {
    ghost use Rattle.cache_core.specs.Geometry.{IsGeometry, geometry_of, size_of, block_of, set_of};
    ghost use Rattle.cache_core.specs.Geometry.{set_of_block, address_of};

    /// `None` unless `s` and `b` are at most `MAX_BITS`, `e` is 1 to `MAX_WAYS` and `e * 2^s` at
    /// most `MAX_CACHE_LINES`.
    pub fn new(s: u64, e: u64, b: u64) -> Option<Geometry>
        ensures { result ≡ geometry_of s e b }
    {
        if s <= MAX_BITS && b <= MAX_BITS && 1 <= e && e <= MAX_WAYS && e << s <= MAX_CACHE_LINES {
            let set_mask = (1 << s) - 1;
            Some(Geometry { s, e, b, set_mask })
        } else {
            None
        }
    }

    /// The number of set index bits.
    pub fn s(&self) -> u64
        ensures { result ≡ self.now.s }
    {
        self.s
    }

    /// The number of lines in a set.
    pub fn e(&self) -> u64
        ensures value { result ≡ self.now.e }
        ensures limits { IsGeometry self.now }
    {
        self.e
    }

    /// The number of block bits.
    pub fn b(&self) -> u64
        ensures { result ≡ self.now.b }
    {
        self.b
    }

    /// The number of sets.
    pub fn sets(&self) -> u64
        ensures { result ≡ 2 ^ self.now.s }
    {
        self.set_mask + 1
    }

    /// The number of lines.
    pub fn lines(&self) -> u64
        ensures value { result ≡ self.now.e * 2 ^ self.now.s }
        ensures few { result ≤ 2 ^ 22 }
        ensures limits { IsGeometry self.now }
    {
        self.e << self.s
    }

    /// The size in bytes.
    pub fn size(&self) -> u64
        ensures { result ≡ size_of self.now }
    {
        self.e << (self.s + self.b)
    }

    /// The number of the block that holds an address.
    #[inline(always)]
    pub fn block_of(&self, addr: u64) -> u64
        ensures value { result ≡ block_of self.now addr }
        ensures address { address_of self.now result ≤ addr }
        ensures past_first { 2 ^ 20 ≤ addr → 1 ≤ result }
    {
        addr >> self.b
    }

    /// The address of a block.
    #[inline(always)]
    pub fn address_of(&self, block: u64) -> u64
        requires { address_of self.now block < 2 ^ 64 }
        ensures { result ≡ address_of self.now block }
    {
        block << self.b
    }

    /// The set of a block.
    #[inline(always)]
    pub fn set_of_block(&self, block: u64) -> u64
        ensures value { result ≡ set_of_block self.now block }
        ensures within { result < 2 ^ self.now.s }
    {
        block & self.set_mask
    }

    /// The set of an address.
    #[inline(always)]
    pub fn set_of(&self, addr: u64) -> u64
        ensures value { result ≡ set_of self.now addr }
        ensures within { result < 2 ^ self.now.s }
    {
        self.set_of_block(self.block_of(addr))
    }
}
