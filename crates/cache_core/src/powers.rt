//! Powers of two.
ghost use Rattle.std.specs.Prelude.{◌≡◌};
ghost use Rattle.cache_core.specs.Powers.{is_power};

/// Whether a number is a power of two.
#[inline]
pub fn is_power(n: u64) -> bool
    ensures { result ≡ is_power n }
{
    n.is_power_of_two()
}
