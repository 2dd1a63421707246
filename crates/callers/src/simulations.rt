//! The separate simulation of one configuration.
ghost use Rattle.std.specs.Prelude.{◌≡◌, ◌*◌, IfOk};

use cache_core::simulate::simulate;
use cache_core::{Counts, Geometry};
use std::alloc::{AllocError, Global};
use trace_core::{Access, Ref};

/// A read of a block of 16 bytes.
fn read(block: u8) -> Ref
    ensures { result ≡ record { access = Access.Read; addr = block * 16 } }
{
    Ref {
        access: Access::Read,
        addr: block as u64 * 16,
    }
}

/// The trace of Belady, Nelson and Shedler (1969) in a cache of one set of three lines: LRU misses
/// 10 of its 12 references.
pub fn three_lines_miss_ten(alloc: Global) -> Result<Counts, AllocError>
    ensures { IfOk result (λ c. c ≡ record { hits = 2; misses = 10; evictions = 7 }) }
{
    let Some(geometry) = Geometry::new(0, 3, 4) else {
        unreachable!()
    };
    let trace = [
        read(1),
        read(2),
        read(3),
        read(4),
        read(1),
        read(2),
        read(5),
        read(1),
        read(2),
        read(3),
        read(4),
        read(5),
    ];
    simulate(alloc, &geometry, &trace)
}
