//! The profiles of a full sweep: one for each pair of block size and set count that has a row.
ghost use Rattle.std.specs.Prelude.{◌≡◌, [], IfOk, sum_by};
ghost use Rattle.sweep_core.specs.internal.Full.{FullStandsFor};

use crate::profiles::take_pair;
use crate::request::Request;
use crate::space::Config;
use crate::space::configs::{PairRows, bits_of};
use full_profile::FullProfile;
use std::alloc::{AllocError, Global};

/// The profile of a pair of block size and set count, with the rows of the pair.
#[derive(Drop)]
pub(crate) struct FullPair {
    /// The row with the fewest lines per set.
    pub(crate) first: Config,
    /// How many rows there are; each has the next associativity.
    pub(crate) row_count: u64,
    pub(crate) profile: FullProfile,
}

/// Makes the profiles of a request, each as deep as the greatest associativity of its pair in the
/// space, even if `rows` cuts that row off.
pub(crate) fn make_full_profiles(
    alloc: Global,
    request: &Request,
) -> Result<Vec<FullPair>, AllocError>
    ensures { IfOk result (λ made. FullStandsFor request.now [] made.items) }
{
    let mut made = Vec::new(alloc);
    let mut pair = request.space.first_pair(request.after);
    let mut most = request.rows;
    while let Some(rows) = take_pair(request, &mut pair, &mut most) {
        let PairRows {
            first,
            count,
            depth,
        } = rows;
        made.push(FullPair {
            first,
            row_count: count,
            profile: FullProfile::new(alloc, bits_of(first.bsize), bits_of(first.sets), depth)?,
        })?;
    }
    Ok(made)
}

/// The comparisons of all profiles.
pub(crate) fn total_full_probes(profiles: &[FullPair]) -> u128
    ensures { result ≡ sum_by (λ x. x.profile.plain.probes) profiles.now }
{
    let mut total = 0u128;
    for pair in profiles {
        total += u128::from(pair.profile.probes());
    }
    total
}
