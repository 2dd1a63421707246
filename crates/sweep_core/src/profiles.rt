//! The profiles of a sweep: one for each pair of block size and set count that has a row.
ghost use Rattle.std.specs.Prelude.{◌≡◌, [], None, IfOk, IfSome, MatchOption, sum_by};
ghost use Rattle.sweep_core.specs.Space.{space_fault};
ghost use Rattle.sweep_core.specs.internal.Runs.{BeginsWith};
ghost use Rattle.sweep_core.specs.internal.Walk.{HasDepth, rows_left};
ghost use Rattle.sweep_core.specs.internal.Pass.{SweepStandsFor};
ghost use Rattle.sweep_core.specs.internal.Feeding.{HaveFollowers};

use crate::feeding::set_followers;
use crate::request::Request;
use crate::space::Config;
use crate::space::configs::{PairRows, bits_of};
use profile_core::Profile;
use std::alloc::{AllocError, Global};

/// The profile of a pair of block size and set count, with the rows of the pair.
#[derive(Drop)]
pub(crate) struct PairProfile {
    /// The row with the fewest lines per set.
    pub(crate) first: Config,
    /// How many rows there are; each has the next associativity.
    pub(crate) row_count: u64,
    /// How many of the next profiles find a block in front wherever this one does: its followers.
    pub(crate) followers: usize,
    pub(crate) profile: Profile,
}

/// Makes the profiles of a request, each as deep as the greatest associativity of its pair in the
/// space, even if `rows` cuts that row off.
pub(crate) fn make_profiles(
    alloc: Global,
    request: &Request,
) -> Result<Vec<PairProfile>, AllocError>
    ensures stands { IfOk result (λ made. SweepStandsFor request.now [] made.items) }
    ensures followers { IfOk result (λ made. HaveFollowers made.items) }
{
    let mut made = Vec::new(alloc);
    let mut pair = request.space.first_pair(request.after);
    let mut most = request.rows;
    while let Some(rows) = take_pair(request, &mut pair, &mut most) {
        let PairRows {
            first,
            count,
            depth,
        } = rows;
        made.push(PairProfile {
            first,
            row_count: count,
            followers: 0,
            profile: Profile::new_sparse(alloc, bits_of(first.bsize), bits_of(first.sets), depth)?,
        })?;
    }
    set_followers(&mut made);
    Ok(made)
}

/// Takes the next pair that has a row, from the pair with the index `pair` on, and returns its
/// rows. Afterwards `pair` is the index to go on from, and `most` how many rows may still follow.
pub(crate) fn take_pair(
    request: &Request,
    pair: &mut u32,
    most: &mut Option<u64>,
) -> Option<PairRows>
    ensures rows { MatchOption result (rows_left request.now pair.old most.old ≡ [])
        (λ rows. BeginsWith request.now.space.powers (rows_left request.now pair.old most.old)
        (rows.first, rows.count) (rows_left request.now pair.new most.new)) }
    ensures depth { IfSome result (λ rows. HasDepth request.now.space rows.first rows.depth) }
    ensures limits { space_fault request.now.space ≡ None }
{
    let rows = request.space.next_pair(request.after, pair)?;
    let Some(limit) = *most else {
        return Some(rows);
    };
    if limit == 0 {
        return None;
    }
    let count = limit.min(rows.count);
    *most = Some(limit - count);
    Some(PairRows { count, ..rows })
}

/// The comparisons of all profiles.
pub(crate) fn total_probes(profiles: &[PairProfile]) -> u128
    ensures { result ≡ sum_by (λ x. x.profile.probes) profiles.now }
{
    let mut total = 0u128;
    for pair in profiles {
        total += u128::from(pair.profile.probes());
    }
    total
}
