//! How all profiles of a full sweep are fed. A reference that is settled in a profile is settled in
//! each that refines it. So a profile that refines the one before it is given only what that one
//! left, and the two are fed together. No count changes, since what is settled is counted at the
//! end.
ghost use Rattle.std.specs.Prelude.{◌≡◌, ◌+◌, ◌^◌, ◌<◌, ◌≤◌, length, take, drop};
ghost use Rattle.std.specs.List.{AllByRecursion};
ghost use Rattle.profile_core.specs.profile.State.{fed_of};
ghost use Rattle.sweep_core.specs.internal.Full.{WereFedAlike, FedFullAtMost, full_pairs_fed};
ghost use Rattle.sweep_core.specs.internal.Full.{full_pairs_ended, finest_full_bits, AreTwoFed};
ghost use Rattle.sweep_core.specs.internal.Full.{second_refines_first};

use crate::full::profiles::FullPair;
use cache_core::MAX_BITS;
use profile_core::MAX_REFERENCES;
use trace_core::Ref;

/// The size of the smallest blocks that some profiles have, in bytes. It is not inlined, since the
/// compiler would make shifts of the comparisons with it.
#[inline(never)]
pub(crate) fn finest_full_size(profiles: &[FullPair]) -> u64
    ensures { result ≡ 2 ^ finest_full_bits profiles.now }
{
    let mut bits = MAX_BITS;
    for pair in profiles {
        bits = bits.min(pair.profile.block_bits());
    }
    1 << bits
}

/// Feeds the first `count` of some references to each profile, except those that are settled there.
/// `left` has room for as many.
pub(crate) fn feed_first_full(
    profiles: &mut [FullPair],
    refs: &[Ref],
    left: &mut [Ref],
    count: usize,
)
    requires few { AllByRecursion
        (λ x. fed_of x.profile.plain + count ≤ MAX_REFERENCES) profiles.old }
    requires alike { WereFedAlike profiles.old }
    requires within { count ≤ length refs.now }
    requires room { count ≤ length left.old }
    ensures { profiles.new ≡ full_pairs_fed (take count refs.now) profiles.old }
{
    feed_full(profiles, &refs[..count], &mut left[..count]);
}

/// Feeds references to each profile, except those that are settled there. `left` has room for as
/// many: those that the profile before has left. A profile and the next are fed together, if the
/// next refines it.
fn feed_full(profiles: &mut [FullPair], refs: &[Ref], left: &mut [Ref])
    requires few { AllByRecursion
        (λ x. fed_of x.profile.plain + length refs.now ≤ MAX_REFERENCES) profiles.old }
    requires alike { WereFedAlike profiles.old }
    requires room { length left.old ≡ length refs.now }
    ensures { profiles.new ≡ full_pairs_fed refs.now profiles.old }
{
    let mut given = 0;
    let mut at = 0;
    while at < profiles.len() {
        if at == 0 || !next_refines(profiles, at - 1) {
            left.copy_from_slice(refs);
            given = refs.len();
        }
        if next_refines(profiles, at) {
            given = feed_two_full(profiles, at, &mut left[..given]);
            at += 2;
        } else {
            given = profiles[at].profile.feed_batch(&mut left[..given]);
            at += 1;
        }
    }
}

/// Whether there is a profile after the one at an index, and refines it.
fn next_refines(profiles: &[FullPair], at: usize) -> bool
    requires { at < length profiles.now }
    ensures { result ≡ second_refines_first (drop at profiles.now) }
{
    at + 1 < profiles.len()
        && profiles[at]
            .profile
            .is_refined_by(&profiles[at + 1].profile)
}

/// Feeds references to the profile at an index, and to the next one only those that are not settled
/// in the first. The references that are settled in neither are moved to the front of `refs`;
/// returns how many they are.
fn feed_two_full(profiles: &mut [FullPair], at: usize, refs: &mut [Ref]) -> usize
    requires within { at + 1 < length profiles.old }
    requires few { AllByRecursion
        (λ x. fed_of x.profile.plain + length refs.old ≤ MAX_REFERENCES) (drop at profiles.old) }
    ensures fed { AreTwoFed at refs.old profiles.old profiles.new (take result refs.new) }
    ensures within { result ≤ length refs.new }
    ensures length { length refs.new ≡ length refs.old }
{
    let (before, after) = profiles.split_at_mut(at + 1);
    let first = &mut before[at];
    let second = &mut after[0];
    first.profile.feed_batch_with(&mut second.profile, refs)
}

/// After the last event: counts in each profile those of `fed` references that it was not fed,
/// which were settled, and the copybacks of blocks that are still in its lists.
pub(crate) fn end_full(profiles: &mut [FullPair], fed: u64)
    requires behind { FedFullAtMost fed profiles.old }
    requires few { fed ≤ MAX_REFERENCES }
    ensures { profiles.new ≡ full_pairs_ended fed profiles.old }
{
    for pair in profiles.iter_mut() {
        let behind = pair.profile.fed();
        pair.profile.count_settled(fed - behind);
        pair.profile.end();
    }
}
