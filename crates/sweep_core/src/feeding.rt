//! Which profile decides for which, and how all of them are fed.
//!
//! Profiles are fed one after the other, in the order of the table. A reference that finds its
//! block in front of its set's list changes no list, and it does so too in each profile that
//! refines this one: with the same block size and more sets, or, if this one has a single set, with
//! larger blocks. So where a profile finds a block in front it decides for its followers, the
//! profiles right behind it that refine it: they are given only the other references, and the
//! profiles behind them are given all again. For the same reason a reference to the block of the
//! one before it, at the smallest block size, is given to none. No count changes, since each
//! reference that a profile was not fed has distance 0 there, and the profile counts as many at the
//! end.
ghost use Rattle.std.specs.Prelude.{◌≡◌, ◌+◌, ◌^◌, ◌<◌, ◌≤◌, ◌∷◌, [], length, take, drop};
ghost use Rattle.std.specs.List.{AllByRecursion};
ghost use Rattle.profile_core.specs.profile.State.{fed_of};
ghost use Rattle.sweep_core.specs.internal.Feeding.{follower_count, with_followers};
ghost use Rattle.sweep_core.specs.internal.Feeding.{AreAlwaysLed, profiles_after_batch};
ghost use Rattle.sweep_core.specs.internal.Feeding.{IsFedToTwo, IsGiven, first_leads_rest};
ghost use Rattle.sweep_core.specs.internal.Feeding.{FedAtMost, profiles_with_fronts};
ghost use Rattle.sweep_core.specs.internal.Waiting.{finest_bits};

use crate::profiles::PairProfile;
use cache_core::MAX_BITS;
use profile_core::{MAX_REFERENCES, Profile};

/// Sets `followers` in each profile.
pub(crate) fn set_followers(profiles: &mut [PairProfile])
    ensures { profiles.new ≡ with_followers profiles.old }
{
    for at in 0..profiles.len() {
        let all = &profiles[..];
        let followers = count_followers(&all[at].profile, &all[at + 1..]);
        profiles[at].followers = followers;
    }
}

/// How many of `others` refine a profile, counted from the first up to one that doesn't.
fn count_followers(profile: &Profile, others: &[PairProfile]) -> usize
    ensures { result ≡ follower_count profile.now.geometry others.now }
{
    let mut count = 0;
    for other in others {
        if !profile.is_refined_by(&other.profile) {
            return count;
        }
        count += 1;
    }
    count
}

/// The size of the smallest blocks that some profiles have, in bytes. It is not inlined, since the
/// compiler would make shifts of the comparisons with it.
#[inline(never)]
pub(crate) fn finest_size(profiles: &[PairProfile]) -> u64
    ensures { result ≡ 2 ^ finest_bits profiles.now }
{
    let mut bits = MAX_BITS;
    for pair in profiles {
        bits = bits.min(pair.profile.block_bits());
    }
    1 << bits
}

/// Feeds the first `count` of some references to each profile, except those that find their block
/// in front there. `led` has room for as many. A single one is fed directly, since giving each
/// profile a copy of it takes longer. It matters for traces with a flush after each reference. With
/// two or more references copies take no longer.
pub(crate) fn feed_first(
    profiles: &mut [PairProfile],
    addrs: &mut [u64],
    led: &mut [u64],
    count: usize,
)
    requires few { AllByRecursion
        (λ x. fed_of x.profile + count ≤ MAX_REFERENCES) profiles.old }
    requires within { count ≤ length addrs.old }
    requires room { count ≤ length led.old }
    requires led { AreAlwaysLed profiles.old }
    ensures { profiles.new ≡ profiles_after_batch (take count addrs.old) profiles.old }
{
    if count == 1 {
        feed_at_once(profiles, addrs[0]);
    } else {
        feed_each(profiles, &mut addrs[..count], &mut led[..count]);
    }
}

/// Feeds a reference to each profile, except where it finds its block in front. If it does so in
/// one profile, the followers of this one are skipped.
fn feed_at_once(profiles: &mut [PairProfile], addr: u64)
    requires few { AllByRecursion (λ x. fed_of x.profile < MAX_REFERENCES) profiles.old }
    requires led { AreAlwaysLed profiles.old }
    ensures { profiles.new ≡ profiles_after_batch (addr ∷ []) profiles.old }
{
    let mut next = 0;
    while next < profiles.len() {
        let pair = &mut profiles[next];
        next += 1;
        if pair.profile.feed_unless_front(addr) {
            next += pair.followers;
        }
    }
}

/// Feeds references to each profile, except those that find their block in front there. A reference
/// that does so in one profile is not given to its followers. So `addrs` has the references that
/// are left for all later profiles, and `led` those that are left for the profiles before `end`. If
/// the next profile is before `end`, both are fed together. If all later profiles are followers of
/// a profile, references are removed from `addrs` itself; but if they are followers of the next one
/// too, `led` is used, so that the two are fed together.
fn feed_each(profiles: &mut [PairProfile], addrs: &mut [u64], led: &mut [u64])
    requires few { AllByRecursion
        (λ x. fed_of x.profile + length addrs.old ≤ MAX_REFERENCES) profiles.old }
    requires room { length addrs.old ≤ length led.old }
    requires led { AreAlwaysLed profiles.old }
    ensures { profiles.new ≡ profiles_after_batch addrs.old profiles.old }
{
    let mut led_count = 0;
    let mut end = 0;
    let mut count = addrs.len();
    let mut at = 0;
    while at < profiles.len() {
        let later = profiles.len() - at - 1;
        let followers = profiles[at].followers;
        if at >= end && followers == later && !next_leads_rest(profiles, at) {
            count = profiles[at].profile.feed_batch(&mut addrs[..count]);
        } else {
            let (given, until) = give(&addrs[..count], led, led_count, end, at, followers);
            if at + 1 < until {
                let next_followers = profiles[at + 1].followers;
                led_count = feed_two(profiles, at, &mut led[..given]);
                at += 1;
                end = until.min(at + 1 + next_followers);
            } else {
                led_count = profiles[at].profile.feed_batch(&mut led[..given]);
                end = until;
            }
        }
        at += 1;
    }
}

/// Puts the addresses for the profile at an index at the front of `led`. Before the profile `end`
/// they are there already, `led_count` of them; from `end` on, `addrs` is copied there. Returns how
/// many they are, and the profile up to which the next ones are given only those that this one
/// leaves.
fn give(
    addrs: &[u64],
    led: &mut [u64],
    led_count: usize,
    end: usize,
    at: usize,
    followers: usize,
) -> (usize, usize)
    requires room { length addrs.now ≤ length led.old }
    requires small { at + 1 + followers < 2 ^ 64 }
    ensures { IsGiven at followers led_count end addrs.now led.old led.new result.0 result.1 }
{
    let until = at + 1 + followers;
    if at < end {
        return (led_count, end.min(until));
    }
    led[..addrs.len()].copy_from_slice(addrs);
    (addrs.len(), until)
}

/// Whether there is a profile after an index, and all those behind it are its followers.
fn next_leads_rest(profiles: &[PairProfile], at: usize) -> bool
    requires { at < length profiles.now }
    ensures { result ≡ first_leads_rest (drop (at + 1) profiles.now) }
{
    let next = at + 1;
    next < profiles.len() && profiles[next].followers == profiles.len() - next - 1
}

/// Feeds references to the profile at an index, and to the next one only those that do not find
/// their block in front in the first. The addresses of those that find it in front in neither are
/// moved to the front of `addrs`; returns how many they are.
fn feed_two(profiles: &mut [PairProfile], at: usize, addrs: &mut [u64]) -> usize
    requires within { at + 1 < length profiles.old }
    requires few { AllByRecursion
        (λ x. fed_of x.profile + length addrs.old ≤ MAX_REFERENCES) (drop at profiles.old) }
    ensures fed { IsFedToTwo at addrs.old profiles.old profiles.new (take result addrs.new) }
    ensures within { result ≤ length addrs.new }
    ensures length { length addrs.new ≡ length addrs.old }
{
    let (before, after) = profiles.split_at_mut(at + 1);
    let first = &mut before[at];
    let second = &mut after[0];
    first.profile.feed_batch_with(&mut second.profile, addrs)
}

/// Counts in each profile those of `fed` references that it was not fed: they found their block in
/// front.
pub(crate) fn catch_up(profiles: &mut [PairProfile], fed: u64)
    requires behind { FedAtMost fed profiles.old }
    requires few { fed ≤ MAX_REFERENCES }
    ensures { profiles.new ≡ profiles_with_fronts fed profiles.old }
{
    for pair in profiles.iter_mut() {
        let behind = pair.profile.fed();
        pair.profile.count_fronts(fed - behind);
    }
}
