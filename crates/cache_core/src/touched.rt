//! The sets that got a block since the last flush, as long as they are few, so that a flush visits
//! only these.
ghost use Rattle.std.specs.Prelude.{◌≡◌, ◌<◌, ◌/◌, ◌^◌, [], length, Some, IfOk, option_map};
ghost use Rattle.std.specs.Prelude.{replicate};
ghost use Rattle.cache_core.specs.Touched.{after_count, with_set, no_sets, Covers, ListsFilled};

use std::alloc::{AllocError, Global};
use std::marker::Model;

/// The list has one entry for this many sets, so it takes a quarter of a byte for each set. If it
/// overflowed, a flush visits all sets: at most sixteen for each block that was placed.
const SETS_PER_ENTRY: usize = 16;

/// The sets that got a block since the last flush, each by its number, as long as there are entries
/// for them.
#[derive(Drop)]
pub struct TouchedSets {
    /// The numbers of sets, as many as may be listed.
    entries: Vec<u32>,
    /// How many entries are used; `None` once more sets were touched than there are entries.
    used: Option<usize>,
}

impl Model for TouchedSets {
    ghost use Rattle.std.specs.Prelude.{◌≤◌, IfSome, length, option_map, take};
    ghost use Rattle.cache_core.specs.Touched.{TouchedValue};

    ghost Value = { TouchedValue };

    ghost view = { λ t. record {
      capacity = length t.entries.items;
      sets = option_map (λ used. take used t.entries.items) t.used;
    } };

    ghost invariant = { λ t. IfSome t.used (λ used. used ≤ length t.entries.items) };
}

/// Sets the counts of the listed sets to 0; those of all other sets are 0 already.
fn zero_listed(counts: &mut [u32], sets: &[u32])
    requires { ListsFilled sets.now counts.old }
    ensures { counts.new ≡ replicate (length counts.old) 0 }
{
    for set in sets {
        counts[*set as usize] = 0;
    }
}

impl TouchedSets {
    /// An empty list for a number of sets. It has an entry for each sixteen of them, and takes all
    /// of its memory here, which alone can fail.
    pub fn new(alloc: Global, sets: usize) -> Result<TouchedSets, AllocError>
        ensures { IfOk result (λ touched.
            touched ≡ record { capacity = sets / 16; sets = Some [] }) }
    {
        Ok(TouchedSets {
            entries: vec![in alloc; 0; sets / SETS_PER_ENTRY]?,
            used: Some(0),
        })
    }

    /// Adds a set that has got its first block: it held `before` blocks, and holds `after` now.
    #[inline(always)]
    pub fn add_grown(&mut self, set: usize, before: u32, after: u32)
        requires { set < 2 ^ 32 }
        ensures { self.new ≡ after_count set before after self.old }
    {
        // The counts are compared first: at most references they are equal, and if this is
        // inlined the compiler often knows it.
        if before != after && before == 0 {
            self.add(set as u32);
        }
    }

    /// Adds a set. It is a function of its own, so that the path of the many references that find
    /// their set filled stays short.
    #[inline(never)]
    fn add(&mut self, set: u32)
        ensures { self.new
            ≡ record self.old { sets = with_set self.old.capacity set self.old.sets } }
    {
        self.used = match self.used {
            Some(used) if used < self.entries.len() => {
                self.entries[used] = set;
                Some(used + 1)
            }
            _ => None,
        };
    }

    /// The listed sets, or `None` if there were more sets than entries.
    pub fn listed(&self) -> Option<&[u32]>
        ensures { option_map (λ sets. sets.now) result ≡ self.now.sets }
    {
        self.used.map(|used| &self.entries[..used])
    }

    /// Forgets the sets.
    pub fn clear(&mut self)
        ensures { self.new ≡ no_sets self.old }
    {
        self.used = Some(0);
    }

    /// Sets the counts of all sets to 0, and forgets the sets. If they are listed, it visits only
    /// those.
    pub fn empty(&mut self, counts: &mut [u32])
        requires { Covers self.old counts.old }
        ensures counts { counts.new ≡ replicate (length counts.old) 0 }
        ensures sets { self.new ≡ no_sets self.old }
    {
        match self.listed() {
            Some(sets) => zero_listed(counts, sets),
            None => counts.fill(0),
        }
        self.clear();
    }
}
