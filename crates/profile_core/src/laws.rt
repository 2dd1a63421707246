//! Laws over the definitions: each is the contract of a function with no code, so that the gate
//! proves it. A caller uses a law by calling its function, which costs nothing: below the call the
//! law is known. A proof may cite the lemma that a law names instead.

ghost use Rattle.std.specs.Prelude.{ℕ, ◌≡◌, true, ◌≤◌, ◌+◌, ◌-◌, ◌*◌, List, ◌++◌, ◌∷◌, []};
ghost use Rattle.std.specs.Prelude.{length, map, fold};
ghost use Rattle.trace_core.specs.declared.events.Ref.{Ref};
ghost use Rattle.trace_core.specs.declared.events.Event.{Event};
ghost use Rattle.trace_core.specs.declared.events.Event.TheVariants as event;
ghost use Rattle.cache_core.specs.Geometry.{GeometryValue, IsGeometry, block_of};
ghost use Rattle.cache_core.specs.Windows.{occurrences, counts, probes, has_last, distance};
ghost use Rattle.cache_core.specs.LruLaws.{occurrence_after};
ghost use Rattle.profile_core.specs.profile.State.{ProfileState, empty, after_reference};
ghost use Rattle.profile_core.specs.profile.State.{after_flush, after_event, fed_of, counts_at};
ghost use Rattle.profile_core.specs.profile.Fronts.{is_front_of, is_refined, after_references};
ghost use Rattle.profile_core.specs.profile.Fronts.{after_unless_front, after_fronts};
ghost use Rattle.profile_core.specs.profile.Fronts.{after_batch, fed_of_batch};
ghost use Rattle.profile_core.specs.profile.LacksFronts.{LacksFronts};
ghost use Rattle.profile_core.specs.profile.ProfileStandsFor.{ProfileStandsFor};

/// A new profile stands for no events; a reference fed is a reference added, and a flush a flush
/// added.
/// Lemmas: `Stands.new_stands`, `Stands.reference_stands`, `Stands.flush_stands`.
pub fn each_step_stands()
    ensures new { (g : GeometryValue) → IsGeometry g → ProfileStandsFor [] (empty g) }
    ensures reference { (es : List Event) (v : ProfileState) (r : Ref) → ProfileStandsFor es v
        → ProfileStandsFor (es ++ event.Reference r ∷ [])
        (after_reference v (block_of v.geometry r.addr)) }
    ensures flush { (es : List Event) (v : ProfileState) → ProfileStandsFor es v
        → ProfileStandsFor (es ++ event.Flush ∷ []) (after_flush v) }
{}

/// A profile that was fed a list of events stands for it.
/// Lemma: `Runs.stands_after`.
pub fn stands_after()
    ensures { (g : GeometryValue) (es : List Event) → IsGeometry g
        → ProfileStandsFor es (fold after_event (empty g) es) }
{}

/// If a reference finds its block in front of its set's list in one profile, it also does in each
/// with more sets of the same block size, and, if the one has a single set, in each with larger
/// blocks. All these profiles are fed the same events.
/// Lemma: `Fronts.front_refined`.
pub fn fronts_are_refined()
    ensures { (g h : GeometryValue) (es : List Event) (addr : ℕ) → IsGeometry g → IsGeometry h
        → is_refined g h ≡ true
        → is_front_of (fold after_event (empty g) es) (block_of g addr) ≡ true
        → is_front_of (fold after_event (empty h) es) (block_of h addr) ≡ true }
{}

/// A reference whose distance is 0 has the distance 0 in each geometry that refines this one, too:
/// `fronts_are_refined` in the words of the definitions.
/// Lemma: `Fronts.near_refined`.
pub fn distance_0_is_refined()
    ensures { (g h : GeometryValue) (es : List Event) (r : Ref) → IsGeometry g → IsGeometry h
        → is_refined g h ≡ true
        → has_last (occurrence_after g es r) ≡ true → distance g (occurrence_after g es r) ≡ 0
        → (has_last (occurrence_after h es r) ≡ true)
        × (distance h (occurrence_after h es r) ≡ 0) }
{}

/// A profile that is fed a batch of references, except those that find their block in front, and
/// then counts these, is the profile that is fed all of them.
/// Lemmas: `Later.batch_with_fronts`, `Later.references_of`.
pub fn batch_with_its_fronts_is_all()
    ensures addresses { (es : List Event) (v : ProfileState) (addrs : List ℕ)
        → ProfileStandsFor es v
        → after_fronts (length addrs - length (fed_of_batch v addrs)) (after_batch v addrs)
        ≡ after_references v addrs }
    ensures events { (v : ProfileState) (refs : List Ref)
        → after_references v (map (λ r. r.addr) refs)
        ≡ fold after_event v (map event.Reference refs) }
{}

/// References that find their block in front can be counted later, after other batches and flushes:
/// a profile that lacks only these stands for its events once it has counted them.
/// Lemmas: `Later.lacks_new`, `Later.lacks_reference`, `Later.lacks_batch`, `Later.lacks_flush`,
/// `Later.caught_up`.
pub fn fronts_can_be_counted_later()
    ensures new { (g : GeometryValue) → IsGeometry g → LacksFronts 0 [] (empty g) }
    ensures reference { (n : ℕ) (es : List Event) (v : ProfileState) (r : Ref) → LacksFronts n es v
        → LacksFronts (n + 1) (es ++ event.Reference r ∷ [])
        (after_unless_front v (block_of v.geometry r.addr)) }
    ensures batch { (n : ℕ) (es : List Event) (v : ProfileState) (refs : List Ref)
        → LacksFronts n es v → LacksFronts (n + length refs) (es ++ map event.Reference refs)
        (after_batch v (map (λ r. r.addr) refs)) }
    ensures flush { (n : ℕ) (es : List Event) (v : ProfileState) → LacksFronts n es v
        → LacksFronts n (es ++ event.Flush ∷ []) (after_flush v) }
    ensures caught { (n : ℕ) (es : List Event) (v : ProfileState) (count : ℕ) → LacksFronts n es v
        → fed_of v + count ≡ n → ProfileStandsFor es (after_fronts count v) }
{}

/// A list of events counts at most `g.e` times as many comparisons as it has references.
/// Lemma: `Counting.probes_at_most`.
pub fn probes_bounded()
    ensures { (g : GeometryValue) (es : List Event)
        → probes g es ≤ length (occurrences g es) * g.e }
{}

/// Events keep a profile's geometry.
/// Lemma: `Runs.geometry_after`.
pub fn events_keep_the_geometry()
    ensures { (v : ProfileState) (es : List Event)
        → (fold after_event v es).geometry ≡ v.geometry }
{}

/// A new profile was fed no reference.
pub fn new_profile_was_fed_nothing()
    ensures { (g : GeometryValue) → fed_of (empty g) ≡ 0 }
{}

/// The counts of a profile are those of separate LRU caches of as many sets and of each number of
/// lines up to its depth.
/// Lemma: `Counting.counts_are`.
pub fn counts_are_those_of_caches()
    ensures { (es : List Event) (v : ProfileState) (ways : ℕ) → ProfileStandsFor es v
        → ways ≤ v.geometry.e → counts_at v ways ≡ counts (record v.geometry { e = ways }) es }
{}

/// With more lines per set a profile counts no fewer hits, and no more misses and evictions, of as
/// many references.
/// Lemmas: `HitSums.sum-more`, `HitSums.sum-split`.
pub fn more_ways_miss_no_more()
    ensures hits { (v : ProfileState) (few many : ℕ) → few ≤ many
        → (counts_at v few).hits ≤ (counts_at v many).hits }
    ensures misses { (v : ProfileState) (few many : ℕ) → few ≤ many
        → (counts_at v many).misses ≤ (counts_at v few).misses }
    ensures evictions { (v : ProfileState) (few many : ℕ) → few ≤ many
        → (counts_at v many).evictions ≤ (counts_at v few).evictions }
    ensures references { (v : ProfileState) (ways : ℕ)
        → (counts_at v ways).hits + (counts_at v ways).misses ≡ fed_of v }
{}
