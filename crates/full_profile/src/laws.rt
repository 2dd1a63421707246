//! Laws over the definitions: each is the contract of a function with no code, so that the gate
//! proves it. A caller uses a law by calling its function, which costs nothing: below the call the
//! law is known. A proof may cite the lemma that a law names instead.

ghost use Rattle.std.specs.Prelude.{ℕ, ◌≡◌, ◌≤◌, ◌+◌, true, List, [], ◌∷◌, ◌++◌, length};
ghost use Rattle.std.specs.Prelude.{map, fold, Some};
ghost use Rattle.trace_core.specs.declared.events.Ref.{Ref};
ghost use Rattle.trace_core.specs.declared.events.Event.{Event};
ghost use Rattle.trace_core.specs.declared.events.Event.TheVariants as event;
ghost use Rattle.cache_core.specs.declared.system.plan.CacheName.TheVariants.{L1I, L1D, L1U};
ghost use Rattle.cache_core.specs.Geometry.{GeometryValue, IsGeometry};
ghost use Rattle.cache_core.specs.system.Systems.{system_run, events_for};
ghost use Rattle.profile_core.specs.profile.State.{empty, after_event};
ghost use Rattle.profile_core.specs.profile.Fronts.{is_refined};
ghost use Rattle.full_profile.specs.LookBack.{full_counts};
ghost use Rattle.full_profile.specs.Reports.{IsReported, lru_stats, planned_lru, plan_alone};
ghost use Rattle.full_profile.specs.State.{FullState, empty_full, after_full_reference, after_end};
ghost use Rattle.full_profile.specs.State.{after_full_event, after_full_flush, full_after};
ghost use Rattle.full_profile.specs.State.{full_counts_at};
ghost use Rattle.full_profile.specs.Batches.{IsFitFull, is_settled, after_settled, SettledLaw};
ghost use Rattle.full_profile.specs.Batches.{after_full_batch, unsettled, LagsBehind};

/// The plain profile within a full one is a profile that was fed the same events.
/// Lemma: `Runs.plain_part`.
pub fn plain_part_is_a_profile()
    ensures { (g : GeometryValue) (es : List Event)
        → (full_after g es).plain ≡ fold after_event (empty g) es }
{}

/// The lengths of a new full profile's lists and histograms fit, and each event keeps them.
/// Lemmas: `Fit.fit_new`, `Fit.fit_event`, `Fit.fit_after`.
pub fn events_keep_the_lengths()
    ensures new { (g : GeometryValue) → IsGeometry g → IsFitFull (empty_full g) }
    ensures event { (v : FullState) (e : Event) → IsFitFull v → IsFitFull (after_full_event v e) }
    ensures events { (g : GeometryValue) (es : List Event) → IsGeometry g
        → IsFitFull (full_after g es) }
{}

/// A settled reference changes nothing but the number of references that found their block in
/// front, and of comparisons.
/// Lemma: `Settled.settled_changes_fronts_only`.
pub fn settled_changes_fronts_only()
    ensures { (v : FullState) (r : Ref) → IsFitFull v → is_settled v r ≡ true
        → after_full_reference v r ≡ after_settled 1 v }
{}

/// A reference that is settled in one profile is settled in each that refines it. Both are fed the
/// same events.
/// Lemma: `Settled.settled_is_refined`.
pub fn settled_is_refined()
    ensures { SettledLaw }
{}

/// The counts of a full profile, once the last event is past, are those of separate LRU caches with
/// write-allocate and write-back, of as many sets and of each number of lines up to its depth.
/// Lemma: `Counted.full_counts_are`.
pub fn counts_are_those_of_caches()
    ensures { (g : GeometryValue) (es : List Event) (ways : ℕ) → IsGeometry g → 1 ≤ ways
        → ways ≤ g.e → full_counts_at (after_end (full_after g es)) ways
        ≡ full_counts (record g { e = ways }) es }
{}

/// A profile that is fed batches of references, except those that are settled, lags behind one that
/// is fed all: it is the same once as many references are counted.
/// Lemmas: `Later.lags_new`, `Later.lags_batch`, `Later.lags_flush`.
pub fn batches_lag_behind()
    ensures new { (g : GeometryValue) → LagsBehind 0 g [] (empty_full g) }
    ensures batch { (g : GeometryValue) (n : ℕ) (es : List Event) (v : FullState) (refs : List Ref)
        → IsGeometry g → LagsBehind n g es v → LagsBehind (n + length refs) g
        (es ++ map event.Reference refs) (after_full_batch v refs) }
    ensures flush { (g : GeometryValue) (n : ℕ) (es : List Event) (v : FullState)
        → LagsBehind n g es v
        → LagsBehind n g (es ++ event.Flush ∷ []) (after_full_flush v) }
{}

/// A profile that refines another one, and was given the same events, need only be fed those of a
/// batch of references that are not settled in the other.
/// Lemma: `Later.unsettled_suffice`.
pub fn unsettled_references_suffice()
    ensures { (g h : GeometryValue) (n : ℕ) (es : List Event) (x y : FullState) (refs : List Ref)
        → IsGeometry g → IsGeometry h → is_refined g h ≡ true → LagsBehind n g es x
        → LagsBehind n h es y
        → after_full_batch y (unsettled x refs) ≡ after_full_batch y refs }
{}

/// The counts of a cache are what `din` reports of it: of an LRU cache with write-allocate and
/// write-back that is alone in a system. A cache for instructions or for data takes the references
/// of its kind.
/// Lemmas: `Reported.counts_reported`, `Reported.alone_unified`, `Reported.alone_instructions`,
/// `Reported.alone_data`.
pub fn counts_are_those_of_reports()
    ensures counts { (g : GeometryValue) (es : List Event) → 1 ≤ g.e
        → IsReported (full_counts g es) (lru_stats g es) }
    ensures unified { (g : GeometryValue) (seed : ℕ) (es : List Event)
        → (system_run (plan_alone L1U (planned_lru g)) seed es).l1u ≡ Some (lru_stats g es) }
    ensures instructions { (g : GeometryValue) (seed : ℕ) (es : List Event)
        → (system_run (plan_alone L1I (planned_lru g)) seed es).l1i
        ≡ Some (lru_stats g (events_for L1I es)) }
    ensures data { (g : GeometryValue) (seed : ℕ) (es : List Event)
        → (system_run (plan_alone L1D (planned_lru g)) seed es).l1d
        ≡ Some (lru_stats g (events_for L1D es)) }
{}
