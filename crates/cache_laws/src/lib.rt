//! Laws over the definitions: each is the contract of a function with no code, so that the gate
//! proves it. A caller uses a law by calling its function, which costs nothing: below the call the
//! law is known. A proof may cite the lemma that a law names instead.
#![tactic(auto)]

ghost use Rattle.std.specs.Prelude.{ℕ, ◌≡◌, ◌≤◌, ◌*◌, ◌↔◌, true, List, [], ◌∷◌, ◌++◌};
ghost use Rattle.trace_core.specs.declared.events.Ref.{Ref};
ghost use Rattle.trace_core.specs.declared.events.Event.{Event};
ghost use Rattle.trace_core.specs.declared.events.Event.TheVariants as event;
ghost use Rattle.cache_core.specs.Geometry.{GeometryValue, IsGeometry, is_geometry, geometry_value};
ghost use Rattle.cache_core.specs.Windows.{window, window_after, occurrences, counts};
ghost use Rattle.cache_core.specs.cache.Stands.{StartLaw, AccessLaw, FlushLaw, RunLaw};
ghost use Rattle.cache_core.specs.cache.Stands.{OrderLaw, DownLaw};
ghost use Rattle.cache_core.specs.replacement.AnyPolicy.{TouchKeeps, PlaceKeeps};
ghost use Rattle.cache_core.specs.replacement.AnyPolicy.{AnyStartLaw, AnyAccessLaw, AnyFlushLaw};
ghost use Rattle.cache_core.specs.LruLaws.{occurrence_after, HitLaw, VictimLaw, CountLaw, NextLaw};
ghost use Rattle.cache_core.specs.LruLaws.{HitInclusion, HeldInclusion};
ghost use Rattle.cache_core.specs.system.Plans.{GeometryLaw};
ghost use Rattle.cache_core.specs.system.ArrivalStats.{LogLaw};
ghost use Rattle.cache_core.specs.system.LogLaws.{MemoryLaw, BypassedLaw, FetchCacheLaw};
ghost use Rattle.cache_core.specs.system.LogLaws.{DataCacheLaw, UnifiedCacheLaw, SecondLevelLaw};
ghost use Rattle.cache_core.specs.system.LogLaws.{FollowLaw, LinesLaw, GrowthLaw, FlushNamesLaw};
ghost use Rattle.cache_core.specs.system.LogLaws.{FlushCountsLaw};

/// A reference puts its block in front of the window, and a flush empties it.
/// Lemmas: `Occurrences.window-nil`, `Occurrences.window-push`.
pub fn window_grows()
    ensures start { (g : GeometryValue) → window g [] ≡ [] }
    ensures more { (g : GeometryValue) (events : List Event) (e : Event) →
        window g (events ++ e ∷ []) ≡ window_after g (window g events) e }
{}

/// One more reference is one more occurrence, with the window of the list before it; a flush is
/// none.
/// Lemmas: `Occurrences.occurrences-reference`, `Occurrences.occurrences-flush`.
pub fn occurrences_grow()
    ensures reference { (g : GeometryValue) (events : List Event) (ref : Ref) →
        occurrences g (events ++ event.Reference ref ∷ [])
        ≡ occurrences g events ++ occurrence_after g events ref ∷ [] }
    ensures flush { (g : GeometryValue) (events : List Event) →
        occurrences g (events ++ event.Flush ∷ []) ≡ occurrences g events }
{}

/// A new cache stands for no event.
/// Lemma: `RunLaw.start_law`.
pub fn new_stands()
    ensures { StartLaw }
{}

/// An access adds its reference to the list that a cache stands for, and its outcome is the
/// machine's.
/// Lemma: `RunLaw.access_run`.
pub fn access_stands()
    ensures { AccessLaw }
{}

/// A flush adds itself to the list, and returns the machine's number of dirty blocks.
/// Lemma: `RunLaw.flush_run`.
pub fn flush_stands()
    ensures { FlushLaw }
{}

/// A list of events, one after another, adds itself to the list that a cache stands for.
/// Lemma: `RunLaw.runs_law`.
pub fn run_stands()
    ensures { RunLaw }
{}

/// Each set of the machine has one line at most for a block, and is in its policy's order.
/// Lemma: `RunLaw.order_run`.
pub fn sets_in_order()
    ensures { OrderLaw }
{}

/// Under any policy a touch keeps the slots of its set. A placing puts its slot in; it takes one
/// out exactly if the set is full, and that is one of the set's.
/// Lemmas: `Lawful.lawful_touch`, `Lawful.lawful_place`.
pub fn slots_are_kept()
    ensures touch { TouchKeeps }
    ensures place { PlaceKeeps }
{}

/// Never more than two references are sent down.
/// Lemma: `DownLaw.down_law`.
pub fn two_go_down_at_most()
    ensures { DownLaw }
{}

/// Under any policy an access is a step of the machine in which any line of the full set may be
/// evicted, and at most two references are sent down; the slots of a set are known up to order.
/// Lemmas: `AnyLaw.any_start`, `AnyLaw.any_access`, `AnyLaw.any_flush`.
pub fn any_policy()
    ensures start { AnyStartLaw }
    ensures access { AnyAccessLaw }
    ensures flush { AnyFlushLaw }
{}

/// The LRU machine hits, and evicts, exactly if the windows say so; so the counts agree.
/// Lemmas: `LruRun.hit_law`, `LruRun.victim_law`, `LruRun.count_law`, `LruRun.next_law`.
pub fn window_is_machine()
    ensures hits { HitLaw }
    ensures victims { VictimLaw }
    ensures counts { CountLaw }
    ensures next { NextLaw }
{}

/// An LRU cache hits and holds all that one with a line less in each set hits and holds.
/// Lemmas: `LruRun.hit_inclusion`, `LruRun.held_law`.
pub fn inclusion()
    ensures hits { HitInclusion }
    ensures held { HeldInclusion }
{}

/// With more lines in each set, and as many sets, an LRU cache has no fewer hits, and no more
/// misses and evictions (Mattson and others 1970). So a fully associative cache of twice the lines
/// misses no more.
/// Lemmas: `MoreWays.more-hits`, `MoreWays.fewer-misses`, `MoreWays.fewer-evictions`.
pub fn more_ways_miss_no_more()
    ensures hits { (g : GeometryValue) (ways : ℕ) (events : List Event) → g.e ≤ ways →
        (counts g events).hits ≤ (counts (record g { e = ways }) events).hits }
    ensures misses { (g : GeometryValue) (ways : ℕ) (events : List Event) → g.e ≤ ways →
        (counts (record g { e = ways }) events).misses ≤ (counts g events).misses }
    ensures evictions { (g : GeometryValue) (ways : ℕ) (events : List Event) → g.e ≤ ways →
        (counts (record g { e = ways }) events).evictions ≤ (counts g events).evictions }
    ensures doubled { (e b : ℕ) (events : List Event) →
        (counts (geometry_value 0 (e * 2) b) events).misses
        ≤ (counts (geometry_value 0 e b) events).misses }
{}

/// The test of a geometry is that its limits hold.
/// Lemmas: `GeometryLaw.limits_of`, `GeometryLaw.within_of`.
pub fn limits_are_tested()
    ensures { (g : GeometryValue) → (is_geometry g ≡ true) ↔ IsGeometry g }
{}

/// The geometry of a cache is the one that its numbers give.
/// Lemma: `GeometryLaw.geometry_law`.
pub fn geometry_is()
    ensures { GeometryLaw }
{}

/// The statistics of a system are the counts of its log.
/// Lemma: `LogLaw.log_law`.
pub fn stats_count_the_log()
    ensures { LogLaw }
{}

/// The second level gets the references that the first level sends down, in order.
/// Lemma: `TakenLaw.second_level_law`.
pub fn second_level_gets_what_is_sent()
    ensures { SecondLevelLaw }
{}

/// Memory gets the references that the last level sends down, in order.
/// Lemma: `MemoryLaw.memory_law`.
pub fn memory_gets_what_is_sent()
    ensures { MemoryLaw }
{}

/// The bypassed references are, in order, those that no first-level cache takes.
/// Lemma: `MemoryLaw.bypassed_law`.
pub fn bypassed_are_the_untaken()
    ensures { BypassedLaw }
{}

/// A first-level cache gets the references that it takes, in order.
/// Lemmas: `TakenLaw.fetch_cache_law`, `TakenLaw.data_cache_law`, `TakenLaw.unified_cache_law`.
pub fn first_level_gets_what_it_takes()
    ensures fetches { FetchCacheLaw }
    ensures data { DataCacheLaw }
    ensures unified { UnifiedCacheLaw }
{}

/// After a line of a cache, the next references that arrive at the level below are those that the
/// line must send: the write of a dirty victim's address, the load of the block's address, and the
/// write that goes on.
/// Lemma: `FollowLaw.follow_law`.
pub fn lines_follow()
    ensures { FollowLaw }
{}

/// The lines of each cache show, in order, the references that come to it, each with its effect.
/// Lemma: `LinesLaw.lines_law`.
pub fn lines_show_the_accesses()
    ensures { LinesLaw }
{}

/// The log of more events begins with that of fewer.
/// Lemma: `LinesLaw.growth_law`.
pub fn log_grows()
    ensures { GrowthLaw }
{}

/// The lines of the flushes name, in order, each cache once for each flush, and show how many dirty
/// blocks it finds there.
/// Lemmas: `FlushLines.flush_names_law`, `FlushLines.flush_counts_law`.
pub fn each_flush_names_each_cache()
    ensures names { FlushNamesLaw }
    ensures counts { FlushCountsLaw }
{}
