//! Laws over the definitions: each is the contract of a function with no code, or with one line of
//! it, so that the gate proves it. A caller uses a law by calling its function, which costs
//! nothing: below the call the law is known. A proof may cite the lemma that a law names instead.
ghost use Rattle.std.specs.Prelude.{◌≡◌, ◌≢◌, ◌≤◌, ◌*◌, ◌^◌, ℕ};
ghost use Rattle.std.specs.Prelude.{List, [], ◌∷◌, ◌++◌, flat_map, length};
ghost use Rattle.std.specs.Prelude.{true, Option, None, Some, ◌↔◌, IsTrue, Contains, AllPairs};
ghost use Rattle.trace_core.specs.Reading.{events};
ghost use Rattle.trace_core.specs.Events.{references_in};
ghost use Rattle.cache_core.specs.Geometry.{IsGeometry, size_of};
ghost use Rattle.sweep_core.specs.declared.space.Config.{Config};
ghost use Rattle.sweep_core.specs.declared.request.Request.{Request};
ghost use Rattle.sweep_core.specs.Space.{Ranges, is_valid, space_fault, bytes_of, HasSize};
ghost use Rattle.sweep_core.specs.Rows.{counted_sweep};
ghost use Rattle.cache_core.specs.Powers.{is_power, log2};
ghost use Rattle.sweep_core.specs.Table.{table, first_rows, more_rows, is_less, is_after, IsRising};
ghost use Rattle.sweep_core.specs.SweepText.{geometry_of_config, config_geometry};
ghost use Rattle.sweep_core.specs.SweepText.{sweep_text, header_of, csv_rows};
ghost use Rattle.sweep_core.specs.SweepText.{configs_of, rows_of};
ghost use Rattle.sweep_core.specs.Pages.{ArePages};
ghost use Rattle.sweep_core.specs.Work.{pair_of, pairs, depth, total_depth, sweep_work};

use crate::space::Config;
use profile_core::laws::probes_bounded;

/// The table rises, its members are exactly the configurations of the space that are greater than
/// `after`, and no other list does both.
/// Lemmas: `Validity.space-limited`, `Members.table-rises`, `Members.table-has`,
/// `Members.table-only`, `Members.table-unique`.
pub fn table_is()
    ensures rises { (space : Ranges) (after : Option Config) → IsRising (table space after) }
    ensures members { (space : Ranges) (after : Option Config) (c : Config) →
        space_fault space ≡ None →
        Contains (table space after) c ↔ (IsTrue (is_valid space c) × IsTrue (is_after after c)) }
    ensures unique { (cs ds : List Config) → IsRising cs → IsRising ds
        → ((c : Config) → Contains cs c ↔ Contains ds c) → cs ≡ ds }
{}

/// The derived order of configurations is that of the table. It has code, since `<` is what it
/// speaks of.
pub fn order_is(c: &Config, d: &Config) -> bool
    ensures { result ≡ is_less c.now d.now }
{
    c < d
}

/// The exponent of a power of two is its logarithm.
/// Lemma: `PowersOfTwo.log2-is`.
pub fn log2_is()
    ensures { (n : ℕ) → is_power n ≡ true → 2 ^ log2 n ≡ n }
{}

/// Each configuration of a space is a cache within the limits, and its geometry has as many bytes.
/// Lemmas: `Validity.space-limited`, `Depths.geometry-of`, `Depths.bytes-are`,
/// `Depths.geometry-tested`, `Depths.size-fits`.
pub fn configs_are_geometries()
    ensures limits { (space : Ranges) (c : Config) →
        space_fault space ≡ None → is_valid space c ≡ true → IsGeometry (geometry_of_config c) }
    ensures bytes { (space : Ranges) (c : Config) →
        space_fault space ≡ None → is_valid space c ≡ true →
        size_of (geometry_of_config c) ≡ bytes_of c }
    ensures tested { (space : Ranges) (c : Config) →
        space_fault space ≡ None → is_valid space c ≡ true →
        config_geometry c ≡ Some (geometry_of_config c) }
    ensures fits { (space : Ranges) (c : Config) →
        space_fault space ≡ None → is_valid space c ≡ true → HasSize c }
{}

/// A sweep writes the header, if it begins at the first configuration, and the text of the rows
/// that it counts.
/// Lemma: `Writing.csv-counted`.
pub fn table_is_text_of_rows()
    ensures { (r : Request) (text : List ℕ) → sweep_text r text
        ≡ header_of r.after ++ csv_rows (counted_sweep r (events r.format r.kind text)).rows }
{}

/// Pages: a sweep of `n` rows, the last of which is `c`, and then a sweep of `m` rows after `c`,
/// write what a sweep of both writes.
/// Lemma: `Pages.texts-join`.
pub fn pages()
    ensures { (r : Request) (text : List ℕ) (n : ℕ) (m : Option ℕ) (front : List Config)
        (c : Config) → first_rows (Some n) (table r.space r.after) ≡ front ++ c ∷ [] →
        sweep_text (record r { rows = Some n }) text
        ++ sweep_text (record r { after = Some c; rows = m }) text
        ≡ sweep_text (record r { rows = more_rows n m }) text }
{}

/// A sweep in pages, each after the last row of the one before it until no configuration follows,
/// writes what the whole sweep writes.
/// Lemma: `Pages.pages-join`.
pub fn all_pages()
    ensures { (n : ℕ) (r : Request) (pages : List Request) (text : List ℕ) → ArePages n r pages →
        flat_map (λ page. sweep_text page text) pages ≡ sweep_text (record r { rows = None }) text }
{}

/// The pairs of some rows: each stands once, and they are those that a row has.
/// Lemmas: `WorkLaws.pairs-distinct`, `WorkLaws.pairs-members`.
pub fn pairs_are()
    ensures distinct { (rows : List Config) → AllPairs (λ p q. p ≢ q) (pairs rows) }
    ensures members { (rows : List Config) (p : ℕ × ℕ) →
        Contains (pairs rows) p ↔ ((c : Config) × Contains rows c × (pair_of c ≡ p)) }
{}

/// The depth of a pair is the greatest associativity of its rows: none has more ways, and one has
/// as many.
/// Lemmas: `WorkLaws.depth-most`, `WorkLaws.depth-reached`.
pub fn depth_is()
    ensures most { (rows : List Config) (c : Config) →
        Contains rows c → c.assoc ≤ depth rows (pair_of c) }
    ensures reached { (rows : List Config) (p : ℕ × ℕ) → Contains (pairs rows) p →
        (c : Config) × Contains rows c × (pair_of c ≡ p) × (c.assoc ≡ depth rows p) }
{}

/// A sweep counts at most as many comparisons as its kept references times the depths of its pairs,
/// summed up. It has code, since it calls the same law of one profile.
/// Lemma: `WorkLaws.work-most`.
pub fn work_is_bounded()
    ensures { (r : Request) (text : List ℕ) → sweep_work r text
        ≤ length (references_in (events r.format r.kind text))
        * total_depth (configs_of r) (rows_of r) }
{
    probes_bounded();
}
