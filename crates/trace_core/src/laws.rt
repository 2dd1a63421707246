//! Laws over the definitions: each is the contract of a function with no code, so that the gate
//! proves it. A caller uses a law by calling its function, which costs nothing: below the call the
//! law is known. A proof may cite the lemma that a law names instead.
ghost use Rattle.std.specs.Prelude.{◌≡◌, ℕ, List, [], ◌∷◌, ◌++◌, None, Some, Err, false, ◌↔◌};
ghost use Rattle.std.specs.Prelude.{All, IsOk, is_ok, slice_get, take, drop, ◌+◌, filter_map};
ghost use Rattle.std.specs.Prelude.{flat_map};
ghost use Rattle.std.specs.List.{enumerate_from, prefix_len, slice_split};
ghost use Rattle.trace_core.specs.Device.{SourceView};
ghost use Rattle.trace_core.specs.Events.{events_of};
ghost use Rattle.trace_core.specs.Lines.{is_line_feed, lines, line_feeds, without_empty_last};
ghost use Rattle.trace_core.specs.Reader.{Progress, Reached, new_progress, device_failed};
ghost use Rattle.trace_core.specs.Reader.{reading_with_entries};
ghost use Rattle.trace_core.specs.Reading.{Reading, reading, cut_reading, first_fault, judgements};
ghost use Rattle.trace_core.specs.Reading.{whole_judgements, cut_fault, numbered_entry, entries};
ghost use Rattle.trace_core.specs.Reading.{events};
ghost use Rattle.trace_core.specs.Task.{entries_of};
ghost use Rattle.trace_core.specs.declared.events.Entry.{Entry};
ghost use Rattle.trace_core.specs.declared.events.Kind.{Kind};
ghost use Rattle.trace_core.specs.declared.fault.TraceFault.{TraceFault};
ghost use Rattle.trace_core.specs.declared.line.Format.{Format};

use crate::fault::TraceFault;
use crate::state::ReaderState;

/// The lines of a text are the pieces between its LFs, without an empty last one.
/// Lemma: `Judging.lines-pieces`.
pub fn lines_are_pieces()
    ensures { (text : List ℕ) → lines text ≡ without_empty_last (slice_split is_line_feed text) }
{}

/// The fault of a text is that of the first line that is judged to be at fault, and it has none
/// if no line is.
/// Lemmas: `Judging.fault-first`, `Judging.first-fault`, `Judging.faultless-all`,
/// `Judging.all-faultless`.
pub fn first_fault_is_least()
    ensures some { (format : Format) (limit : ℕ) (text : List ℕ) (fault : TraceFault) →
        (first_fault format limit text ≡ Some fault)
        ↔ ((n : ℕ) × (slice_get (judgements format limit text) n ≡ Some (Err fault))
        × All IsOk (take n (judgements format limit text))) }
    ensures none { (format : Format) (limit : ℕ) (text : List ℕ) →
        (first_fault format limit text ≡ None) ↔ All IsOk (judgements format limit text) }
{}

/// Where a source fails after some bytes, the fault is that of the first of their whole lines that
/// is judged to be at fault, and else what the piece after their last LF settles: a byte past the
/// limit, too many bytes, or the failure itself.
/// Lemmas: `Judging.cut-first`, `Judging.cut-last`.
pub fn failure_comes_after_what_was_delivered()
    ensures line { (format : Format) (limit : ℕ) (text : List ℕ) (n : ℕ) (fault : TraceFault) →
        slice_get (whole_judgements format limit text) n ≡ Some (Err fault) →
        All IsOk (take n (whole_judgements format limit text)) →
        (cut_reading format limit text).fault ≡ Some fault }
    ensures piece { (format : Format) (limit : ℕ) (text : List ℕ) →
        All IsOk (whole_judgements format limit text) →
        (cut_reading format limit text).fault
        ≡ Some (cut_fault limit (line_feeds text + 1) (drop (line_feeds text) (lines text))) }
{}

/// The entries of a reading are those of the lines before the first that is at fault, each with its
/// line's number.
/// Lemma: `Judging.entries-before`.
pub fn entries_come_before_the_fault()
    ensures { (format : Format) (limit : ℕ) (text : List ℕ) → (reading format limit text).entries
        ≡ filter_map (numbered_entry format)
        (take (prefix_len is_ok (judgements format limit text)) (enumerate_from 1 (lines text))) }
{}

/// Where a source fails after some bytes, the entries are those of their whole lines before the
/// first that is at fault, each with its line's number. The piece after their last LF gives none.
/// Lemma: `Judging.entries-before_cut`.
pub fn entries_come_before_the_cut()
    ensures { (format : Format) (limit : ℕ) (text : List ℕ) →
        (cut_reading format limit text).entries
        ≡ filter_map (numbered_entry format)
        (take (prefix_len is_ok (whole_judgements format limit text))
        (enumerate_from 1 (take (line_feeds text) (lines text)))) }
{}

/// Where a text has no fault, its reading has all its entries, and gives a cache all its events.
/// Lemma: `Entries.read-entries`.
pub fn faultless_reading_is_whole()
    ensures entries { (format : Format) (limit : ℕ) (text : List ℕ) →
        first_fault format limit text ≡ None →
        entries_of (reading format limit text).entries ≡ entries format text }
    ensures events { (format : Format) (limit : ℕ) (kind : Kind) (text : List ℕ) →
        first_fault format limit text ≡ None →
        flat_map (events_of kind) (entries_of (reading format limit text).entries)
        ≡ events format kind text }
{}

/// A reader that began has read nothing.
pub fn begun_reader_has_read_nothing()
    ensures { (format : Format) (limit : ℕ) (start : SourceView) →
        Reached format limit start start [] (new_progress format limit) }
{}

/// A reader at its end has returned the entries of the whole text, which has no fault, and nothing
/// is left of the text.
/// Lemmas: `Runs.Reached-end`, `Runs.Reached-left`.
pub fn ended_reader_has_read_all()
    ensures reading { (format : Format) (limit : ℕ) (text : List ℕ) (start now : SourceView)
        (given : List (ℕ × Entry)) (reader : Progress) →
        start.remaining ≡ Some text → Reached format limit start now given reader →
        reader.state ≡ ReaderState.Ended →
        reading format limit text ≡ record { entries = given; fault = None } }
    ensures left { (format : Format) (limit : ℕ) (text : List ℕ) (start now : SourceView)
        (given : List (ℕ × Entry)) (reader : Progress) →
        start.remaining ≡ Some text → Reached format limit start now given reader →
        reader.state ≡ ReaderState.Ended → now.remaining ≡ Some [] }
{}

/// A reader at its end has returned the entries of a text without a fault, and they give a cache
/// the events of the text. Lemmas: `Entries.entries-reading`, `Runs.Reached-end`.
pub fn whole_trace_gives_its_events()
    ensures faultless { (format : Format) (limit : ℕ) (text : List ℕ) (start now : SourceView)
        (given : List (ℕ × Entry)) (reader : Progress) →
        start.remaining ≡ Some text → Reached format limit start now given reader →
        reader.state ≡ ReaderState.Ended → first_fault format limit text ≡ None }
    ensures entries { (format : Format) (limit : ℕ) (text : List ℕ) (start now : SourceView)
        (given : List (ℕ × Entry)) (reader : Progress) →
        start.remaining ≡ Some text → Reached format limit start now given reader →
        reader.state ≡ ReaderState.Ended → entries_of given ≡ entries format text }
    ensures events { (format : Format) (limit : ℕ) (kind : Kind) (text : List ℕ)
        (start now : SourceView) (given : List (ℕ × Entry)) (reader : Progress) →
        start.remaining ≡ Some text → Reached format limit start now given reader →
        reader.state ≡ ReaderState.Ended →
        flat_map (events_of kind) (entries_of given) ≡ events format kind text }
{}

/// The events that one more entry gives a cache come after those of the entries before it.
/// Lemma: `EntryEvents.collected-more`.
pub fn events_come_entry_by_entry()
    ensures { (kind : Kind) (given : List (ℕ × Entry)) (next : ℕ × Entry) →
        flat_map (events_of kind) (entries_of (given ++ next ∷ []))
        ≡ flat_map (events_of kind) (entries_of given) ++ events_of kind next.1 }
{}

/// A reader that met a fault of the trace met the first fault of the text, and has returned the
/// entries before it.
/// Lemma: `Runs.Reached-fault`.
pub fn failed_reader_met_the_first_fault()
    ensures { (format : Format) (limit : ℕ) (text : List ℕ) (start now : SourceView)
        (given : List (ℕ × Entry)) (reader : Progress) (fault : TraceFault) →
        start.remaining ≡ Some text → Reached format limit start now given reader →
        reader.state ≡ ReaderState.Failed fault → device_failed reader.state ≡ false →
        reading format limit text ≡ record { entries = given; fault = Some fault } }
{}

/// A reader whose source failed has returned the entries of the bytes that the source delivered,
/// and the failure is the first fault of these.
/// Lemma: `Runs.Reached-cut`.
pub fn cut_reader_has_read_what_was_delivered()
    ensures { (format : Format) (limit : ℕ) (text rest : List ℕ) (start now : SourceView)
        (given : List (ℕ × Entry)) (reader : Progress) (line : ℕ) →
        start.remaining ≡ Some text → now.remaining ≡ Some rest →
        Reached format limit start now given reader →
        reader.state ≡ ReaderState.Failed (TraceFault.Read line) →
        (delivered : List ℕ) × (text ≡ delivered ++ rest)
        × (cut_reading format limit delivered
        ≡ record { entries = given; fault = Some (TraceFault.Read line) }) }
{}

/// A reader that reads on has returned the first entries of the text.
/// Lemma: `Runs.Reached-open`.
pub fn open_reader_has_read_the_first_entries()
    ensures { (format : Format) (limit : ℕ) (text : List ℕ) (start now : SourceView)
        (given : List (ℕ × Entry)) (reader : Progress) →
        start.remaining ≡ Some text → Reached format limit start now given reader →
        reader.state ≡ ReaderState.Open →
        (later : Reading) × (reading format limit text ≡ reading_with_entries given later) }
{}
