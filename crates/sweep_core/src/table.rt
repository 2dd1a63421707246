//! Writing the table of a sweep, after its trace was read.
ghost use Rattle.std.specs.Prelude.{◌≡◌, ◌++◌, flat_map};
ghost use Rattle.std.specs.List.{AllByRecursion};
ghost use Rattle.trace_core.specs.Device.{Writes, WritesLast};
ghost use Rattle.sweep_core.specs.Space.{HasSize};
ghost use Rattle.sweep_core.specs.SweepText.{header_of, csv_rows};

use crate::row_text::RowText;
use crate::rows::{Pairs, Rows};
use crate::space::Config;
use crate::sweep::SweepCounts;
use trace_core::{DeviceFault, Sink, write_all};

/// The first line of a sweep that begins at the first configuration.
const HEADER: &[u8] = b"bsize,sets,assoc,size,hits,misses,evictions\n";

/// Writes the header, unless `after` is given, and the rows, and flushes.
pub(crate) fn write_table<K: Sink>(
    sink: &mut K,
    after: Option<Config>,
    counts: &SweepCounts,
) -> Result<(), DeviceFault>
    ensures { WritesLast (K.view sink.old) (K.view sink.new) result
        (header_of after ++ csv_rows counts.now.rows) }
{
    write_all(sink, header(after))?;
    write_rows(sink, counts.pairs())?;
    sink.flush()
}

/// The header if a sweep begins at the first configuration, and else nothing.
fn header(after: Option<Config>) -> &'static [u8]
    ensures { result.now ≡ header_of after }
{
    match after {
        None => HEADER,
        Some(_) => b"",
    }
}

/// Writes the rows, pair by pair.
fn write_rows<K: Sink>(sink: &mut K, pairs: Pairs) -> Result<(), DeviceFault>
    requires { AllByRecursion (AllByRecursion (λ row. HasSize row.0)) pairs }
    ensures { Writes (K.view sink.old) (K.view sink.new) result
        (csv_rows (flat_map (λ rows. rows) pairs.entry)) }
{
    for rows in pairs {
        write_pair(sink, rows)?;
    }
    Ok(())
}

/// Writes the text of each row of a pair.
fn write_pair<K: Sink>(sink: &mut K, rows: Rows) -> Result<(), DeviceFault>
    requires { AllByRecursion (λ row. HasSize row.0) rows }
    ensures { Writes (K.view sink.old) (K.view sink.new) result (csv_rows rows.entry) }
{
    let mut text = RowText::new();
    for (config, counts) in rows {
        text.set(&config, config.bytes(), counts);
        write_all(sink, text.as_slice())?;
    }
    Ok(())
}
