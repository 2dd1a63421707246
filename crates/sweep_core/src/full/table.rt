//! Writing the table of a full sweep, after its trace was read.
ghost use Rattle.std.specs.Prelude.{◌≡◌, ◌++◌};
ghost use Rattle.std.specs.List.{AllByRecursion};
ghost use Rattle.trace_core.specs.Device.{Writes, WritesLast};
ghost use Rattle.sweep_core.specs.Space.{HasSize};
ghost use Rattle.sweep_core.specs.FullText.{full_header_of, full_csv_rows};

use crate::full::FullSweepCounts;
use crate::full::rows::FullRows;
use crate::row_text::RowText;
use crate::space::Config;
use trace_core::{DeviceFault, Sink, write_all};

/// The first line of a full sweep that begins at the first configuration.
const FULL_HEADER: &[u8] = b"bsize,sets,assoc,size,hits,misses,evictions,\
    fetch-misses,read-misses,write-misses,copybacks\n";

/// Writes the header, unless `after` is given, and the rows, and flushes.
pub(crate) fn write_full_table<K: Sink>(
    sink: &mut K,
    after: Option<Config>,
    counts: &FullSweepCounts,
) -> Result<(), DeviceFault>
    ensures { WritesLast (K.view sink.old) (K.view sink.new) result
        (full_header_of after ++ full_csv_rows counts.now.rows) }
{
    write_all(sink, full_header(after))?;
    write_full_rows(sink, counts.rows())?;
    sink.flush()
}

/// The header if a sweep begins at the first configuration, and else nothing.
fn full_header(after: Option<Config>) -> &'static [u8]
    ensures { result.now ≡ full_header_of after }
{
    match after {
        None => FULL_HEADER,
        Some(_) => b"",
    }
}

/// Writes the text of each row.
fn write_full_rows<K: Sink>(sink: &mut K, rows: FullRows) -> Result<(), DeviceFault>
    requires { AllByRecursion (λ row. HasSize row.0) rows }
    ensures { Writes (K.view sink.old) (K.view sink.new) result (full_csv_rows rows.entry) }
{
    let mut text = RowText::new();
    for (config, counts) in rows {
        text.set_full(&config, config.bytes(), counts);
        write_all(sink, text.as_slice())?;
    }
    Ok(())
}
