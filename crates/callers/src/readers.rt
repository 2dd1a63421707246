//! All entries of a trace.
ghost use Rattle.std.specs.Prelude.{◌≡◌, ◌≤◌, IfOk, IfSome, None};
ghost use Rattle.trace_core.specs.Reading.{reading};

use std::alloc::Global;
use trace_core::devices::TapeSource;
use trace_core::laws::{begun_reader_has_read_nothing, ended_reader_has_read_all};
use trace_core::{Entry, Format, Lines, MAX_LINES, RunFault, Source};

/// The entries of a whole trace with the numbers of their lines, whatever pieces the source gives
/// it in. Where it returns them, the trace has no fault.
pub fn all_entries<S: Source>(
    alloc: Global,
    format: Format,
    source: &mut S,
) -> Result<Vec<(u64, Entry)>, RunFault>
    ensures { IfOk result (λ given. IfSome (S.view source.old).remaining (λ text.
        reading format MAX_LINES text ≡ record { entries = given.items; fault = None })) }
{
    begun_reader_has_read_nothing();
    ended_reader_has_read_all();
    let mut lines = Lines::new(alloc, format, MAX_LINES)?;
    let mut given = Vec::new(alloc);
    while let Some(entry) = lines.next(source)? {
        if given.push(entry).is_err() {
            return Err(RunFault::Memory);
        }
    }
    Ok(given)
}

/// The entries of a text that comes in pieces of at most `most` bytes: those of the text.
pub fn entries_in_pieces(
    alloc: Global,
    format: Format,
    text: &[u8],
    most: usize,
) -> Result<Vec<(u64, Entry)>, RunFault>
    requires { 1 ≤ most }
    ensures { IfOk result (λ given. reading format MAX_LINES text.now
        ≡ record { entries = given.items; fault = None }) }
{
    let mut source = TapeSource::new(text, most, 0);
    all_entries(alloc, format, &mut source)
}
