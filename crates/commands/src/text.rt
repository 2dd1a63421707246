//! The text that a command writes last, and the words of a line.
ghost use Rattle.std.specs.Prelude.{◌≡◌, ◌+◌, ◌≤◌, ◌++◌, length};
ghost use Rattle.trace_core.specs.Device.{WritesLast};

use trace_core::text::Text;
use trace_core::{DeviceFault, Sink, write_all};

/// Writes a text to a sink and then flushes it: a flush that fails leaves the whole text written.
pub(crate) fn write_last<K: Sink>(text: &[u8], sink: &mut K) -> Result<(), DeviceFault>
    ensures { WritesLast (K.view sink.old) (K.view sink.new) result text.now }
{
    write_all(sink, text)?;
    sink.flush()
}

/// Adds a word of a line. It is passed by value, so that it is known to lie apart from the text,
/// and is stored without a look at where it lies.
#[inline(always)]
pub(crate) fn push_word<const CAPACITY: usize, const LEN: usize>(
    text: &mut Text<CAPACITY>,
    word: [u8; LEN],
)
    requires { length text.old + LEN ≤ CAPACITY }
    ensures { text.new ≡ text.old ++ word.entry }
{
    text.push(&word);
}
