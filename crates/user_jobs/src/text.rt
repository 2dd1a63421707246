//! The text of a trace, line by line.
ghost use Rattle.std.specs.Prelude.{◌≡◌, ◌≤◌, ◌↔◌, IsTrue};

use std::alloc::{AllocError, Global};

/// The longest line, in bytes: a prefix of 3, 16 digits, a comma, a size and the line's end.
const LONGEST: usize = 22;

/// The most bytes that memory is asked for at once.
const MOST_ROOM: usize = 1 << 32;

/// How references are written.
#[derive(Clone, Copy, Debug, PartialEq, Eq)]
pub enum Layout {
    Din,
    Lackey,
}

/// What a reference does.
#[derive(Clone, Copy, Debug, PartialEq, Eq)]
pub enum Action {
    Fetch,
    Load,
    Store,
    /// A load and then a store. In a din text it is the store.
    Modify,
}

/// The text of a trace that is being made: it takes so many lines and no more.
#[derive(Drop)]
pub struct TraceText {
    text: Vec<u8>,
    layout: Layout,
    lines: u64,
    written: u64,
}

impl TraceText {
    /// An empty text for so many lines. It takes the memory for them at once.
    pub fn new(alloc: Global, layout: Layout, lines: u64) -> Result<TraceText, AllocError> {
        let room = (lines as usize).saturating_mul(LONGEST).min(MOST_ROOM);
        Ok(TraceText {
            text: Vec::with_capacity(alloc, room)?,
            layout,
            lines,
            written: 0,
        })
    }

    /// How many lines it may have.
    pub fn lines(&self) -> u64
        ensures { result ≡ self.now.lines }
    {
        self.lines
    }

    /// How many lines it has.
    pub fn written(&self) -> u64
        ensures { result ≡ self.now.written }
    {
        self.written
    }

    /// Whether it has all its lines.
    pub fn is_full(&self) -> bool
        ensures { IsTrue result ↔ (self.now.lines ≤ self.now.written) }
    {
        self.written >= self.lines
    }

    /// The text.
    pub fn into_text(self) -> Vec<u8> {
        self.text
    }

    /// Adds a reference, unless the text is full. The size is below 10.
    pub fn add(&mut self, action: Action, address: u64, size: u8) -> Result<(), AllocError> {
        if self.is_full() {
            return Ok(());
        }
        self.written = self.written.saturating_add(1);
        match self.layout {
            Layout::Din => self.add_din(action, address),
            Layout::Lackey => self.add_lackey(action, address, size),
        }
    }

    /// Adds a line of a din text: a label and an address.
    fn add_din(&mut self, action: Action, address: u64) -> Result<(), AllocError> {
        let label = match action {
            Action::Fetch => b'2',
            Action::Load => b'0',
            Action::Store | Action::Modify => b'1',
        };
        self.text.extend_from_slice(&[label, b' '])?;
        let (high, low) = (address >> 32, address & 0xffff_ffff);
        if high == 0 {
            self.add_digits(low)?;
        } else {
            self.add_digits(high)?;
            self.text
                .extend_from_slice(&eight_digits(low).to_be_bytes())?;
        }
        self.text.extend_from_slice(b"\n")
    }

    /// Adds a line of a lackey text: a letter, an address of 8 digits or more, and a size.
    fn add_lackey(&mut self, action: Action, address: u64, size: u8) -> Result<(), AllocError> {
        let prefix = match action {
            Action::Fetch => *b"I  ",
            Action::Load => *b" L ",
            Action::Store => *b" S ",
            Action::Modify => *b" M ",
        };
        self.text.extend_from_slice(&prefix)?;
        let (high, low) = (address >> 32, address & 0xffff_ffff);
        if high != 0 {
            self.add_digits(high)?;
        }
        self.text
            .extend_from_slice(&eight_digits(low).to_be_bytes())?;
        self.text
            .extend_from_slice(&[b',', b'0' + size % 10, b'\n'])
    }

    /// Adds the hexadecimal digits of a number below 2^32, without leading zeros. It adds 8 bytes
    /// and takes back those that are too many: pieces of a known length are copied fastest.
    fn add_digits(&mut self, number: u64) -> Result<(), AllocError> {
        let zeros = (number.leading_zeros() / 4).clamp(8, 15) - 8;
        let digits = eight_digits(number) << (8 * zeros);
        self.text.extend_from_slice(&digits.to_be_bytes())?;
        let length = self.text.len().saturating_sub(zeros as usize);
        self.text.truncate(length);
        Ok(())
    }
}

/// The 8 hexadecimal digits of a number below 2^32 as text, the first in the highest byte. They are
/// made all at once: each gets a byte, and then those above 9 go on to the letters.
fn eight_digits(number: u64) -> u64 {
    let pairs = (number | (number << 16)) & 0x0000_ffff_0000_ffff;
    let bytes = (pairs | (pairs << 8)) & 0x00ff_00ff_00ff_00ff;
    let digits = (bytes | (bytes << 4)) & 0x0f0f_0f0f_0f0f_0f0f;
    let letters = (digits.wrapping_add(0x0606_0606_0606_0606) >> 4) & 0x0101_0101_0101_0101;
    digits
        .wrapping_add(0x3030_3030_3030_3030)
        .wrapping_add(letters.wrapping_mul(39))
}
