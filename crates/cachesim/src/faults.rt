//! Why the program ends without having done its job.
ghost use Rattle.std.specs.Prelude.{◌≡◌};
ghost use Rattle.std.specs.Fmt.{WritesOnOk};
ghost use Rattle.cachesim.specs.Names.{shown_letter};
ghost use Rattle.cachesim.specs.Status.{program_status};
ghost use Rattle.cachesim.specs.declared.faults.ProgramFault.TheVariants.{Arguments, Memory};

use arguments::WordsFault;
use std::alloc::AllocError;
use std::fmt;
use thiserror::Error;
use trace_core::RunFault;

/// Why the program ends before its job is done. A fault's text is its `Display`.
#[derive(Debug, Drop, Error)]
pub enum ProgramFault {
    /// The arguments give no job.
    #[error("{0}")]
    Arguments(WordsFault),
    /// An argument is no text, so it has no meaning here.
    #[error("a word is not UTF-8")]
    NotText,
    /// The file of the trace, of this name, can't be opened.
    #[error("cannot open {0}")]
    Open(FileName),
    /// The program itself found no memory.
    #[error("out of memory")]
    Memory,
    /// The job stopped.
    #[error("{0}")]
    Run(RunFault),
}

/// The name of a file, as a message shows it: control characters, which a terminal would obey,
/// stand as `\x` and their number.
#[derive(Debug, Drop)]
pub struct FileName(pub String);

impl fmt::Display for FileName {
    ghost use Rattle.std.specs.Prelude.{Some, flat_map};
    ghost use Rattle.std.specs.Str.{chars};
    ghost use Rattle.std.specs.String.{string_bytes};
    ghost use Rattle.cachesim.specs.Names.{shown_letter};

    ghost output = { λ name. Some (flat_map shown_letter (chars (string_bytes name.0))) };

    fn fmt<W: fmt::Write>(&self, f: &mut fmt::Formatter<W>) -> fmt::Result {
        for letter in self.0.chars() {
            write_letter(f, letter)?;
        }
        Ok(())
    }
}

/// Writes a letter of a name.
fn write_letter<W: fmt::Write>(f: &mut fmt::Formatter<W>, letter: char) -> fmt::Result
    ensures { WritesOnOk W.write_str_gives f.old result (shown_letter letter) f.new }
{
    if letter.is_control() {
        write!(f, "\\x{:02x}", letter as u32)
    } else {
        f.write_char(letter)
    }
}

impl ProgramFault {
    /// The status that the program ends with: that of the arguments' fault, 2 for an argument that
    /// is not UTF-8, and else 1.
    pub fn status(&self) -> u8
        ensures { result ≡ program_status self.now }
    {
        match self {
            ProgramFault::Arguments(fault) => fault.status(),
            ProgramFault::NotText => 2,
            _ => 1,
        }
    }
}

impl From<AllocError> for ProgramFault {
    ghost from_gives = { λ _ e. e ≡ Memory };

    fn from(_error: AllocError) -> ProgramFault {
        ProgramFault::Memory
    }
}

impl From<WordsFault> for ProgramFault {
    ghost from_gives = { λ fault e. e ≡ Arguments fault };

    fn from(fault: WordsFault) -> ProgramFault {
        ProgramFault::Arguments(fault)
    }
}
