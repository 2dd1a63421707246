//! A group of the command line: the traces that are made, and what is done with each.
ghost use Rattle.std.specs.Prelude.{◌≤◌, length};

use crate::faults::{JobsFault, USAGE};
use crate::patterns;
use crate::program::Program;
use crate::randomness::Random;
use crate::text::{Layout, TraceText};
use arguments::read_number;
use std::alloc::{AllocError, Global};

/// What a trace is of.
#[derive(Clone, Copy, Debug, PartialEq, Eq)]
pub enum Kind {
    /// A program, in the din format.
    Program,
    /// A program, in the lackey format.
    Lackey,
    /// A product of matrices.
    Matrix,
    /// Three arrays from end to end.
    Stream,
    /// Addresses all over a large heap.
    Random,
    /// Addresses all over some thousand pages.
    Pages,
}

/// Traces of a kind, and the words of the commands on each.
#[derive(Clone, Copy, Debug)]
pub struct Group<'a> {
    pub kind: Kind,
    /// The lines of a trace.
    pub lines: u64,
    /// How many traces there are.
    pub count: u64,
    /// The commands, each behind a word `/`.
    pub commands: &'a [String],
}

impl Group<'_> {
    /// The text of a trace of this group.
    pub fn trace(&self, alloc: Global, random: Random) -> Result<Vec<u8>, AllocError> {
        let layout = match self.kind {
            Kind::Lackey => Layout::Lackey,
            _ => Layout::Din,
        };
        let mut numbers = random;
        let mut text = TraceText::new(alloc, layout, self.lines)?;
        match self.kind {
            Kind::Program | Kind::Lackey => Program::new(&mut numbers).run(
                &mut text,
                &mut numbers,
            )?,
            Kind::Matrix => patterns::write_matrix(&mut text, &mut numbers)?,
            Kind::Stream => patterns::write_stream(&mut text, &mut numbers)?,
            Kind::Random => patterns::write_random(&mut text, &mut numbers)?,
            Kind::Pages => patterns::write_pages(&mut text, &mut numbers)?,
        }
        Ok(text.into_text())
    }
}

/// The group that words without their leading `+` mean.
pub fn group_of(words: &[String]) -> Result<Group<'_>, JobsFault> {
    let (head, commands) = words.split_at(first_mark(words, "/"));
    let (kind, lines, count) = match head {
        [kind, lines] => (kind, lines, Some(1)),
        [kind, lines, mark, count] if mark.as_str() == "x" => {
            (kind, lines, read_number(count.as_str()))
        }
        _ => return Err(JobsFault::Usage(USAGE)),
    };
    let lines = read_number(lines.as_str());
    let (Some(kind), Some(lines), Some(count)) = (kind_of(kind.as_str()), lines, count) else {
        return Err(JobsFault::Usage(USAGE));
    };
    Ok(Group {
        kind,
        lines,
        count,
        commands,
    })
}

/// The kind of this name.
fn kind_of(name: &str) -> Option<Kind> {
    match name {
        "program" => Some(Kind::Program),
        "lackey" => Some(Kind::Lackey),
        "matrix" => Some(Kind::Matrix),
        "stream" => Some(Kind::Stream),
        "random" => Some(Kind::Random),
        "pages" => Some(Kind::Pages),
        _ => None,
    }
}

/// How many words come before the first that is this mark; all, if none is.
pub fn first_mark(words: &[String], mark: &str) -> usize
    ensures { result ≤ length words.now }
{
    for (index, word) in words.iter().enumerate() {
        if word.as_str() == mark {
            return index;
        }
    }
    words.len()
}
