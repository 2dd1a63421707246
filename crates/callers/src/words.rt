//! A job from words.
ghost use Rattle.std.specs.Prelude.{◌≡◌, ℕ, List, Ok, Option, Some, IfOk, map, string_bytes};
ghost use Rattle.arguments.specs.CommandLine.{command_of};
ghost use Rattle.arguments.specs.Job.{max_lines_of};

use arguments::parse::parse;
use arguments::{Job, WordsFault};
use std::alloc::Global;
use trace_core::MAX_LINES;

/// The job that the words of a command line mean, whatever file they name. The first word is the
/// program's name.
pub fn job_of_words(alloc: Global, words: &[String]) -> Result<Job, WordsFault>
    ensures means { IfOk result (λ job. (file : Option (List ℕ)) ×
        (command_of (map string_bytes words.now)
        ≡ Some (Ok (record { job = job; trace = file })))) }
    ensures limit { IfOk result (λ job. max_lines_of job ≡ MAX_LINES) }
{
    let command = parse(alloc, words)?;
    Ok(command.job)
}
