//! From the arguments of the command line to a job.
ghost use Rattle.std.specs.Prelude.{codes, [], ◌≡◌, ◌≢◌, IfOk, IfSome, None, Some, true, is_some};
ghost use Rattle.std.specs.Prelude.{map, option_and_then, option_map, string_bytes};
ghost use Rattle.std.specs.List.{list_any};
ghost use Rattle.clap.specs.Words.{fault_of, first_of, kind_of, subcommand_rows_of, takes};
ghost use Rattle.arguments.specs.CommandLine.{command_result, command_of, is_help, job_named};
ghost use Rattle.arguments.specs.CommandLine.{chosen_command, refusal_of, usage_of};
ghost use Rattle.arguments.specs.Faults.{job_fault_of, job_result};
ghost use Rattle.arguments.specs.Job.{max_lines_of};
ghost use Rattle.options.specs.Options.{cachesim_app};
ghost use Rattle.arguments.specs.Readings.{rows_given};
ghost use Rattle.options.specs.Respell.{respelling_of};

use crate::csim_job::csim_job;
use crate::din_job::{din_job, log_job};
use crate::dinero::refusal_text;
use crate::faults::WordsFault;
use crate::job::Job;
use crate::readings::text_at;
use crate::sweep_job::sweep_job;
use clap::ArgMatches;
use clap::error::ErrorKind;
use options::app::cachesim_command;
use options::respell::respell;
use options::table::FILE;
use std::alloc::{AllocError, Global};
use trace_core::MAX_LINES;

/// A job, and the file of the trace; without it, standard input.
#[derive(Debug, Drop)]
pub struct Command {
    pub job: Job,
    pub trace: Option<String>,
}

/// What the arguments ask for: a job, and the name of the trace's file if there is one. The first
/// argument is the program's name. No file is opened.
///
/// Errors, the first that applies: `Usage` for what `clap` refuses or for help; `Value` for the
/// first bad value, in the order of the manual's tables; `Incomplete`; then `BadShape`, `Plan` or
/// `Space`. `Memory` wherever memory is refused.
pub fn parse(alloc: Global, arguments: &[String]) -> Result<Command, WordsFault>
    // A command, or a fault that is neither `Memory` nor clap's, is what the arguments mean, and
    // clap refuses nothing.
    ensures means { IfSome (command_result result) (λ returned.
        command_of (map string_bytes arguments.now) ≡ Some returned) }
    ensures accepted { IfSome (command_result result) (λ _.
        fault_of cachesim_app (respelling_of (map string_bytes arguments.now)) ≡ []) }
    ensures limit { IfOk result (λ c. max_lines_of c.job ≡ MAX_LINES) }

    // Arguments that clap takes are not refused, a refusal is one of clap's, and it says whether
    // help was asked for.
    ensures taken { takes cachesim_app (respelling_of (map string_bytes arguments.now)) ≡ true
        → refusal_of result ≡ None }
    ensures refused { IfSome (refusal_of result) (λ _.
        fault_of cachesim_app (respelling_of (map string_bytes arguments.now)) ≢ []) }
    ensures help { IfSome (refusal_of result) (λ help.
        help ≡ list_any is_help
        (fault_of cachesim_app (respelling_of (map string_bytes arguments.now)))) }
{
    let respelled = respell(alloc, arguments)?;
    let command = cachesim_command(alloc)?;
    match command.try_get_matches_from(respelled.as_slice()) {
        Ok(matches) => read_command(alloc, &matches),
        Err(error) => Err(usage_fault(alloc, &error, arguments)),
    }
}

/// The job of the command that was chosen.
fn read_command(alloc: Global, matches: &ArgMatches<'_>) -> Result<Command, WordsFault>
    requires { is_some (option_and_then chosen_command (subcommand_rows_of matches.now)) ≡ true }
    ensures means { IfSome (command_result result) (λ returned.
        option_and_then chosen_command (subcommand_rows_of matches.now) ≡ Some returned) }
    ensures limit { IfOk result (λ c. max_lines_of c.job ≡ MAX_LINES) }
    ensures taken { refusal_of result ≡ None }
{
    let Some((name, options)) = matches.subcommand() else {
        unreachable!()
    };
    let job = job_of(name, options)?;
    let trace = file_at(alloc, options)?;
    Ok(Command { job, trace })
}

/// The job of a command, from its options.
fn job_of(name: &str, options: &ArgMatches<'_>) -> Result<Job, WordsFault>
    requires { is_some (job_named name.now (rows_given options.now)) ≡ true }
    ensures job { job_result result ≡ job_named name.now (rows_given options.now) }
    ensures limit { IfOk result (λ job. max_lines_of job ≡ MAX_LINES) }
{
    match name {
        "csim" => csim_job(options),
        "din" => din_job(options),
        "log" => log_job(options),
        "sweep" => sweep_job(options),
        _ => unreachable!(),
    }
}

/// The file of `-t`, which is the name of csim's option `LACKEY_FILE` too.
fn file_at(alloc: Global, options: &ArgMatches<'_>) -> Result<Option<String>, AllocError>
    ensures { IfOk result (λ file. option_map string_bytes file
        ≡ first_of (codes "-t") (rows_given options.now)) }
{
    match text_at(options, FILE.name) {
        Some(name) => Ok(Some(String::from_str(alloc, name)?)),
        None => Ok(None),
    }
}

/// The fault of an error of `clap` for these arguments, with its text less the last LF.
fn usage_fault(alloc: Global, error: &clap::Error, arguments: &[String]) -> WordsFault
    ensures silent { job_fault_of result ≡ None }
    ensures memory { kind_of error.now ≡ ErrorKind.OutOfMemory → usage_of result ≡ None }
    ensures help { IfSome (usage_of result) (λ help. help ≡ is_help (kind_of error.now)) }
{
    let kind = error.kind();
    if kind == ErrorKind::OutOfMemory {
        return WordsFault::Memory;
    }
    match refusal_text(alloc, error, arguments) {
        Ok(mut text) => {
            if text.as_str().ends_with('\n') {
                let _ = text.pop();
            }
            WordsFault::Usage {
                text,
                help: matches!(kind, ErrorKind::DisplayHelp),
            }
        }
        Err(_) => WordsFault::Memory,
    }
}
