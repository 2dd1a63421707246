//! A trace-driven simulator of processor caches.
#![tactic(auto)]

mod faults;

ghost use Rattle.std.specs.Prelude.{◌≤◌};
ghost use Rattle.arguments.specs.Job.{max_lines_of};

use crate::faults::{FileName, ProgramFault};
use arguments::parse::parse;
use arguments::{Command, Job, WordsFault};
use commands::execute::execute;
use std::alloc::{AllocError, Global};
use std::env::{self, Args};
use std::fs::File;
use std::io::{BufWriter, ErrorKind, Write};
use std::process::ExitCode;
use trace_core::{FromRead, MAX_LINES, RunFault, Source, ToWrite};

/// How many bytes of the output are gathered before they are written.
const OUTPUT_BUFFER: usize = 65_536;

fn main(rt: HostRuntime) -> ExitCode {
    match run(&rt) {
        Ok(()) => ExitCode::SUCCESS,
        Err(fault) => report(&rt, &fault),
    }
}

/// Does what the arguments ask for.
fn run(rt: &HostRuntime) -> Result<(), ProgramFault> {
    let arguments = arguments_of(rt)?;
    let Command { job, trace } = parse(rt.alloc(), arguments.as_slice())?;
    match trace {
        Some(name) => run_on(rt, &job, FromRead::new(open_trace(rt, name)?)),
        None => run_on(rt, &job, FromRead::new(rt.stdin())),
    }
}

/// The arguments of the command line.
fn arguments_of(rt: &HostRuntime) -> Result<Vec<String>, ProgramFault> {
    let args = match env::args(rt) {
        Ok(args) => args,
        Err(error) if error.kind() == ErrorKind::OutOfMemory => return Err(ProgramFault::Memory),
        Err(_) => return Err(ProgramFault::NotText),
    };
    Ok(collect_arguments(rt.alloc(), args)?)
}

/// Collects the arguments one by one: `collect` would ask for less room if the room for all of
/// them is refused.
fn collect_arguments(alloc: Global, args: Args) -> Result<Vec<String>, AllocError> {
    let mut arguments = Vec::new(alloc);
    for argument in args {
        arguments.push(argument)?;
    }
    Ok(arguments)
}

/// Opens the file of the trace.
fn open_trace(rt: &HostRuntime, name: String) -> Result<File, ProgramFault> {
    match File::open(rt, name.as_str()) {
        Ok(file) => Ok(file),
        Err(error) if error.kind() == ErrorKind::OutOfMemory => Err(ProgramFault::Memory),
        Err(_) => Err(ProgramFault::Open(FileName(name))),
    }
}

/// Does a job on a trace. What it wrote before a fault of the trace is written out; a failed output
/// is left alone.
fn run_on<S: Source + Drop>(rt: &HostRuntime, job: &Job, mut source: S) -> Result<(), ProgramFault>
    requires some { 1 ≤ max_lines_of job.now }
    requires most { max_lines_of job.now ≤ MAX_LINES }
{
    let Ok(mut output) = BufWriter::with_capacity(rt.alloc(), OUTPUT_BUFFER, rt.stdout()) else {
        return Err(ProgramFault::Memory);
    };
    let outcome = execute(rt.alloc(), job, &mut source, &mut ToWrite::new(&mut output));
    match outcome {
        Ok(()) => Ok(()),
        Err(fault) => {
            if let RunFault::Trace(_) = fault {
                let _ = output.flush();
            }
            // Dropping the writer would write again what it still holds.
            let (_stdout, _unwritten) = output.into_parts();
            Err(ProgramFault::Run(fault))
        }
    }
}

/// Reports a fault on standard error, or help on standard output.
fn report(rt: &HostRuntime, fault: &ProgramFault) -> ExitCode {
    if let ProgramFault::Arguments(WordsFault::Usage { text, help: true }) = fault {
        let _ = println!(rt; "{text}");
        let _ = rt.stdout().flush();
    } else {
        let _ = eprintln!(rt; "cachesim: {fault}");
    }
    ExitCode::from(fault.status())
}
