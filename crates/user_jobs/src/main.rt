//! A benchmark: the jobs of users on traces that it makes in memory, each from a seed. It prints
//! how much each command wrote and a digest of it, and no times.
#![tactic(auto)]

mod digest;
mod faults;
mod groups;
mod jobs;
mod patterns;
mod program;
mod randomness;
mod text;

use crate::faults::{JobsFault, USAGE};
use crate::groups::{Group, first_mark, group_of};
use crate::jobs::{Task, do_tasks, tasks_of};
use crate::randomness::Random;
use arguments::read_number;
use std::alloc::{AllocError, Global};
use std::env::{self, Args};
use std::io::ErrorKind;
use std::process::ExitCode;

fn main(rt: HostRuntime) -> ExitCode {
    match run(&rt) {
        Ok(()) => ExitCode::SUCCESS,
        Err(fault) => {
            let _ = eprintln!(rt; "user_jobs: {fault}");
            ExitCode::from(fault.status())
        }
    }
}

/// Does the groups of the command line one after another.
fn run(rt: &HostRuntime) -> Result<(), JobsFault> {
    let arguments = arguments_of(rt)?;
    let Some((_program, words)) = arguments.as_slice().split_first() else {
        return Err(JobsFault::Usage(USAGE));
    };
    let Some((seed, mut rest)) = words.split_first() else {
        return Err(JobsFault::Usage(USAGE));
    };
    let Some(seed) = read_number(seed.as_str()) else {
        return Err(JobsFault::Usage(USAGE));
    };
    for number in 0..words.len() {
        let Some((mark, inside)) = rest.split_first() else {
            break;
        };
        if mark.as_str() != "+" {
            return Err(JobsFault::Usage(USAGE));
        }
        let (group, later) = inside.split_at(first_mark(inside, "+"));
        let random = Random::new(seed).branch(number as u64);
        run_group(rt, &random, &group_of(group)?)?;
        rest = later;
    }
    Ok(())
}

/// Does the commands of a group on each of its traces, and prints a line for each command.
fn run_group(rt: &HostRuntime, random: &Random, group: &Group<'_>) -> Result<(), JobsFault> {
    let mut tasks = tasks_of(rt.alloc(), group.commands)?;
    for number in 0..group.count {
        let text = group.trace(rt.alloc(), random.branch(number))?;
        do_tasks(rt.alloc(), &mut tasks, text.as_slice());
    }
    for task in tasks.iter() {
        print_task(rt, task)?;
    }
    Ok(())
}

/// Prints what a command wrote, or the fault that ended it.
fn print_task(rt: &HostRuntime, task: &Task<'_>) -> Result<(), JobsFault> {
    let name = task.name();
    let printed = match task.fault() {
        Some(fault) => println!(rt; "{name} {fault}"),
        None => {
            let count = task.digest().count();
            let value = task.digest().value();
            println!(rt; "{name} {count} {value:016x}")
        }
    };
    printed.map_err(|_error| JobsFault::Output)
}

/// The arguments of the command line.
fn arguments_of(rt: &HostRuntime) -> Result<Vec<String>, JobsFault> {
    let args = match env::args(rt) {
        Ok(args) => args,
        Err(error) if error.kind() == ErrorKind::OutOfMemory => return Err(JobsFault::Memory),
        Err(_) => return Err(JobsFault::Usage(USAGE)),
    };
    Ok(collect_arguments(rt.alloc(), args)?)
}

/// Collects the arguments one by one.
fn collect_arguments(alloc: Global, args: Args) -> Result<Vec<String>, AllocError> {
    let mut arguments = Vec::new(alloc);
    for argument in args {
        arguments.push(argument)?;
    }
    Ok(arguments)
}
