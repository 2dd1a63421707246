//! The commands of a group, each on the traces of the group, as the program does a job.
use crate::digest::Digest;
use crate::faults::{JobsFault, TaskFault};
use crate::groups::first_mark;
use arguments::Command;
use arguments::parse::parse;
use commands::execute::execute;
use std::alloc::{AllocError, Global};
use std::io::BufWriter;
use trace_core::devices::TapeSource;
use trace_core::{RunFault, ToWrite};

/// How many bytes of the output are gathered before they are written, as the program does.
const OUTPUT_BUFFER: usize = 65_536;

/// A command, and what it wrote so far.
#[derive(Drop)]
pub struct Task<'a> {
    /// Its words, behind one that stands for the program's name.
    words: &'a [String],
    digest: Digest,
    fault: Option<TaskFault>,
}

impl<'a> Task<'a> {
    /// The command's name.
    pub fn name(&self) -> &'a str {
        match self.words.get(1) {
            Some(word) => word.as_str(),
            None => "",
        }
    }

    /// What it wrote, on all traces together.
    pub fn digest(&self) -> &Digest {
        &self.digest
    }

    /// The fault that ended it.
    pub fn fault(&self) -> &Option<TaskFault> {
        &self.fault
    }

    /// Does the command on a trace, unless a fault ended it on one before.
    fn run(&mut self, alloc: Global, text: &[u8]) {
        if self.fault.is_none() {
            self.fault = perform(alloc, self.words, text, &mut self.digest).err();
        }
    }
}

/// The commands of words that begin each with a word `/`.
pub fn tasks_of(alloc: Global, commands: &[String]) -> Result<Vec<Task<'_>>, JobsFault> {
    let mut tasks = Vec::new(alloc);
    let mut rest = commands;
    for _ in 0..commands.len() {
        let Some((_mark, inside)) = rest.split_first() else {
            break;
        };
        let (words, later) = rest.split_at(first_mark(inside, "/") + 1);
        let task = Task {
            words,
            digest: Digest::new(),
            fault: None,
        };
        tasks.push(task).map_err(AllocError::from)?;
        rest = later;
    }
    Ok(tasks)
}

/// Does each command on a trace.
pub fn do_tasks(alloc: Global, tasks: &mut Vec<Task<'_>>, text: &[u8]) {
    for task in tasks.iter_mut() {
        task.run(alloc, text);
    }
}

/// Does the job of the words on a trace in memory, and gives what it writes to the digest.
fn perform(
    alloc: Global,
    words: &[String],
    text: &[u8],
    digest: &mut Digest,
) -> Result<(), TaskFault> {
    let Command { job, trace: _file } = match parse(alloc, words) {
        Ok(command) => command,
        Err(fault) => return Err(TaskFault::Words(fault)),
    };
    let Ok(mut output) = BufWriter::with_capacity(alloc, OUTPUT_BUFFER, digest) else {
        return Err(TaskFault::Run(RunFault::Memory));
    };
    let mut source = TapeSource::new(text, usize::MAX, 0);
    let outcome = execute(alloc, &job, &mut source, &mut ToWrite::new(&mut output));
    match outcome {
        Ok(()) => Ok(()),
        Err(fault) => {
            // Dropping the writer would write again what it still holds.
            let (_digest, _unwritten) = output.into_parts();
            Err(TaskFault::Run(fault))
        }
    }
}
