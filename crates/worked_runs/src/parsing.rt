//! Arguments by calls: their spelling, their numbers, the file of the trace, and what `clap`
//! refuses. Other faults are in `tests/cases`.
use arguments::parse::parse;
use arguments::{Command, WordsFault, read_number, read_range, read_scaled, read_triple};
use cache_core::PlanFault;
use options::respell::respell;
use std::alloc::{AllocError, Global};
use std::process::Abort;
use std::test::Fail;
use sweep_core::Config;

/// The arguments of a line, which stand apart by single spaces.
fn arguments_of(alloc: Global, line: &str) -> Result<Vec<String>, AllocError> {
    let mut arguments = Vec::new(alloc);
    for argument in line.split(' ') {
        arguments.push(String::from_str(alloc, argument)?)?;
    }
    Ok(arguments)
}

/// The result of `parse` for a line.
fn parsed(alloc: Global, line: &str) -> Result<Command, WordsFault> {
    let arguments = arguments_of(alloc, line)?;
    parse(alloc, &arguments)
}

/// The fault of a line that is not a call, or whose values give no job.
fn fault_of(alloc: Global, line: &str) -> Result<WordsFault, Fail> {
    match parsed(alloc, line) {
        Ok(_) => Err("a job".into()),
        Err(WordsFault::Memory) => Err(WordsFault::Memory.into()),
        Err(fault) => Ok(fault),
    }
}

#[test]
fn options_of_din_are_respelled(rt: HostRuntime) -> Result<(), Fail> {
    for (line, wanted) in [
        (
            "cachesim din -l1-usize 1k -informat d -t f",
            "cachesim din --l1-usize 1k --informat d -t f",
        ),
        ("cachesim csim -l1-usize", "cachesim csim -l1-usize"),
    ] {
        let respelled = respell(rt.alloc(), &arguments_of(rt.alloc(), line)?)?;
        let wanted = arguments_of(rt.alloc(), wanted)?;
        assert!(rt; respelled.as_slice() == wanted.as_slice(), "{line}");
    }
    Ok(())
}

#[test]
fn numbers_have_digits_and_a_scale(rt: HostRuntime) {
    for (text, number) in [
        ("16k", Some(16_384)),
        ("1G", Some(1_073_741_824)),
        ("17179869183g", Some(18_446_744_072_635_809_792)),
        ("17179869184g", None),
        ("18446744073709551615", Some(18_446_744_073_709_551_615)),
        ("18446744073709551616", None),
        ("", None),
        ("k", None),
        ("1kk", None),
        ("+1", None),
    ] {
        assert!(rt; read_scaled(text) == number, "{text}");
    }
    assert!(rt; read_number("007") == Some(7));
    assert!(rt; read_number("1k") == None);
}

#[test]
fn ranges_have_two_ends(rt: HostRuntime) {
    for (text, range) in [
        ("0-1k", Some((0, 1024))),
        ("32", Some((32, 32))),
        ("64-16", Some((64, 16))),
        ("-4", None),
        ("1-2-3", None),
    ] {
        assert!(rt; read_range(text) == range, "{text}");
    }
}

#[test]
fn triples_have_two_commas(rt: HostRuntime) {
    let (bsize, sets) = (16, 1);
    let triple = Config {
        bsize,
        sets,
        assoc: 7,
    };
    for (text, config) in [
        ("16,1,7", Some(triple)),
        ("16,1", None),
        ("16, 1,7", None),
        ("1k,1,1", None),
    ] {
        assert!(rt; read_triple(text) == config, "{text}");
    }
}

#[test]
fn a_line_without_a_cache(rt: HostRuntime) -> Result<(), Fail> {
    match fault_of(rt.alloc(), "cachesim din")? {
        WordsFault::Plan(fault) => assert!(rt; fault == PlanFault::NoFirst),
        fault => return Err(fault.into()),
    }
    Ok(())
}

// Of the texts, tests/cases shows that they are right.
#[test]
fn arguments_that_are_no_call(rt: HostRuntime) -> Result<(), Fail> {
    for (line, is_help, status) in [
        ("cachesim sweep --bsize 16", false, 2),
        ("cachesim csim -s 4 -E 1 -b 4 -t f -t g", false, 2),
        ("cachesim sweep --help", true, 0),
    ] {
        let fault = fault_of(rt.alloc(), line)?;
        assert!(rt; fault.status() == status, "{line}");
        match fault {
            WordsFault::Usage { text, help } => {
                assert!(rt; help == is_help, "{line}");
                assert!(rt; !text.as_str().is_empty(), "{line}");
            }
            fault => return Err(fault.into()),
        }
    }
    Ok(())
}

#[test]
fn the_file_of_the_trace(rt: HostRuntime) -> Result<(), Fail> {
    let line = "cachesim csim -s 4 -E 1 -b 4 -t f";
    let command = parsed(rt.alloc(), line)?;
    assert!(rt; command.trace.as_deref() == Some("f"));
    let line = "cachesim din -l1-usize 16 -l1-ubsize 16";
    let command = parsed(rt.alloc(), line)?;
    assert!(rt; command.trace.is_none());
    Ok(())
}
