//! The options of Dinero IV that `din` and `log` do not have, and what is said of them. `clap` by
//! itself names only their first letter, or proposes another option. No contract speaks of texts.

use clap::error::ErrorKind;
use std::alloc::{AllocError, Global};

/// Where the manual says what takes the place of such an option.
const WHERE_TO_LOOK: &str =
    "For options of Dinero IV see \"From Dinero IV\" in the manual: docs/manual.md, man cachesim.";

/// The options that belong to no cache. `-trname` is in some scripts; `clap` reads `-t rname`.
static OF_NO_CACHE: [&str; 12] = [
    "-skipcount",
    "-maxcount",
    "-flushcount",
    "-stat-interval",
    "-stat-idcombine",
    "-on-trigger",
    "-off-trigger",
    "-custom",
    "-copyright",
    "-contact",
    "-dineroIII",
    "-trname",
];

/// The caches of Dinero IV that are here, and those that are not.
static CACHES: [&str; 4] = ["-l1-i", "-l1-d", "-l1-u", "-l2-u"];

static OTHER_CACHES: [&str; 11] = [
    "-l2-i", "-l2-d", "-l3-i", "-l3-d", "-l3-u", "-l4-i", "-l4-d", "-l4-u", "-l5-i", "-l5-d",
    "-l5-u",
];

/// The options of a cache that are here, and those that are not.
static OF_A_CACHE: [&str; 6] = ["size", "bsize", "assoc", "repl", "walloc", "wback"];

static OTHERS_OF_A_CACHE: [&str; 5] = ["fetch", "sbsize", "pfdist", "pfabort", "ccc"];

/// The text of `clap` for what it refuses. If that is an option of Dinero IV, the text names it
/// whole, has no tip, and says where to look.
pub fn refusal_text(
    alloc: Global,
    error: &clap::Error,
    arguments: &[String],
) -> Result<String, AllocError> {
    let text = format!(in alloc; "{error}")?;
    if error.kind() != ErrorKind::UnknownArgument {
        return Ok(text);
    }
    match (
        first_left_out(arguments),
        text.as_str().split_once("Usage: "),
    ) {
        (Some(option), Some((_, usage))) => format!(in alloc;
            "error: unexpected argument '{option}' found\n\nUsage: {usage}{WHERE_TO_LOOK}"
        ),
        _ => Ok(text),
    }
}

/// The first argument of `din` or `log` that is an option of Dinero IV and none of the program's.
fn first_left_out(arguments: &[String]) -> Option<&str> {
    match arguments {
        [_, command, options @ ..] if command.as_str() == "din" || command.as_str() == "log" => {
            for option in options {
                if is_left_out(option.as_str()) {
                    return Some(option.as_str());
                }
            }
            None
        }
        _ => None,
    }
}

/// Whether Dinero IV has this option and the program has not.
fn is_left_out(argument: &str) -> bool {
    is_one_of(argument, &OF_NO_CACHE)
        || is_of_a_cache(argument, &CACHES, &OTHERS_OF_A_CACHE)
        || is_of_a_cache(argument, &OTHER_CACHES, &OF_A_CACHE)
        || is_of_a_cache(argument, &OTHER_CACHES, &OTHERS_OF_A_CACHE)
}

/// Whether the argument is one of these texts.
fn is_one_of(argument: &str, texts: &[&str]) -> bool {
    texts.iter().any(|text| argument == *text)
}

/// Whether the argument is one of these options of one of these caches.
fn is_of_a_cache(argument: &str, caches: &[&str], options: &[&str]) -> bool {
    caches.iter().any(|cache| match argument.strip_prefix(*cache) {
        Some(option) => is_one_of(option, options),
        None => false,
    })
}
