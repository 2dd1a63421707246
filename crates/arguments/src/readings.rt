//! How the text of an option is read.
ghost use Rattle.std.specs.Prelude.{◌≡◌, Some, option_map};
ghost use Rattle.clap.specs.Words.{first_of};
ghost use Rattle.arguments.specs.Faults.{job_result};
ghost use Rattle.arguments.specs.Numbers.{number_of, range_of, triple_of};
ghost use Rattle.arguments.specs.Readings.{format_named, is_flagged, kind_named, optional_value};
ghost use Rattle.arguments.specs.Readings.{required_value, rows_given, value_or};

use crate::faults::WordsFault;
use crate::numbers::{read_number, read_range, read_triple};
use clap::ArgMatches;
use sweep_core::Config;
use trace_core::{Format, Kind};

/// The text of an option, if it was given.
pub fn text_at<'a>(matches: &ArgMatches<'a>, option: &str) -> Option<&'a str>
    ensures { option_map (λ s. s.now) result ≡ first_of option.now (rows_given matches.now) }
{
    matches.get_str(option)
}

/// A range that has to be there.
pub fn range_at(matches: &ArgMatches<'_>, option: &'static str) -> Result<(u64, u64), WordsFault>
    ensures { job_result result
        ≡ Some (required_value option.entry.now range_of (rows_given matches.now)) }
{
    text_at(matches, option)
        .and_then(read_range)
        .ok_or(WordsFault::Value { option })
}

/// A number that has to be there.
pub fn number_at(matches: &ArgMatches<'_>, option: &'static str) -> Result<u64, WordsFault>
    ensures { job_result result
        ≡ Some (required_value option.entry.now number_of (rows_given matches.now)) }
{
    text_at(matches, option)
        .and_then(read_number)
        .ok_or(WordsFault::Value { option })
}

/// A number that may be left out.
pub fn optional_number_at(
    matches: &ArgMatches<'_>,
    option: &'static str,
) -> Result<Option<u64>, WordsFault>
    ensures { job_result result
        ≡ Some (optional_value option.entry.now number_of (rows_given matches.now)) }
{
    let Some(text) = text_at(matches, option) else {
        return Ok(None);
    };
    let number = read_number(text).ok_or(WordsFault::Value { option })?;
    Ok(Some(number))
}

/// A triple that may be left out.
pub fn config_at(
    matches: &ArgMatches<'_>,
    option: &'static str,
) -> Result<Option<Config>, WordsFault>
    ensures { job_result result
        ≡ Some (optional_value option.entry.now triple_of (rows_given matches.now)) }
{
    let Some(text) = text_at(matches, option) else {
        return Ok(None);
    };
    let config = read_triple(text).ok_or(WordsFault::Value { option })?;
    Ok(Some(config))
}

/// The kind of `--kind`, all if it is left out.
pub fn kind_at(matches: &ArgMatches<'_>, option: &'static str) -> Result<Kind, WordsFault>
    ensures { job_result result
        ≡ Some (value_or Kind.All option.entry.now kind_named (rows_given matches.now)) }
{
    match text_at(matches, option).unwrap_or("u") {
        "u" => Ok(Kind::All),
        "d" => Ok(Kind::DataOnly),
        "i" => Ok(Kind::FetchOnly),
        _ => Err(WordsFault::Value { option }),
    }
}

/// The format of `--format` or `-informat`, din if it is left out.
pub fn format_at(matches: &ArgMatches<'_>, option: &'static str) -> Result<Format, WordsFault>
    ensures { job_result result
        ≡ Some (value_or Format.Din option.entry.now format_named (rows_given matches.now)) }
{
    match text_at(matches, option).unwrap_or("d") {
        "d" => Ok(Format::Din),
        "l" => Ok(Format::Lackey),
        _ => Err(WordsFault::Value { option }),
    }
}

/// Whether a flag was given: `clap` then keeps the text `true`, and else `false`.
pub fn is_flagged(matches: &ArgMatches<'_>, option: &str) -> bool
    ensures { result ≡ is_flagged option.now (rows_given matches.now) }
{
    match text_at(matches, option) {
        Some(text) => text == "true",
        None => false,
    }
}
