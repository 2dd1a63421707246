//! Dinero's spelling of the options of `din` and `log`.
ghost use Rattle.std.specs.Prelude.{◌≡◌, ◌++◌, IfOk, OnOk, string_bytes, map};
ghost use Rattle.options.specs.Respell.{has_dinero_options, is_dinero_option};
ghost use Rattle.options.specs.Respell.{respelling_of, spelling_of};
ghost use Rattle.options.specs.Respell.{is_dinero_command};

use std::alloc::{AllocError, Global};

/// The arguments, with two dashes before an option of `din` or `log` that Dinero writes with one.
/// The first two, the program's name and the command, stay as they are.
pub fn respell(alloc: Global, arguments: &[String]) -> Result<Vec<String>, AllocError>
    ensures { IfOk result (λ v. map string_bytes v.items
        ≡ respelling_of (map string_bytes arguments.now)) }
{
    let (head, options) = arguments.split_at(arguments.len().min(2));
    let mut respelled = Vec::with_capacity(alloc, arguments.len())?;
    push_arguments(alloc, &mut respelled, head, false)?;
    push_arguments(alloc, &mut respelled, options, takes_dinero(arguments))?;
    Ok(respelled)
}

/// Whether the second argument is a command with options of Dinero's.
fn takes_dinero(arguments: &[String]) -> bool
    ensures { result ≡ is_dinero_command (map string_bytes arguments.now) }
{
    match arguments {
        [_, command, ..] => has_dinero_options(command.as_str()),
        _ => false,
    }
}

/// Whether a command has options of Dinero's.
fn has_dinero_options(command: &str) -> bool
    ensures { result ≡ has_dinero_options command.now }
{
    command == "din" || command == "log"
}

/// Adds the arguments, as options of Dinero's or as they are.
fn push_arguments(
    alloc: Global,
    list: &mut Vec<String>,
    arguments: &[String],
    takes_dinero: bool,
) -> Result<(), AllocError>
    ensures { OnOk result (map string_bytes list.new.items ≡ map string_bytes list.old.items
        ++ map (spelling_of takes_dinero) (map string_bytes arguments.now)) }
{
    for argument in arguments {
        list.push(respell_argument(alloc, argument.as_str(), takes_dinero)?)?;
    }
    Ok(())
}

/// An argument, as an option of Dinero's or as it is.
fn respell_argument(alloc: Global, argument: &str, takes_dinero: bool) -> Result<String, AllocError>
    ensures { IfOk result (λ s. string_bytes s ≡ spelling_of takes_dinero argument.now) }
{
    if takes_dinero && is_dinero_option(argument) {
        format!(in alloc; "-{argument}")
    } else {
        String::from_str(alloc, argument)
    }
}

/// Whether Dinero writes this option with one dash.
fn is_dinero_option(argument: &str) -> bool
    ensures { result ≡ is_dinero_option argument.now }
{
    argument.starts_with("-l1-") || argument.starts_with("-l2-") || argument == "-informat"
}
