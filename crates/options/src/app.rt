//! The commands and their options, as `clap` meets them.
ghost use Rattle.std.specs.Prelude.{◌≡◌, ◌++◌, IfOk, OnOk, Some, false, map};
ghost use Rattle.clap.specs.Words.{app_of, new_rule, rule_of};
ghost use Rattle.clap.specs.declared.builder.command.Command.TheViews.{out-Command as fields_of};
ghost use Rattle.options.specs.Options.{cachesim_app, csim_rules, din_rules, sweep_rules};
ghost use Rattle.options.specs.internal.OptionsInCode.{app_and_global, leaf_of, own_leaf};
ghost use Rattle.options.specs.internal.OptionsInCode.{own_rule, rule_and_global, rule_of_option};
ghost use Rattle.options.specs.internal.OptionsInCode.{rules_of, with_spelling};

use crate::caches::cache_options;
use crate::help;
use crate::table::Presence::{Flag, Optional, Required};
use crate::table::Spelling::{Long, Short};
use crate::table::{
    AFTER, ASSOC, BLOCK_BITS, BSIZE, CommandOption, FILE, FORMAT, FULL, INFORMAT, KIND,
    LACKEY_FILE, LINES, POW2, ROWS, SEED, SET_BITS, SETS, SIZE, VERBOSE,
};
use cache_core::CacheName;
use clap::{Arg, ArgAction, Command};
use std::alloc::{AllocError, Global};

// The check takes long if a `Command` or an `Arg` is alive across a branch. So each is made in
// one expression without a way out, or kept in a list.

/// The program's command line for `clap`, with its help.
pub fn cachesim_command<'a>(alloc: Global) -> Result<Command<'a>, AllocError>
    ensures app { IfOk result (λ c. app_of c ≡ cachesim_app) }
    ensures local { IfOk result (λ c. (fields_of c).has_globals ≡ false) }
{
    let commands = leaf_commands(alloc, &COMMANDS)?;
    Command::new(alloc, "cachesim")
        .about(help::ABOUT)
        .override_usage(help::USAGE)
        .after_help(help::PROGRAM)
        .subcommand_required(true)
        .disable_help_subcommand(true)
        .subcommands(commands)
}

/// Whose options a command has: `log` has those of `din`.
#[derive(Clone, Copy)]
pub enum OptionsOf {
    Csim,
    Din,
    Sweep,
}

/// A command: its name, its texts of help before and after its options, its usage line, and these
/// options.
pub struct CommandText {
    pub name: &'static str,
    pub about: &'static str,
    pub usage: &'static str,
    pub after_help: &'static str,
    pub options: OptionsOf,
}

/// The commands, in the order of help.
static COMMANDS: [CommandText; 4] = [
    CommandText {
        name: "csim",
        about: help::CSIM_ABOUT,
        usage: help::CSIM_USAGE,
        after_help: help::CSIM,
        options: OptionsOf::Csim,
    },
    CommandText {
        name: "din",
        about: help::DIN_ABOUT,
        usage: help::DIN_USAGE,
        after_help: help::DIN,
        options: OptionsOf::Din,
    },
    CommandText {
        name: "log",
        about: help::LOG_ABOUT,
        usage: help::LOG_USAGE,
        after_help: help::LOG,
        options: OptionsOf::Din,
    },
    CommandText {
        name: "sweep",
        about: help::SWEEP_ABOUT,
        usage: help::SWEEP_USAGE,
        after_help: help::SWEEP,
        options: OptionsOf::Sweep,
    },
];

/// These commands as `clap` takes them.
fn leaf_commands<'a>(alloc: Global, texts: &[CommandText]) -> Result<Vec<Command<'a>>, AllocError>
    ensures { IfOk result (λ v. map app_and_global v.items
        ≡ map (λ text. own_leaf (leaf_of text)) texts.now) }
{
    let mut commands = Vec::new(alloc);
    for text in texts {
        commands.push(leaf_command(alloc, text)?)?;
    }
    Ok(commands)
}

/// A command with its texts and its options.
fn leaf_command<'a>(alloc: Global, text: &CommandText) -> Result<Command<'a>, AllocError>
    ensures { IfOk result (λ c. app_and_global c ≡ own_leaf (leaf_of text.now)) }
{
    let args = args_of(alloc, text.options)?;
    Command::new(alloc, text.name)
        .about(text.about)
        .override_usage(text.usage)
        .after_help(text.after_help)
        .args(args)
}

/// The options of a command.
fn args_of<'a>(alloc: Global, options: OptionsOf) -> Result<Vec<Arg<'a>>, AllocError>
    ensures { IfOk result (λ v. map rule_and_global v.items ≡ map own_rule (rules_of options)) }
{
    match options {
        OptionsOf::Csim => csim_args(alloc),
        OptionsOf::Din => din_args(alloc),
        OptionsOf::Sweep => sweep_args(alloc),
    }
}

/// The options of `csim`.
fn csim_args<'a>(alloc: Global) -> Result<Vec<Arg<'a>>, AllocError>
    ensures { IfOk result (λ v. map rule_and_global v.items ≡ map own_rule csim_rules) }
{
    let options = [&SET_BITS, &LINES, &BLOCK_BITS, &LACKEY_FILE, &VERBOSE];
    let mut args = Vec::new(alloc);
    push_options(alloc, &mut args, None, &options)?;
    Ok(args)
}

/// The options of `sweep`.
fn sweep_args<'a>(alloc: Global) -> Result<Vec<Arg<'a>>, AllocError>
    ensures { IfOk result (λ v. map rule_and_global v.items ≡ map own_rule sweep_rules) }
{
    let options = [
        &BSIZE, &SETS, &ASSOC, &SIZE, &KIND, &FORMAT, &AFTER, &ROWS, &POW2, &FULL, &FILE,
    ];
    let mut args = Vec::new(alloc);
    push_options(alloc, &mut args, None, &options)?;
    Ok(args)
}

/// The caches of `din` and `log`, each with the heading of its options in help.
static DIN_CACHES: [(CacheName, &str); 4] = [
    (CacheName::L1I, "First-level instruction cache"),
    (CacheName::L1D, "First-level data cache"),
    (CacheName::L1U, "First-level unified cache"),
    (CacheName::L2U, "Second-level unified cache"),
];

/// The options of `din` and `log`: those of each cache stand under a heading of their own.
fn din_args<'a>(alloc: Global) -> Result<Vec<Arg<'a>>, AllocError>
    ensures { IfOk result (λ v. map rule_and_global v.items ≡ map own_rule din_rules) }
{
    let mut args = Vec::new(alloc);
    push_options(alloc, &mut args, None, &[&INFORMAT, &SEED, &FILE])?;
    for &(cache, heading) in &DIN_CACHES {
        let of = cache_options(cache);
        let options = [
            &of.size, &of.sets, &of.bsize, &of.assoc, &of.repl, &of.walloc, &of.wback,
        ];
        push_options(alloc, &mut args, Some(heading), &options)?;
    }
    Ok(args)
}

/// Adds options, under a heading or under that of all commands.
fn push_options<'a>(
    alloc: Global,
    args: &mut Vec<Arg<'a>>,
    heading: Option<&'static str>,
    options: &[&CommandOption],
) -> Result<(), AllocError>
    ensures { OnOk result (map rule_and_global args.new.items ≡ map rule_and_global args.old.items
        ++ map own_rule (map (λ option. rule_of_option option.now) options.now)) }
{
    for option in options {
        args.push(arg_under(alloc, heading, option))?;
    }
    Ok(())
}

/// The option under a heading of the help.
fn arg_under<'a>(alloc: Global, heading: Option<&'static str>, option: &CommandOption) -> Arg<'a>
    ensures rule { rule_and_global result ≡ own_rule (rule_of_option option.now) }
    ensures help { result.help ≡ Some option.now.help }
{
    match heading {
        Some(heading) => arg_of(alloc, option).help_heading(heading),
        None => arg_of(alloc, option),
    }
}

/// The option as `clap` takes it: it has to be given, may be given, or is a flag.
fn arg_of<'a>(alloc: Global, option: &CommandOption) -> Arg<'a>
    ensures rule { rule_and_global result ≡ own_rule (rule_of_option option.now) }
    ensures help { result.help ≡ Some option.now.help }
{
    match option.presence {
        Required(value) => spelled_arg(alloc, option)
            .action(ArgAction::Set)
            .value_name(value)
            .required(true),
        Optional(value) => spelled_arg(alloc, option)
            .action(ArgAction::Set)
            .value_name(value),
        Flag => spelled_arg(alloc, option).action(ArgAction::SetTrue),
    }
}

/// The option with its spelling and its help.
fn spelled_arg<'a>(alloc: Global, option: &CommandOption) -> Arg<'a>
    ensures rule { rule_and_global result
        ≡ own_rule (with_spelling option.now.spelling (new_rule option.now.name.now)) }
    ensures help { result.help ≡ Some option.now.help }
{
    match option.spelling {
        Long(name) => Arg::new(alloc, option.name).help(option.help).long(name),
        Short(letter) => Arg::new(alloc, option.name).help(option.help).short(letter),
    }
}
