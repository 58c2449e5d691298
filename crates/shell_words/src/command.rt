//! The commands of the two programs: their options and the names of their files.

ghost use Rattle.std.specs.Prelude.{◌≡◌, IfOk, false, map};
ghost use Rattle.clap.specs.Words.{app_of, rule_of, with_rule};
ghost use Rattle.shell_words.specs.Words.{hb_shape, kuspveli, plain_app, rule_by, short_rule, with_all, with_options};

use clap::{Arg, ArgAction, Command};
use std::alloc::{AllocError, Global};

/// The kind of an argument of the command.
#[derive(Clone, Copy)]
pub(crate) enum Kind {
    /// An option with a value.
    Value,
    /// An option with a value that may occur several times.
    Values,
    /// An option without a value.
    Switch,
    /// The name of a file.
    File,
    /// The name of a file, or a text, that may be missing.
    Optional,
}

const VALUES: [&str; 4] = ["direction", "script", "language", "cluster-level"];

const SWITCHES: [&str; 17] = [
    "bot",
    "eot",
    "preserve-default-ignorables",
    "remove-default-ignorables",
    "no-dotted-circle",
    "unsafe-to-concat",
    "safe-to-insert-tatweel",
    "safe-breaks",
    "no-clusters",
    "no-positions",
    "no-glyph-names",
    "show-extents",
    "show-flags",
    "no-advances",
    "slices",
    "lines",
    "keep-going",
];

const FILES: [&str; 3] = ["tables", "font", "text"];

/// The command of the program `hb_shape`, as clap has it.
pub(crate) fn hb_shape<'a>(alloc: Global) -> Result<Command<'a>, AllocError>
    ensures { IfOk result (λ c. app_of c ≡ hb_shape) }
{
    let command = with_options(alloc, Command::new(alloc, "hb_shape"))?;
    with_arguments(alloc, command, Kind::File, &FILES)
}

/// The command of the program `kuspveli`, as clap has it. Its help is a switch like the others, since clap's own answer
/// to a request for help is a fault.
pub(crate) fn kuspveli<'a>(alloc: Global) -> Result<Command<'a>, AllocError>
    ensures { IfOk result (λ c. app_of c ≡ kuspveli) }
{
    let command = with_options(alloc, plain_command(alloc, "kuspveli"))?;
    let command = with_arguments(alloc, command, Kind::Value, &["face"])?;
    let command = with_arguments(alloc, command, Kind::Switch, &["json"])?;
    let command = with_short(alloc, command, "help", 'h')?;
    let command = with_short(alloc, command, "version", 'V')?;
    with_arguments(alloc, command, Kind::Optional, &["font", "text"])
}

/// A command without clap's own switch for help.
fn plain_command<'a>(alloc: Global, name: &'a str) -> Command<'a>
    ensures { app_of result ≡ plain_app name.entry.now }
{
    Command::new(alloc, name).disable_help_flag(true)
}

/// A command with a switch that has a short name too.
fn with_short<'a>(
    alloc: Global,
    command: Command<'a>,
    id: &'a str,
    short: char,
) -> Result<Command<'a>, AllocError>
    ensures { IfOk result (λ c. app_of c ≡ with_rule (app_of command.entry) (short_rule short id.entry.now)) }
{
    let switch = Arg::new(alloc, id).long(id).short(short);
    command.arg(switch.action(ArgAction::SetTrue))
}

/// A command with the options of a text.
fn with_options<'a>(alloc: Global, command: Command<'a>) -> Result<Command<'a>, AllocError>
    ensures { IfOk result (λ c. app_of c ≡ with_options (app_of command.entry)) }
{
    let command = with_arguments(alloc, command, Kind::Value, &VALUES)?;
    let command = with_arguments(alloc, command, Kind::Values, &["features"])?;
    let command = with_arguments(alloc, command, Kind::Switch, &SWITCHES)?;
    Ok(command)
}

/// A command with an argument for each name.
fn with_arguments<'a>(
    alloc: Global,
    command: Command<'a>,
    kind: Kind,
    ids: &[&'a str],
) -> Result<Command<'a>, AllocError>
    ensures { IfOk result (λ c. app_of c
        ≡ with_all (rule_by kind) (map (λ t. t.now) ids.now) (app_of command.entry)) }
{
    let mut command = command;
    for id in ids {
        command = command.arg(argument(alloc, kind, id))?;
    }
    Ok(command)
}

fn argument<'a>(alloc: Global, kind: Kind, id: &'a str) -> Arg<'a>
    ensures rule { rule_of result ≡ rule_by kind id.entry.now }
    ensures own { result.global ≡ false }
{
    match kind {
        Kind::Value => Arg::new(alloc, id).long(id).action(ArgAction::Set),
        Kind::Values => Arg::new(alloc, id).long(id).action(ArgAction::Append),
        Kind::Switch => Arg::new(alloc, id).long(id).action(ArgAction::SetTrue),
        Kind::File => Arg::new(alloc, id).required(true).action(ArgAction::Set),
        Kind::Optional => Arg::new(alloc, id).action(ArgAction::Set),
    }
}
