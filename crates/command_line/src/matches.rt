//! The arguments by `clap`: the commands that it is given, and what is read of its matches.
ghost use Rattle.std.specs.Prelude.{◌≡◌, IfOk, [], false, map, option_map, unwrap_or};
ghost use Rattle.std.specs.List.{list_any};
ghost use Rattle.clap.specs.Simple.{App, with_rule, with_subcommand};
ghost use Rattle.clap.specs.Walk.{Rule};
ghost use Rattle.clap.specs.Words.{app_of, found_of, rows_of, rule_of, shape_of, subcommand_rows_of};
ghost use Rattle.clap.specs.declared.builder.command.Command.TheViews.{out-Command};
ghost use Rattle.command_line.specs.Lines.{estimate_in as estimate_in_texts, is_hyphens, levels_in as levels_in_text, line_of_texts, number_given as number_of_option, run_line as line_of_given, size_in as size_in_texts, texts_of};
ghost use Rattle.command_line.specs.Matches.{app_to_bulk, bare_app, bwe_app, estimate_app, estimate_given, given_in, levels_app, levels_given, line_entered, line_met, option_rule, place_rule, run_app, size_given, sized_app, texts_in};

use crate::CommandLine;
use crate::number::{any_number, number_in};
use bwe_specs::{
    MAX_HEADROOM, MAX_MADE_GROUPS, MAX_MADE_TASKS, MAX_READERS, MAX_READS, MAX_SHARE, MAX_WINDOW,
    MIN_HEADROOM, OutOfMemory,
};
use clap::error::ErrorKind;
use clap::{Arg, ArgAction, ArgMatches, Command};
use std::alloc::{AllocError, Global};

// The command that the arguments are. None of them is `--`, after which `clap` reads any argument
// as a text.
pub(crate) fn line_split(
    alloc: Global,
    words: &[String],
) -> Result<Option<CommandLine>, OutOfMemory>
    requires { list_any is_hyphens (texts_of words.now) ≡ false }
    ensures { IfOk result (λ line. line ≡ line_of_texts (texts_of words.now)) }
{
    match command(alloc)?.try_get_matches_from(words) {
        Ok(matches) => Ok(line_of_matches(&matches)),
        Err(error) => match error.kind() {
            ErrorKind::OutOfMemory => Err(OutOfMemory),
            _ => Ok(None),
        },
    }
}

// All commands: a subcommand for each, in the order of the usage line.
fn command<'a>(alloc: Global) -> Result<Command<'a>, AllocError>
    ensures { IfOk result (λ command. app_of command ≡ bwe_app) }
{
    let lines = with_line(lines_to_bulk(alloc), Ok(Command::new(alloc, "audit")));
    let lines = with_line(lines, Ok(Command::new(alloc, "tiers")));
    let lines = with_line(lines, Ok(Command::new(alloc, "enforce")));
    let lines = with_line(lines, estimate_command(alloc));
    with_line(lines, levels_command(alloc))
}

// The commands up to `bulk`.
fn lines_to_bulk<'a>(alloc: Global) -> Result<Command<'a>, AllocError>
    ensures { IfOk result (λ command. app_of command ≡ app_to_bulk) }
{
    let lines = with_line(Ok(bare_command(alloc)), Ok(Command::new(alloc, "solve")));
    let lines = with_line(lines, Ok(Command::new(alloc, "check")));
    let lines = with_line(lines, run_command(alloc));
    let lines = with_line(lines, sized_command(alloc, "make"));
    with_line(lines, sized_command(alloc, "bulk"))
}

// The commands with one more. It takes what may have failed, so that its callers have no command to
// let go.
fn with_line<'a>(
    lines: Result<Command<'a>, AllocError>,
    line: Result<Command<'a>, AllocError>,
) -> Result<Command<'a>, AllocError>
    ensures { (app line_app : App) → IfOk lines.entry (λ command. app_of command ≡ app)
        → IfOk line.entry (λ command. app_of command ≡ line_app)
        → IfOk line.entry (λ command. (out-Command command).has_globals ≡ false)
        → IfOk result (λ command. app_of command ≡ with_subcommand app line_app.top) }
{
    let lines = lines?;
    let line = line?;
    lines.subcommand(line)
}

// The program without a command.
fn bare_command<'a>(alloc: Global) -> Command<'a>
    ensures { app_of result ≡ bare_app }
{
    Command::new(alloc, "bwe")
        .no_binary_name(true)
        .disable_help_flag(true)
        .disable_help_subcommand(true)
        .subcommand_required(true)
}

// `run`, whose options have one text for each use.
fn run_command<'a>(alloc: Global) -> Result<Command<'a>, AllocError>
    ensures app { IfOk result (λ command. app_of command ≡ run_app) }
    ensures local { IfOk result (λ command. (out-Command command).has_globals ≡ false) }
{
    let command = with_arg(Ok(Command::new(alloc, "run")), option(alloc, "readers"));
    with_arg(command, option(alloc, "reads"))
}

// `make` or `bulk`, with its three places.
fn sized_command<'a>(alloc: Global, name: &'a str) -> Result<Command<'a>, AllocError>
    ensures app { IfOk result (λ command. app_of command ≡ sized_app name.entry.now) }
    ensures local { IfOk result (λ command. (out-Command command).has_globals ≡ false) }
{
    let command = with_arg(Ok(Command::new(alloc, name)), place(alloc, "seed"));
    let command = with_arg(command, place(alloc, "groups"));
    with_arg(command, place(alloc, "tasks"))
}

// `estimate`, with its two places.
fn estimate_command<'a>(alloc: Global) -> Result<Command<'a>, AllocError>
    ensures app { IfOk result (λ command. app_of command ≡ estimate_app) }
    ensures local { IfOk result (λ command. (out-Command command).has_globals ≡ false) }
{
    let command = with_arg(Ok(Command::new(alloc, "estimate")), place(alloc, "window"));
    with_arg(command, place(alloc, "headroom"))
}

// `levels`, with its one place.
fn levels_command<'a>(alloc: Global) -> Result<Command<'a>, AllocError>
    ensures app { IfOk result (λ command. app_of command ≡ levels_app) }
    ensures local { IfOk result (λ command. (out-Command command).has_globals ≡ false) }
{
    with_arg(Ok(Command::new(alloc, "levels")), place(alloc, "share"))
}

// The command with one argument more, as `with_line`.
fn with_arg<'a>(
    command: Result<Command<'a>, AllocError>,
    arg: Arg<'a>,
) -> Result<Command<'a>, AllocError>
    requires local_arg { arg.global ≡ false }
    ensures app { (app : App) (rule : Rule) → IfOk command.entry (λ command. app_of command ≡ app)
        → rule_of arg.entry ≡ rule → IfOk result (λ command. app_of command ≡ with_rule app rule) }
    ensures local { IfOk command.entry (λ command. (out-Command command).has_globals ≡ false)
        → IfOk result (λ command. (out-Command command).has_globals ≡ false) }
{
    let command = command?;
    command.arg(arg)
}

// An option, which may be given again.
fn option<'a>(alloc: Global, name: &'a str) -> Arg<'a>
    ensures rule { rule_of result ≡ option_rule name.entry.now }
    ensures local { result.global ≡ false }
{
    Arg::new(alloc, name).long(name).action(ArgAction::Append)
}

// A text that is required in its place.
fn place<'a>(alloc: Global, name: &'a str) -> Arg<'a>
    ensures rule { rule_of result ≡ place_rule name.entry.now }
    ensures local { result.global ≡ false }
{
    Arg::new(alloc, name).required(true).action(ArgAction::Set)
}

// The command of the subcommand that was met.
fn line_of_matches(matches: &ArgMatches<'_>) -> Option<CommandLine>
    ensures { result ≡ line_met (subcommand_rows_of matches.now) }
{
    let (name, given) = matches.subcommand()?;
    line_of_subcommand(name, given)
}

// The command of this subcommand, by the texts that it was given.
fn line_of_subcommand(name: &str, given: &ArgMatches<'_>) -> Option<CommandLine>
    ensures { result ≡ line_entered name.now (rows_of (found_of given.now)) }
{
    match name {
        "solve" => Some(CommandLine::Solve),
        "check" => Some(CommandLine::Check),
        "run" => run_line(given),
        "make" => {
            let Size {
                seed,
                groups,
                tasks,
            } = size_of(given)?;
            Some(CommandLine::Make {
                seed,
                groups,
                tasks,
            })
        }
        "bulk" => {
            let Size {
                seed,
                groups,
                tasks,
            } = size_of(given)?;
            Some(CommandLine::Bulk {
                seed,
                groups,
                tasks,
            })
        }
        "audit" => Some(CommandLine::Audit),
        "tiers" => Some(CommandLine::Tiers),
        "enforce" => Some(CommandLine::Enforce),
        "estimate" => estimate_line(given),
        "levels" => levels_line(given),
        _ => None,
    }
}

// `run` with its options.
fn run_line(given: &ArgMatches<'_>) -> Option<CommandLine>
    ensures { result ≡ line_of_given (given_in (rows_of (found_of given.now))) }
{
    let readers = number_given(given.get_strs("readers"), 2, 1, MAX_READERS)?;
    let reads = number_given(given.get_strs("reads"), 4, 0, MAX_READS)?;
    Some(CommandLine::Run { readers, reads })
}

// The number of an option that is given at most once.
fn number_given(texts: Option<&[&str]>, default: u32, least: u32, most: u32) -> Option<u32>
    ensures { result ≡ number_of_option default least most
        (unwrap_or (option_map (λ found. map (λ text. text.now) found.now) texts.entry) []) }
{
    match texts {
        None => Some(default),
        Some([]) => Some(default),
        Some([text]) => number_in(text, least, most),
        Some(_) => None,
    }
}

// What `make` and `bulk` are given.
#[derive(Clone, Copy, Drop)]
struct Size {
    seed: u64,
    groups: u32,
    tasks: u32,
}

// SEED, GROUPS and TASKS in their places.
fn size_of(given: &ArgMatches<'_>) -> Option<Size>
    ensures { result ≡ size_given (rows_of (found_of given.now)) }
{
    let seed = given.get_str("seed")?;
    let groups = given.get_str("groups")?;
    let tasks = given.get_str("tasks")?;
    size_in(seed, groups, tasks)
}

// The three numbers of the texts; there are at least as many tasks as groups.
fn size_in(seed: &str, groups: &str, tasks: &str) -> Option<Size>
    ensures { result ≡ size_in_texts seed.now groups.now tasks.now }
{
    let seed = any_number(seed)?;
    let groups = number_in(groups, 1, MAX_MADE_GROUPS as u32)?;
    let tasks = number_in(tasks, groups, MAX_MADE_TASKS as u32)?;
    Some(Size {
        seed,
        groups,
        tasks,
    })
}

// `estimate` with the texts in its places.
fn estimate_line(given: &ArgMatches<'_>) -> Option<CommandLine>
    ensures { result ≡ estimate_given (rows_of (found_of given.now)) }
{
    let window = given.get_str("window")?;
    let headroom = given.get_str("headroom")?;
    estimate_in(window, headroom)
}

// `estimate` with the two numbers of the texts.
fn estimate_in(window: &str, headroom: &str) -> Option<CommandLine>
    ensures { result ≡ estimate_in_texts window.now headroom.now }
{
    let window = number_in(window, 1, MAX_WINDOW)?;
    let headroom = number_in(headroom, MIN_HEADROOM, MAX_HEADROOM)?;
    Some(CommandLine::Estimate { window, headroom })
}

// `levels` with the text in its place.
fn levels_line(given: &ArgMatches<'_>) -> Option<CommandLine>
    ensures { result ≡ levels_given (rows_of (found_of given.now)) }
{
    let share = given.get_str("share")?;
    levels_in(share)
}

// `levels` with the number of the text.
fn levels_in(share: &str) -> Option<CommandLine>
    ensures { result ≡ levels_in_text share.now }
{
    let share = u64::from(number_in(share, 0, MAX_SHARE as u32)?);
    Some(CommandLine::Levels { share })
}
