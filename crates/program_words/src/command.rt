//! The command, as `clap` is told of it.

ghost use Rattle.std.specs.Prelude.{◌≡◌, IfOk, false};
ghost use Rattle.clap.specs.Words.{app_of, rule_of};
ghost use Rattle.program_words.specs.CommandLine.{HeldTexts, budget_rule, command_rule, command_with, file_rule, flag_rule, image_rule, option_rule, task_names, tracks_rule, workers_rule};
ghost use Rattle.clap.specs.Walk.{texts};

use basic_types::MOST_BUDGET;
use clap::builder::ValueParser;
use clap::{Arg, ArgAction, Command};
use std::alloc::{AllocError, Global};

/// The names that COMMAND may have.
static TASKS: [&str; 11] = [
    "alone", "fast", "run", "trial", "explain", "bench", "check", "batch", "at", "list", "pack",
];

fn command_arg<'a>(alloc: Global) -> Arg<'a>
    ensures rule { (names : HeldTexts) × (texts names.now ≡ texts task_names.now) × (rule_of result ≡ command_rule names) }
    ensures local { result.global ≡ false }
{
    Arg::new(alloc, "COMMAND")
        .required(true)
        .value_parser(TASKS.as_slice())
}

fn image_arg<'a>(alloc: Global) -> Arg<'a>
    ensures rule { rule_of result ≡ image_rule }
    ensures local { result.global ≡ false }
{
    Arg::new(alloc, "IMAGE").required(true)
}

fn option_arg<'a>(
    alloc: Global,
    name: &'a str,
    parser: ValueParser<'a>,
    default: &'a str,
) -> Arg<'a>
    ensures rule { rule_of result ≡ option_rule name.now parser.entry default.now }
    ensures local { result.global ≡ false }
{
    Arg::new(alloc, name)
        .long(name)
        .value_parser(parser)
        .default_value(default)
}

fn tracks_arg<'a>(alloc: Global) -> Arg<'a>
    ensures rule { rule_of result ≡ tracks_rule }
    ensures local { result.global ≡ false }
{
    option_arg(alloc, "tracks", clap::value_parser!(u64).range(1..=32), "4")
}

fn workers_arg<'a>(alloc: Global) -> Arg<'a>
    ensures rule { rule_of result ≡ workers_rule }
    ensures local { result.global ≡ false }
{
    option_arg(
        alloc,
        "workers",
        clap::value_parser!(u64).range(0..=64),
        "3",
    )
}

fn budget_arg<'a>(alloc: Global) -> Arg<'a>
    ensures rule { rule_of result ≡ budget_rule }
    ensures local { result.global ≡ false }
{
    let numbers = clap::value_parser!(u64).range(1..=MOST_BUDGET as i64);
    option_arg(alloc, "budget", numbers, "1099511627776")
}

/// The option whose value is any text, the name of a further file.
fn file_arg<'a>(alloc: Global) -> Arg<'a>
    ensures rule { rule_of result ≡ file_rule }
    ensures local { result.global ≡ false }
{
    Arg::new(alloc, "with").long("with")
}

fn flag_arg<'a>(alloc: Global, name: &'a str) -> Arg<'a>
    ensures rule { rule_of result ≡ flag_rule name.now }
    ensures local { result.global ≡ false }
{
    // The parser is the one that the action would set.
    Arg::new(alloc, name)
        .long(name)
        .value_parser(clap::value_parser!(bool))
        .action(ArgAction::SetTrue)
}

/// The command with its arguments.
pub fn command<'a>(alloc: Global) -> Result<Command<'a>, AllocError>
    ensures { IfOk result (λ c. (names : HeldTexts) × (texts names.now ≡ texts task_names.now) × (app_of c ≡ command_with names)) }
{
    Command::new(alloc, "fasttrack")
        .no_binary_name(true)
        .arg(command_arg(alloc))?
        .arg(image_arg(alloc))?
        .arg(tracks_arg(alloc))?
        .arg(workers_arg(alloc))?
        .arg(budget_arg(alloc))?
        .arg(file_arg(alloc))?
        .arg(flag_arg(alloc, "no-input"))?
        .arg(flag_arg(alloc, "report"))?
        .arg(flag_arg(alloc, "journal"))
}
