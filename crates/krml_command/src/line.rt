//! The command line as clap is told of it.

ghost use Rattle.std.specs.Prelude.{◌≡◌, false, map, IfOk};
ghost use Rattle.std.specs.String.{string_bytes};
ghost use Rattle.clap.specs.Words.{app_of, kind_of, rule_of};
ghost use Rattle.krml_command.specs.Line.{command_rule, line, option_rule, refusal_for, rest_rule, trace_rule, ParsesLine};

use crate::refusal::WordsRefusal;
use clap::error::ErrorKind;
use clap::{Arg, ArgAction, ArgMatches, Error};
use std::alloc::{AllocError, Global};

/// `--name VALUE` or `--name=VALUE`.
fn option<'a>(alloc: Global, name: &'a str) -> Arg<'a>
    ensures rule { rule_of result ≡ option_rule name.now }
    ensures local { result.global ≡ false }
{
    Arg::new(alloc, name).long(name).action(ArgAction::Set)
}

/// `--trace`.
fn trace<'a>(alloc: Global) -> Arg<'a>
    ensures rule { rule_of result ≡ trace_rule }
    ensures local { result.global ≡ false }
{
    Arg::new(alloc, "trace")
        .long("trace")
        .action(ArgAction::SetTrue)
}

/// One word, which has to stand.
fn command<'a>(alloc: Global) -> Arg<'a>
    ensures rule { rule_of result ≡ command_rule }
    ensures local { result.global ≡ false }
{
    Arg::new(alloc, "COMMAND")
        .required(true)
        .action(ArgAction::Set)
}

/// The words after it.
fn rest<'a>(alloc: Global) -> Arg<'a>
    ensures rule { rule_of result ≡ rest_rule }
    ensures local { result.global ≡ false }
{
    Arg::new(alloc, "REST").action(ArgAction::Append)
}

/// The form of a command line.
fn line<'a>(alloc: Global) -> Result<clap::Command<'a>, AllocError>
    ensures { IfOk result (λ c. app_of c ≡ line) }
{
    clap::Command::new(alloc, "krml")
        .no_binary_name(true)
        .disable_help_flag(true)
        .arg(option(alloc, "pages"))?
        .arg(option(alloc, "bound"))?
        .arg(option(alloc, "depth"))?
        .arg(option(alloc, "opt"))?
        .arg(trace(alloc))?
        .arg(command(alloc))?
        .arg(rest(alloc))
}

fn refusal_of(error: &Error) -> WordsRefusal
    ensures { result ≡ refusal_for (kind_of error.now) }
{
    match error.kind() {
        ErrorKind::OutOfMemory => WordsRefusal::NoMemory,
        _ => WordsRefusal::Usage,
    }
}

/// What the words give for each name of a command line.
pub(crate) fn parse<'a>(alloc: Global, words: &'a [String]) -> Result<ArgMatches<'a>, WordsRefusal>
    ensures { ParsesLine (map string_bytes words.now) result }
{
    let line = line(alloc)?;
    match line.try_get_matches_from(words) {
        Ok(matches) => Ok(matches),
        Err(error) => Err(refusal_of(&error)),
    }
}
