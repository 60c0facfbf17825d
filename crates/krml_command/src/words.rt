//! What the words of a command line ask for.

ghost use Rattle.std.specs.Prelude.{◌≡◌, ℕ, List, [], IfOk, Some, None, Err, map, option_map};
ghost use Rattle.std.specs.String.{string_bytes};
ghost use Rattle.clap.specs.Words.{first_of, found_of, rows_of};
ghost use Rattle.krml_command.specs.declared.refusal.WordsRefusal.TheVariants.{Usage};
ghost use Rattle.krml_command.specs.Values.{command_of};
ghost use Rattle.krml_command.specs.Request.{AsksAsWritten, IsInRange, command_in, is_traced, request_in, request_of, settings_in};

use crate::line::parse;
use crate::numbers::{BOUND, DEPTH, PAGES, setting};
use crate::refusal::WordsRefusal;
use crate::request::{Command, Request, Settings};
use clap::ArgMatches;
use krml_trace::Seq;
use std::alloc::Global;

/// The command of this name, on the words after it.
fn command_of(name: &str, rest: &[&str]) -> Option<Command>
    ensures { result ≡ command_of name.now (map (λ w. w.now) rest.now) }
{
    match name {
        "c" if rest.is_empty() => Some(Command::C),
        "check" if rest.is_empty() => Some(Command::Check),
        _ => None,
    }
}

/// The first value of a name.
fn value_of<'a>(matches: &ArgMatches<'a>, id: &str) -> Option<&'a str>
    ensures { option_map (λ s. s.now) result ≡ first_of id.now (rows_of (found_of matches.now)) }
{
    matches.get_str(id)
}

/// The command that is asked for, where the words after its name are what it takes.
fn command(matches: &ArgMatches<'_>) -> Option<Command>
    ensures { result ≡ command_in (rows_of (found_of matches.now)) }
{
    let name = value_of(matches, "COMMAND")?;
    match matches.get_strs("REST") {
        Some(rest) => command_of(name, rest),
        None => command_of(name, &[]),
    }
}

/// Whether the flag was given.
fn is_traced(matches: &ArgMatches<'_>) -> bool
    ensures { result ≡ is_traced (rows_of (found_of matches.now)) }
{
    match value_of(matches, "trace") {
        Some(text) => text == "true",
        None => false,
    }
}

/// The settings, where each value is of its form and in its range. No pass is stored, so none has a name.
fn settings(alloc: Global, matches: &ArgMatches<'_>) -> Option<Settings>
    ensures { result ≡ settings_in [] (rows_of (found_of matches.now)) }
{
    let pages = setting(value_of(matches, "pages"), PAGES)?;
    let bound = setting(value_of(matches, "bound"), BOUND)?;
    let depth = setting(value_of(matches, "depth"), DEPTH)?;
    if value_of(matches, "opt").is_some() {
        return None;
    }
    Some(Settings {
        pages: pages as u32,
        bound,
        depth: depth as u32,
        trace: is_traced(matches),
        passes: Seq::new(alloc),
    })
}

/// What the matches of a command line ask for.
fn request(alloc: Global, matches: &ArgMatches<'_>) -> Option<Request>
    ensures { result ≡ request_in [] (rows_of (found_of matches.now)) }
{
    let command = command(matches)?;
    let settings = settings(alloc, matches)?;
    Some(Request { command, settings })
}

/// Reads the words of a command line, without the program's own name:
/// `[--pages N] [--bound N] [--depth N] [--opt NAMES] [--trace] COMMAND [REST]..`, where the options may stand anywhere before
/// a word `--`, each at most once.
pub fn read_words(alloc: Global, words: &[String]) -> Result<Request, WordsRefusal>
    ensures ok { IfOk result (λ r. request_of [] (map string_bytes words.now) ≡ Some r) }
    ensures ranges { IfOk result (λ r. IsInRange r.settings) }
    ensures usage { result ≡ Err Usage → request_of [] (map string_bytes words.now) ≡ None }
{
    let matches = parse(alloc, words)?;
    match request(alloc, &matches) {
        Some(request) => Ok(request),
        None => Err(WordsRefusal::Usage),
    }
}

/// What a line asks for that is a command's name, alone or with options, as it stands there.
pub fn written_lines()
    ensures { (name : List ℕ) (asked : Command) → command_of name [] ≡ Some asked → AsksAsWritten name asked }
{}
