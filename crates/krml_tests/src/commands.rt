//! Command lines that are read, and that are refused.

use krml_command::{Command, Request, Settings, WordsRefusal, read_words};
use krml_trace::NoMemory;
use std::alloc::Global;

/// The words of a line, which stand between single spaces.
fn words_of(alloc: Global, line: &str) -> Result<Vec<String>, NoMemory> {
    let mut words = Vec::new(alloc);
    if !line.is_empty() {
        for word in line.split(' ') {
            words.push(String::from_str(alloc, word)?)?;
        }
    }
    Ok(words)
}

/// Whether the request is this command with these pages, ticks, calls and events.
fn is(request: &Request, command: Command, numbers: (u32, u64, u32), trace: bool) -> bool {
    let settings = &request.settings;
    request.command == command
        && (settings.pages, settings.bound, settings.depth) == numbers
        && settings.trace == trace
        && settings.passes.is_empty()
}

const STANDARD: (u32, u64, u32) = (16, 1_000_000, 100);

#[test]
fn reads_commands(rt: HostRuntime) {
    let cases = [
        ("c", Command::C, STANDARD, false),
        ("check", Command::Check, STANDARD, false),
        ("-- c", Command::C, STANDARD, false),
        ("c --", Command::C, STANDARD, false),
        ("--trace c", Command::C, STANDARD, true),
        ("check --trace", Command::Check, STANDARD, true),
        ("c --pages=4", Command::C, (4, 1_000_000, 100), false),
        ("c --pages 4", Command::C, (4, 1_000_000, 100), false),
        ("--pages 4 c", Command::C, (4, 1_000_000, 100), false),
        ("--pages=4 -- c", Command::C, (4, 1_000_000, 100), false),
        (
            "--pages 1 c --bound 0 --depth 1",
            Command::C,
            (1, 0, 1),
            false,
        ),
        (
            "--depth=100 --trace --bound=10000000 check --pages=1024",
            Command::Check,
            (1024, 10_000_000, 100),
            true,
        ),
        (
            "c --pages 0004 --bound 00 --depth 0000000000000000000000007",
            Command::C,
            (4, 0, 7),
            false,
        ),
    ];
    for (line, command, numbers, trace) in cases {
        let words = words_of(rt.alloc(), line).expect(&rt, "memory");
        let request = read_words(rt.alloc(), words.as_slice()).expect(&rt, line);
        assert!(rt; is(&request, command, numbers, trace), "{line}");
    }
}

#[test]
fn refuses_other_words(rt: HostRuntime) {
    let cases = [
        // No command, an unknown one, and words after one.
        "",
        "--",
        "--trace",
        "-",
        "C",
        "cc",
        "checks",
        "run-src f",
        "c c",
        "c -- c",
        "c --trace check",
        "c -",
        "-- --pages=4 c",
        "c -- --pages=4",
        " c",
        "c ",
        // Options that are none, or stand twice.
        "--page=4 c",
        "--pages=4 --pages=4 c",
        "--pages 4 c --pages 5",
        "--trace c --trace",
        "--trace=x c",
        "--trace= c",
        "--fast c",
        "-p 4 c",
        "-trace c",
        "--=4 c",
        "--help",
        "c --help",
        "-h",
        "--version",
        "-V c",
        "help c",
        // Values that are none, or out of their form or range.
        "c --pages",
        "c --pages --trace",
        "--pages -- c",
        "c --pages -4",
        "c --pages=-4",
        "c --pages=+4",
        "c --pages=",
        "c --pages=0",
        "c --pages=1025",
        "c --pages=4x",
        "c --pages=0x4",
        "c --pages=4.0",
        "c --pages=1_0",
        "c --pages=4294967312",
        "c --pages -",
        "--pages  c",
        "c --bound=10000001",
        "c --bound=18446744073709551616",
        "c --bound=",
        "check --depth=0",
        "check --depth=101",
        // No pass is stored.
        "c --opt=",
        "c --opt a",
        "check --opt=a,b",
        "c --opt",
    ];
    for line in cases {
        let words = words_of(rt.alloc(), line).expect(&rt, "memory");
        let answer = read_words(rt.alloc(), words.as_slice());
        assert!(rt; matches!(answer, Err(WordsRefusal::Usage)), "{line}");
    }
}
