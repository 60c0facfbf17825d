//! The program krml: a compiler of a small language to C.
#![tactic(auto)]

mod accept;
mod built;
mod input;
mod krml;
mod output;
mod pipeline;
mod refusal;
mod stop;
#[cfg(test)]
mod tests;

use krml::krml;
use krml_trace::{RealSink, RealSource};
use std::env;
use std::io::{self, ErrorKind};
use std::process::ExitCode;

/// The words behind the program's own name.
fn words(rt: &HostRuntime) -> io::Result<Vec<String>> {
    let mut words = Vec::new(rt.alloc());
    for word in env::args(rt)?.skip(1) {
        words.push(word)?;
    }
    Ok(words)
}

/// The status where the words cannot be read.
fn status_without_words(kind: ErrorKind) -> u8 {
    if kind == ErrorKind::OutOfMemory { 5 } else { 6 }
}

fn main(rt: HostRuntime) -> ExitCode {
    let words = match words(&rt) {
        Ok(words) => words,
        Err(error) => return ExitCode::from(status_without_words(error.kind())),
    };
    let mut source = RealSource::new(rt.stdin());
    let mut out = RealSink::new(rt.stdout());
    let mut notes = RealSink::new(rt.stderr());
    ExitCode::from(krml(
        rt.alloc(),
        words.as_slice(),
        &mut source,
        &mut out,
        &mut notes,
    ))
}
