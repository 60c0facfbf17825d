//! The top call: a command, from its words to its status.

ghost use Rattle.std.specs.Prelude.{◌≡◌, ◌↔◌, ◌<◌, ◌≤◌, ◌⊎◌, ℕ, List, Some, IsTrue, IfOk, map};
ghost use Rattle.std.specs.String.{string_bytes};
ghost use Rattle.std.specs.Io.KnownBytes.{Appends, Keeps};
ghost use Rattle.krml_trace.specs.Outside.{Rose};
ghost use Rattle.krml_syntax.specs.declared.tree.SourceFile.{SourceFile};
ghost use Rattle.krml_command.specs.declared.request.Command.{Command};
ghost use Rattle.krml_command.specs.declared.request.Command.TheVariants.{C, Check};
ghost use Rattle.krml_cli.specs.declared.refusal.FileRefusal.{FileRefusal};
ghost use Rattle.krml_cli.specs.declared.stop.Stop.{Stop};
ghost use Rattle.krml_cli.specs.declared.stop.Stop.TheVariants as stop;
ghost use Rattle.krml_cli.specs.Ends.{Asks, IsUsage, AcceptsNone, Compiled, Accepted, Refused, RefusedFor, FailedNotes, PrefixOnly, AppendsPrefix, IsNoted, IsPlain, IsCut, IsLine, status_of, line_of, Ends};
ghost use Rattle.krml_cli.specs.Refusal.{Accepts, Refuses};
ghost use Rattle.krml_cstar.specs.Built.{AreBuilt};
ghost use Rattle.krml_cli.specs.Steps.{Answers, MakesOf, Runs, Notes, Reports};

use crate::accept::accept;
use crate::input::read_input;
use crate::output::{Output, write_all};
use crate::pipeline::emit_c;
use crate::refusal::{FileRefusal, refusal_line};
use crate::stop::Stop;
use krml_ast::BundledFile;
use krml_command::{Command, read_words};
use krml_meaning::checked_files_run;
use krml_reader::one_answer;
use krml_trace::{NoMemory, Sink, SinkFault, Source};
use std::alloc::{AllocError, Global};

/// What a command makes of what the passes gave.
fn output(alloc: Global, command: Command, bundled: &BundledFile) -> Result<Output, NoMemory>
    requires built { AreBuilt bundled.now.0.defs }
    ensures { IfOk result (λ out. MakesOf command bundled.now out.text.items out.status) }
{
    match command {
        Command::C => {
            let text = emit_c(alloc, bundled)?;
            Ok(Output { text, status: 0 })
        }
        Command::Check => {
            let text = Vec::from_slice(alloc, b"accepted\n")?;
            Ok(Output { text, status: 0 })
        }
    }
}

/// What a command makes of a source text.
fn answer(alloc: Global, command: Command, text: &[u8]) -> Result<Output, FileRefusal>
    ensures { Answers command text.now result }
{
    // The law that runs of such a file end as they should. The call does nothing when it runs.
    checked_files_run();
    let bundled = accept(alloc, text)?;
    let out = output(alloc, command, &bundled)?;
    Ok(out)
}

/// What the command that the words ask for is to write.
fn run<S: Source>(alloc: Global, words: &[String], source: &mut S) -> Result<Output, Stop>
    ensures { Runs (map string_bytes words.now) (S.left source.old) (S.left source.new) (S.faults source.old) (S.faults source.new) result }
{
    let command = read_words(alloc, words)?.command;
    let text = read_input(alloc, command, source)?;
    Ok(answer(alloc, command, text.as_slice())?)
}

/// Writes a line to the notes, and gives its status, or that of what failed.
fn note<E: Sink>(notes: &mut E, line: &[u8], status: u8) -> u8
    ensures { Notes (E.written notes.old) (E.written notes.new) (E.faults notes.old) (E.faults notes.new) line.now status result }
{
    match write_all(notes, line) {
        Ok(()) => status,
        Err(SinkFault::Failed) => 4,
        Err(SinkFault::NoMemory) => 5,
    }
}

/// Notes what stopped a command, and gives the status.
fn report<E: Sink>(alloc: Global, notes: &mut E, stop: &Stop) -> u8
    ensures { Reports (E.written notes.old) (E.written notes.new) (E.faults notes.old) (E.faults notes.new) result stop.now }
{
    match stop {
        Stop::Refused(why) => match refusal_line(alloc, why) {
            Ok(line) => note(notes, line.as_slice(), 1),
            Err(AllocError) => note(notes, b"krml: out of memory\n", 5),
        },
        Stop::Usage => note(notes, b"krml: usage\n", 2),
        Stop::ReadFault => note(notes, b"krml: read fault\n", 3),
        Stop::WriteFault => note(notes, b"krml: write fault\n", 4),
        Stop::NoMemory => note(notes, b"krml: out of memory\n", 5),
    }
}

fn command<S: Source, K: Sink, E: Sink>(
    alloc: Global,
    words: &[String],
    source: &mut S,
    out: &mut K,
    notes: &mut E,
) -> u8
    ensures { Ends (record {
      words = map string_bytes words.now;
      left = S.left source.old;
      left' = S.left source.new;
      read_faults = S.faults source.old;
      read_faults' = S.faults source.new;
      written = K.written out.old;
      written' = K.written out.new;
      write_faults = K.faults out.old;
      write_faults' = K.faults out.new;
      noted = E.written notes.old;
      noted' = E.written notes.new;
      note_faults = E.faults notes.old;
      note_faults' = E.faults notes.new;
    }) result }
{
    match run(alloc, words, source) {
        Ok(output) => match write_all(out, output.text.as_slice()) {
            Ok(()) => output.status,
            Err(SinkFault::Failed) => report(alloc, notes, &Stop::WriteFault),
            Err(SinkFault::NoMemory) => report(alloc, notes, &Stop::NoMemory),
        },
        Err(stop) => report(alloc, notes, &stop),
    }
}

/// Runs the command that the words ask for, over the text of `source`: `c` writes its C text, and `check` writes `accepted`.
/// Gives the status.
///
/// | Status | Comes | Line on `notes` |
/// |---|---|---|
/// | 0 | the output was written | none |
/// | 1 | the input is refused: it is not read, ill typed, not built, or has too wide a type or too large a frame | `krml: refused: ` and why |
/// | 2 | the words ask for no command | `krml: usage` |
/// | 3 | the source's count of faults rose | `krml: read fault` |
/// | 4 | the count of `out` or of `notes` rose | `krml: write fault`, tried where `out` failed |
/// | 5 | want of memory | `krml: out of memory` |
pub fn krml<S: Source, K: Sink, E: Sink>(
    alloc: Global,
    words: &[String],
    source: &mut S,
    out: &mut K,
    notes: &mut E,
) -> u8
    ensures known { result ≤ 5 }

    // With status 0 of `c` the input was read to its end, it spells a file whose definitions are well typed and built, and the
    // text of its program was written, which is well formed and does what the file does: the same outcome, and the image of its
    // events, for each entry under the name that `name_of` gives, all arguments that fit and each bound, wherever the file is
    // not stuck.
    ensures compiled { Asks (map string_bytes words.now) C → result ≡ 0 → Compiled (S.left source.old) (S.left source.new) (K.written out.old) (K.written out.new) }
    // With status 0 of `check` it spells such a file, no run of which is undefined, and `accepted` was written.
    ensures accepted { Asks (map string_bytes words.now) Check → result ≡ 0 → Accepted (S.left source.old) (S.left source.new) (K.written out.old) (K.written out.new) }
    // With status 1 it spells no such file, and why it is refused was noted.
    ensures refused { result ≡ 1 → Refused (map string_bytes words.now) (S.left source.old) (S.left source.new) (E.written notes.old) (E.written notes.new) }

    // Where no count rose, an input that is accepted gets its output, and every other one is refused, unless memory runs out.
    ensures completes { (command : Command) (input : List ℕ) (file : SourceFile) → Asks (map string_bytes words.now) command → S.left source.old ≡ Some input → Accepts input file
        → (Rose (S.faults source.old) (S.faults source.new) → ⊥) → (Rose (K.faults out.old) (K.faults out.new) → ⊥) → (Rose (E.faults notes.old) (E.faults notes.new) → ⊥)
        → (result ≡ 0) ⊎ (result ≡ 5) }
    ensures refuses { (command : Command) (input : List ℕ) → Asks (map string_bytes words.now) command → S.left source.old ≡ Some input → AcceptsNone input
        → (Rose (S.faults source.old) (S.faults source.new) → ⊥) → (Rose (K.faults out.old) (K.faults out.new) → ⊥) → (Rose (E.faults notes.old) (E.faults notes.new) → ⊥)
        → (result ≡ 1) ⊎ (result ≡ 5) }
    ensures refuses_for { (command : Command) (input : List ℕ) (why : FileRefusal) → Asks (map string_bytes words.now) command → S.left source.old ≡ Some input → Refuses input command why
        → (Rose (S.faults source.old) (S.faults source.new) → ⊥) → (Rose (K.faults out.old) (K.faults out.new) → ⊥) → (Rose (E.faults notes.old) (E.faults notes.new) → ⊥)
        → RefusedFor why result (E.written notes.old) (E.written notes.new) ⊎ (result ≡ 5) }

    // Words that ask for no command are usage, and nothing is read.
    ensures usage { result ≡ 2 → IsUsage (map string_bytes words.now) }
    ensures usage_always { IsUsage (map string_bytes words.now) → (result ≡ 2) ⊎ FailedNotes result (E.faults notes.old) (E.faults notes.new) ⊎ (result ≡ 5) }
    ensures unread { IsUsage (map string_bytes words.now) → (S.left source.new ≡ S.left source.old) × (S.faults source.new ≡ S.faults source.old) }

    // Faults of reading and of writing come only where a count rose, and a count that rose shows.
    ensures read_fault { result ≡ 3 → Rose (S.faults source.old) (S.faults source.new) }
    ensures read_faults { S.faults source.old < S.faults source.new
        → (result ≡ 3) ⊎ FailedNotes result (E.faults notes.old) (E.faults notes.new) ⊎ (result ≡ 5) }
    ensures write_fault { result ≡ 4 → Rose (K.faults out.old) (K.faults out.new) ⊎ Rose (E.faults notes.old) (E.faults notes.new) }
    ensures write_faults { (K.faults out.old < K.faults out.new) ⊎ (E.faults notes.old < E.faults notes.new) → IsCut result }

    // What was written where no output, or only a prefix of it, was.
    ensures silent { IsNoted result → Keeps (K.written out.old) (K.written out.new) }
    ensures prefix { IsCut result → PrefixOnly (map string_bytes words.now) (S.left source.old) (S.left source.new) (K.written out.old) (K.written out.new) }

    // The notes get the status's line, a prefix of a line, or nothing.
    ensures noted { (why : Stop) → IsPlain result → result ≡ status_of why → Appends (E.written notes.old) (E.written notes.new) (line_of why) }
    ensures write_noted { result ≡ 4 → (Rose (E.faults notes.old) (E.faults notes.new) → ⊥) → Appends (E.written notes.old) (E.written notes.new) (line_of stop.WriteFault) }
    ensures unnoted { result ≡ 0 → Keeps (E.written notes.old) (E.written notes.new) }
    ensures note_prefix { IsCut result → (line : List ℕ) × IsLine line × AppendsPrefix (E.written notes.old) (E.written notes.new) line }
{
    one_answer();
    command(alloc, words, source, out, notes)
}
