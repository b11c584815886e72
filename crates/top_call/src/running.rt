//! The top call.
ghost use Rattle.std.specs.Prelude.{ℕ, ◌≡◌, ◌≤◌, List, map, length, string_bytes, Some};
ghost use Rattle.quiv_io.specs.Counts.{Rose};
ghost use Rattle.top_call.specs.declared.modes.Mode.{Mode};
ghost use Rattle.top_call.specs.declared.modes.Mode.TheVariants.{Run, Check};
ghost use Rattle.top_call.specs.Modes.{AsksFor, input_limit};
ghost use Rattle.top_call.specs.Outcomes.{IsText, IsBegun, IsStopped, Writes, HasCause};
ghost use Rattle.script_types.specs.declared.Script.{Script};
ghost use Rattle.script_lang.specs.Scripts.{IsScript};
ghost use Rattle.script_answers.specs.Answers.{HasFewPaths};
ghost use Rattle.top_call.specs.Expected.{IsGood, IsDoneOrNoMemory, RunsWhole};
ghost use Rattle.top_call.specs.Steps.{Finishes, EndsWith, Refuses, run_outcome};

use crate::checking::{Answer, check_input};
use crate::modes::{Mode, read_words};
use crate::outcome::Outcome;
use crate::texts::bad_text;
use quiv_io::{ReadError, Sink, Source, read_all, write_whole};
use script_lang::{ParseError, parse};
use script_run::{RunEnd, run};
use std::alloc::Global;
use std::thread::Threads;

/// Does all that the program does: reads the words, reads the source to its end, and writes to the sink what the mode answers. See `Writes` and
/// `HasCause` for what is written with each outcome and when it comes.
///
/// With `Done` each claim in the report that was written or read holds, by the definitions; with `run` the report answers the script.
pub fn quiv<R: Threads + Sync, S: Source, K: Sink>(
    rt: &R,
    alloc: Global,
    words: &[String],
    source: &mut S,
    sink: &mut K,
) -> Outcome
    ensures writes { Writes (IsText (map string_bytes words.now) (S.left source.old) (S.left source.new)) (IsBegun (map string_bytes words.now) (S.left source.old) (S.left source.new))
        (IsStopped (map string_bytes words.now) (S.left source.old) (S.left source.new)) result (K.taken sink.old) (K.taken sink.new) }
    ensures cause { HasCause result (S.faults source.old) (S.faults source.new) (K.faults sink.old) (K.faults sink.new) }
    ensures counts { (S.faults source.old ≤ S.faults source.new) × (K.faults sink.old ≤ K.faults sink.new) }

    // Words that ask for nothing: the source is not called.
    ensures unread { ((mode : Mode) → AsksFor (map string_bytes words.now) mode → ⊥) → source.new ≡ source.old }

    // A script with few paths, not too long: where over the records that were made no statement meets a refusal, the outcome is Done or NoMemory.
    ensures unrefused { AsksFor (map string_bytes words.now) Run → (Rose (S.faults source.old) (S.faults source.new) → ⊥) → (Rose (K.faults sink.old) (K.faults sink.new) → ⊥)
        → (input : List ℕ) → S.left source.old ≡ Some input → length input ≤ input_limit Run → (script : Script) → IsScript input script → HasFewPaths script
        → RunsWhole script result (K.taken sink.old) (K.taken sink.new) }

    // A script of which nothing is refused, and a report of which all conditions hold, that are not too long: the outcome is Done or NoMemory.
    ensures complete { (mode : Mode) → AsksFor (map string_bytes words.now) mode → (Rose (S.faults source.old) (S.faults source.new) → ⊥) → (Rose (K.faults sink.old) (K.faults sink.new) → ⊥)
        → (input : List ℕ) → S.left source.old ≡ Some input → length input ≤ input_limit mode → IsGood mode input → IsDoneOrNoMemory result }
{
    answer(rt, alloc, words, source, sink)
}

/// Reads the words and the source, and writes what the mode answers.
fn answer<R: Threads + Sync, S: Source, K: Sink>(
    rt: &R,
    alloc: Global,
    words: &[String],
    source: &mut S,
    sink: &mut K,
) -> Outcome
    ensures writes { Writes (IsText (map string_bytes words.now) (S.left source.old) (S.left source.new)) (IsBegun (map string_bytes words.now) (S.left source.old) (S.left source.new))
        (IsStopped (map string_bytes words.now) (S.left source.old) (S.left source.new)) result (K.taken sink.old) (K.taken sink.new) }
    ensures cause { HasCause result (S.faults source.old) (S.faults source.new) (K.faults sink.old) (K.faults sink.new) }
    ensures counts { (S.faults source.old ≤ S.faults source.new) × (K.faults sink.old ≤ K.faults sink.new) }
    ensures unread { ((mode : Mode) → AsksFor (map string_bytes words.now) mode → ⊥) → source.new ≡ source.old }
{
    let Some(asked) = read_words(words) else {
        return finish(
            sink,
            Outcome::Usage,
            b"usage: quiv run|check [--workers K] | quiv gen --seed S --size N\n",
        );
    };
    let input = match read_all(alloc, source, asked.mode.input_limit()) {
        Ok(input) => input,
        Err(ReadError::Fault) => return Outcome::ReadFault,
        Err(ReadError::TooLong) => return finish(sink, Outcome::TooLong, b"toolong\n"),
        Err(ReadError::NoMemory) => return Outcome::NoMemory,
    };
    match asked.mode {
        Mode::Run => run_input(alloc, &input, asked.workers, sink),
        Mode::Check => answer_check(rt, alloc, &input, asked.workers, sink),
    }
}

/// Runs the script that the input is.
fn run_input<K: Sink>(alloc: Global, input: &[u8], workers: u32, sink: &mut K) -> Outcome
    requires short { length input.now ≤ input_limit Run }
    requires workers { (1 ≤ workers) × (workers ≤ 16) }
    ensures count { K.faults sink.old ≤ K.faults sink.new }
    ensures ends { EndsWith Run input.now result (K.taken sink.old) (K.taken sink.new) (K.faults sink.old) (K.faults sink.new) }
{
    match parse(alloc, input) {
        Ok(script) => outcome_of(run(alloc, &script, workers, sink)),
        Err(ParseError::BadText { line }) => refuse_text(alloc, line, sink),
        Err(ParseError::NoMemory) => Outcome::NoMemory,
    }
}

/// The outcome of a run of a script.
fn outcome_of(end: RunEnd) -> Outcome
    ensures { result ≡ run_outcome end }
{
    match end {
        RunEnd::Done { .. } => Outcome::Done,
        RunEnd::Refused { line, why } => Outcome::Refused { line, why },
        RunEnd::WriteFault => Outcome::WriteFault,
        RunEnd::NoMemory => Outcome::NoMemory,
    }
}

/// Names the first bad line.
fn refuse_text<K: Sink>(alloc: Global, line: u32, sink: &mut K) -> Outcome
    ensures count { K.faults sink.old ≤ K.faults sink.new }
    ensures ends { Refuses line (K.taken sink.old) (K.taken sink.new) (K.faults sink.old) (K.faults sink.new) result }
{
    let Ok(text) = bad_text(alloc, line) else {
        return Outcome::NoMemory;
    };
    finish(sink, Outcome::BadText { line }, &text)
}

/// Writes the verdict on the report that the input is.
fn answer_check<R: Threads + Sync, K: Sink>(
    rt: &R,
    alloc: Global,
    input: &[u8],
    workers: u32,
    sink: &mut K,
) -> Outcome
    requires short { length input.now ≤ input_limit Check }
    requires workers { (1 ≤ workers) × (workers ≤ 16) }
    ensures count { K.faults sink.old ≤ K.faults sink.new }
    ensures ends { EndsWith Check input.now result (K.taken sink.old) (K.taken sink.new) (K.faults sink.old) (K.faults sink.new) }
{
    let Ok(Answer { outcome, text }) = check_input(rt, alloc, input, workers) else {
        return Outcome::NoMemory;
    };
    finish(sink, outcome, &text)
}

/// Writes the whole text of an outcome.
fn finish<K: Sink>(sink: &mut K, outcome: Outcome, text: &[u8]) -> Outcome
    ensures count { K.faults sink.old ≤ K.faults sink.new }
    ensures outcome { Finishes outcome text.now (K.taken sink.old) (K.taken sink.new) (K.faults sink.old) (K.faults sink.new) result }
{
    match write_whole(sink, text) {
        Ok(()) => outcome,
        Err(_) => Outcome::WriteFault,
    }
}
