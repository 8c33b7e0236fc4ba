//! The program: from words and streams to an exit status.

ghost use Rattle.std.specs.Prelude.{◌≡◌, ◌≤◌, ◌⊎◌, IfErr, IfOk, IfSome, map, string_bytes};
ghost use Rattle.std.specs.IoError.{error_kind};
ghost use Rattle.tracer_cli.specs.Arguments.{AskExplore, AskInput, AskReplay, AskRun};
ghost use Rattle.tracer_cli.specs.CommandLine.{AnswersWords, IsExitStatusOf};
ghost use Rattle.outcome_text.specs.CutOff.{IsBegun};
ghost use Rattle.tracer_cli.specs.Failure.{failure_at, failure_status, failure_text};
ghost use Rattle.tracer_cli.specs.Run.{Ends, ExploresNamed, IsUnread, IsUnwritten, Replays, RunsNamed};

use crate::arguments::read_arguments;
use crate::failure::{Failure, arguments_failure};
use crate::job::{do_job, read_job};
use std::alloc::{AllocError, Global};
use std::io::{self, Read, Write};
use std::rt::Files;
use std::sync::Wait;
use std::thread::Threads;
use std::time::Clock;

/// Runs the program as a process does: on the words of its command line. Where these could not be read, it
/// reports why. Returns the exit status, as `program` does; 2 also where an argument is not valid UTF-8.
pub fn process<H: Files + AllocGlobal + Threads + Wait + Clock + Sync, R: Read, W: Write, E: Write>(
    rt: &H,
    words: io::Result<Vec<String>>,
    input: &mut R,
    output: &mut W,
    errors: &mut E,
) -> u8
    ensures status { result ≤ 4 }
    ensures failed { IfErr words (λ error. result ≡ failure_status (failure_at (error_kind error) Failure.NoText)) }
    ensures told { IfErr words (λ error. IsBegun (E.contents errors.old) (E.contents errors.new)
        (failure_text (failure_at (error_kind error) Failure.NoText))) }
    ensures unread { IfErr words (λ error. input.new ≡ input.old) }
    ensures unwritten { IfErr words (λ error. output.new ≡ output.old) }
    ensures output { Ends (IsUnwritten output.old output.new) (E.contents errors.old) (E.contents errors.new) result }
    ensures quiet { result ≡ 0 → errors.new ≡ errors.old }
    ensures untouched { result ≡ 2 → input.new ≡ input.old }
    ensures input { IfOk words (λ words. ¬ (AskInput (map string_bytes words.items)) → input.new ≡ input.old) }
    ensures words { IfOk words (λ words. IsExitStatusOf (map string_bytes words.items) result) }

    // What the words ask for is done or fails, and nothing else is written.
    ensures asked { IfOk words (λ words. Ends (λ ended. AnswersWords (map string_bytes words.items)
        (R.remaining input.old) (W.contents output.old) (W.contents output.new) ended
        × IsUnwritten output.old output.new ended) (E.contents errors.old) (E.contents errors.new) result) }

    // The words of a replay of standard input, where what it has is known.
    ensures replay { IfOk words (λ words. AskReplay (map string_bytes words.items) →
        IfSome (R.remaining input.old) (λ text.
        Ends (Replays text (W.contents output.old) (W.contents output.new))
        (E.contents errors.old) (E.contents errors.new) result)) }

    // The words of a run of standard input, where what it has is known.
    ensures run { IfOk words (λ words. AskRun (map string_bytes words.items) →
        IfSome (R.remaining input.old) (λ text.
        Ends (RunsNamed (map string_bytes words.items) text (W.contents output.old) (W.contents output.new))
        (E.contents errors.old) (E.contents errors.new) result)) }

    // The words of an exploration of standard input, where what it has is known.
    ensures explore { IfOk words (λ words. AskExplore (map string_bytes words.items) →
        IfSome (R.remaining input.old) (λ text.
        Ends (ExploresNamed (map string_bytes words.items) text (W.contents output.old) (W.contents output.new))
        (E.contents errors.old) (E.contents errors.new) result)) }
{
    match words {
        Ok(words) => program(rt, words.as_slice(), input, output, errors),
        Err(error) => fail(&arguments_failure(&error), errors),
    }
}

/// Runs the program on its words, the program's name first, with standard input, output and error. Returns the exit
/// status: 0 where it is done or help was asked for, 1 where the file is refused, 2 for a wrong command line, 4 where a
/// program has no outcome with the replies and conditions of its file, or of the number asked for, 3 otherwise. A
/// failed write to standard error does not change it, and is not tried again: a beginning of the message is written
/// then.
pub fn program<H: Files + AllocGlobal + Threads + Wait + Clock + Sync, R: Read, W: Write, E: Write>(
    rt: &H,
    words: &[String],
    input: &mut R,
    output: &mut W,
    errors: &mut E,
) -> u8
    ensures status { result ≤ 4 }
    ensures unwritten { (result ≡ 1) ⊎ (result ≡ 2) → output.new ≡ output.old }
    ensures output { Ends (IsUnwritten output.old output.new) (E.contents errors.old) (E.contents errors.new) result }
    ensures quiet { result ≡ 0 → errors.new ≡ errors.old }

    // The command line and the names of `-e` are tested before anything is read.
    ensures untouched { result ≡ 2 → input.new ≡ input.old }

    // Nothing is read of standard input for help, nor where a file is named.
    ensures input { ¬ (AskInput (map string_bytes words.now)) → input.new ≡ input.old }
    ensures words { IsExitStatusOf (map string_bytes words.now) result }

    // What the words ask for is done or fails, and nothing else is written.
    ensures asked { Ends (λ ended. AnswersWords (map string_bytes words.now) (R.remaining input.old)
        (W.contents output.old) (W.contents output.new) ended × IsUnwritten output.old output.new ended)
        (E.contents errors.old) (E.contents errors.new) result }

    // The words of a replay of standard input, where what it has is known.
    ensures replay { AskReplay (map string_bytes words.now) → IfSome (R.remaining input.old) (λ text.
        Ends (Replays text (W.contents output.old) (W.contents output.new))
        (E.contents errors.old) (E.contents errors.new) result) }

    // The words of a run of standard input, where what it has is known.
    ensures run { AskRun (map string_bytes words.now) → IfSome (R.remaining input.old) (λ text.
        Ends (RunsNamed (map string_bytes words.now) text (W.contents output.old) (W.contents output.new))
        (E.contents errors.old) (E.contents errors.new) result) }

    // The words of an exploration of standard input, where what it has is known.
    ensures explore { AskExplore (map string_bytes words.now) → IfSome (R.remaining input.old) (λ text.
        Ends (ExploresNamed (map string_bytes words.now) text (W.contents output.old) (W.contents output.new))
        (E.contents errors.old) (E.contents errors.new) result) }
{
    match run(rt, words, input, output) {
        Ok(()) => 0,
        Err(failure) => fail(&failure, errors),
    }
}

/// Reports a failure, and returns its exit status, whether or not it could be written.
fn fail<E: Write>(failure: &Failure, errors: &mut E) -> u8
    ensures status { result ≡ failure_status failure.now }
    ensures begun { IsBegun (E.contents errors.old) (E.contents errors.new) (failure_text failure.now) }
{
    let _ = failure.report(errors);
    failure.status()
}

/// Finds the faults of the command line, of the names of `-e`, of reading, of the file, of the run and of writing, in
/// this order.
fn run<H: Files + AllocGlobal + Threads + Wait + Clock + Sync, R: Read, W: Write>(
    rt: &H,
    words: &[String],
    input: &mut R,
    output: &mut W,
) -> Result<(), Failure>
    ensures unwritten { IsUnwritten output.old output.new result }
    ensures unread { IfErr result (IsUnread input.old input.new) }
    ensures input { ¬ (AskInput (map string_bytes words.now)) → input.new ≡ input.old }
    ensures asked { AnswersWords (map string_bytes words.now) (R.remaining input.old) (W.contents output.old)
        (W.contents output.new) result }
{
    let alloc = rt.alloc();
    let words = texts_of(alloc, words)?;
    let request = read_arguments(alloc, words.as_slice())?;
    let job = read_job(rt, request, input)?;
    do_job(rt, job, output)
}

/// The words as slices.
fn texts_of<'a>(alloc: Global, words: &'a [String]) -> Result<Vec<&'a str>, AllocError>
    ensures { IfOk result (λ texts. map (λ text. text.now) texts.items ≡ map string_bytes words.now) }
{
    words.iter().map(|word| word.as_str()).collect(alloc)
}
