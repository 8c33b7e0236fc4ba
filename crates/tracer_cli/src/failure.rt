//! How a run of the program ends otherwise than done.

ghost use Rattle.std.specs.Prelude.{◌≡◌, ◌++◌, IfErr, OnOk};
ghost use Rattle.std.specs.Io.KnownBytes.{Appends};
ghost use Rattle.std.specs.IoError.{error_kind};
ghost use Rattle.outcome_text.specs.CutOff.{IsCutOff, text_of_parts};
ghost use Rattle.tracer_cli.specs.Failure.{failure_at, failure_text};

use itoa::Buffer;
use outcome_text::{CutOff, write_part, write_parts};
use std::alloc::{AllocError, AllocFailed};
use std::io::{self, ErrorKind, Write};
use stop_board::NoMemory;
use stop_explorer::ExploreError;
use trace_script::{CaseError, Cause};
use tracer_workers::RunError;

/// Why the program did not do what it was asked for.
#[derive(Debug, Drop)]
pub enum Failure {
    /// The file is refused.
    Refused(CaseError),
    /// The command line is wrong, with clap's text.
    Usage(String),
    /// An argument is not valid UTF-8.
    NoText,
    /// `-e` names no system call that is known by name.
    UnknownCall(String),
    /// The program is out of memory.
    NoMemory,
    /// The file, or standard input, cannot be read.
    CannotRead,
    /// Standard output cannot be written.
    CannotWrite,
    /// A stop of a run was lost.
    LostStop,
    /// The threads of a run could not be started.
    NoThreads,
    /// A program has more places than are searched.
    TooManyPlaces,
    /// A program has no outcome of this number.
    NoOutcome(u32),
    /// No order of a program's commands has the replies of its file. That is the answer, and it is printed.
    Forbidden,
}

impl Failure {
    ghost use Rattle.tracer_cli.specs.Failure.{failure_status};

    /// The exit status: 1 for a refused file, 2 for the command line, 4 where there is no such outcome, 3 otherwise.
    pub fn status(&self) -> u8
        ensures { result ≡ failure_status self.now }
    {
        match self {
            Failure::Refused(_) => 1,
            Failure::Usage(_) | Failure::NoText | Failure::UnknownCall(_) => 2,
            Failure::NoMemory
            | Failure::CannotRead
            | Failure::CannotWrite
            | Failure::LostStop
            | Failure::NoThreads
            | Failure::TooManyPlaces => 3,
            Failure::NoOutcome(_) | Failure::Forbidden => 4,
        }
    }

    /// Writes the failure's text, on standard error as a rule. The first write that fails ends it: a beginning of the
    /// text is written then.
    pub fn report<E: Write>(&self, errors: &mut E) -> Result<(), CutOff>
        ensures ok { OnOk result (Appends (E.contents errors.old) (E.contents errors.new) (failure_text self.now)) }
        ensures cut_off { IfErr result (λ _.
            IsCutOff (E.contents errors.old) (E.contents errors.new) (failure_text self.now)) }
    {
        match self {
            Failure::Refused(error) => report_refusal(error, errors),
            Failure::Usage(text) => write_part(text.as_str(), errors),
            Failure::NoText => write_part("tracer: an argument is not valid UTF-8\n", errors),
            Failure::UnknownCall(name) => write_parts(
                &in_five("tracer: unknown call ", name.as_str(), "\n", "", ""),
                errors,
            ),
            Failure::NoMemory => write_part("tracer: no memory\n", errors),
            Failure::CannotRead => write_part("tracer: cannot read\n", errors),
            Failure::CannotWrite => write_part("tracer: cannot write\n", errors),
            Failure::LostStop => write_part("tracer: lost stop\n", errors),
            Failure::NoThreads => write_part("tracer: cannot start threads\n", errors),
            Failure::TooManyPlaces => write_part("tracer: too many places\n", errors),
            Failure::NoOutcome(number) => report_no_outcome(*number, errors),
            Failure::Forbidden => write_part("", errors),
        }
    }
}

/// Writes why a file is refused.
fn report_refusal<E: Write>(error: &CaseError, errors: &mut E) -> Result<(), CutOff>
    ensures ok { OnOk result (Appends (E.contents errors.old) (E.contents errors.new)
        (failure_text (Failure.Refused error.now))) }
    ensures cut_off { IfErr result (λ _.
        IsCutOff (E.contents errors.old) (E.contents errors.new) (failure_text (Failure.Refused error.now))) }
{
    let mut digits = Buffer::new();
    let line = digits.format(error.line);
    let parts = in_five("tracer: line ", line, ": ", error.cause.name(), "\n");
    write_parts(&parts, errors)
}

/// Writes that a program has no outcome of this number.
fn report_no_outcome<E: Write>(number: u32, errors: &mut E) -> Result<(), CutOff>
    ensures ok { OnOk result (Appends (E.contents errors.old) (E.contents errors.new)
        (failure_text (Failure.NoOutcome number))) }
    ensures cut_off { IfErr result (λ _.
        IsCutOff (E.contents errors.old) (E.contents errors.new) (failure_text (Failure.NoOutcome number))) }
{
    let mut digits = Buffer::new();
    let parts = in_five("tracer: no outcome ", digits.format(number), "\n", "", "");
    write_parts(&parts, errors)
}

/// A text in five parts, of which some may be empty.
fn in_five<'a>(
    first: &'a str,
    second: &'a str,
    third: &'a str,
    fourth: &'a str,
    fifth: &'a str,
) -> [&'a str; 5]
    ensures { text_of_parts result ≡ first.now ++ (second.now ++ (third.now ++ (fourth.now ++ fifth.now))) }
{
    [first, second, third, fourth, fifth]
}

impl From<AllocError> for Failure {
    ghost use Rattle.tracer_cli.specs.declared.failure.Failure.TheVariants as failure;

    ghost from_gives = { λ _ e. e ≡ failure.NoMemory };

    fn from(_error: AllocError) -> Failure {
        Failure::NoMemory
    }
}

impl<T: Drop> From<AllocFailed<T>> for Failure {
    ghost use Rattle.tracer_cli.specs.declared.failure.Failure.TheVariants as failure;

    ghost from_gives = { λ _ e. e ≡ failure.NoMemory };

    fn from(_error: AllocFailed<T>) -> Failure {
        Failure::NoMemory
    }
}

impl From<NoMemory> for Failure {
    ghost use Rattle.tracer_cli.specs.declared.failure.Failure.TheVariants as failure;

    ghost from_gives = { λ _ e. e ≡ failure.NoMemory };

    fn from(_error: NoMemory) -> Failure {
        Failure::NoMemory
    }
}

impl From<ExploreError> for Failure {
    ghost use Rattle.tracer_cli.specs.Failure.{failure_of_search};

    ghost from_gives = { λ error e. e ≡ failure_of_search error };

    fn from(error: ExploreError) -> Failure {
        match error {
            ExploreError::TooMany => Failure::TooManyPlaces,
            ExploreError::NoMemory => Failure::NoMemory,
        }
    }
}

impl From<CaseError> for Failure {
    ghost use Rattle.tracer_cli.specs.Failure.{failure_of};

    ghost from_gives = { λ error e. e ≡ failure_of error };

    fn from(error: CaseError) -> Failure {
        match error.cause {
            Cause::NoMemory => Failure::NoMemory,
            _ => Failure::Refused(error),
        }
    }
}

impl From<RunError> for Failure {
    ghost use Rattle.tracer_cli.specs.Failure.{failure_in_run};

    ghost from_gives = { λ error e. e ≡ failure_in_run error };

    fn from(error: RunError) -> Failure {
        match error {
            RunError::NoMemory => Failure::NoMemory,
            RunError::Lost => Failure::LostStop,
            RunError::Threads => Failure::NoThreads,
        }
    }
}

/// Why the arguments could not be read: out of memory, or one of them is not valid UTF-8.
pub(crate) fn arguments_failure(error: &io::Error) -> Failure
    ensures { result ≡ failure_at (error_kind error.now) Failure.NoText }
{
    failure_at(error, Failure::NoText)
}

/// Why reading failed.
pub(crate) fn read_failure(error: &io::Error) -> Failure
    ensures { result ≡ failure_at (error_kind error.now) Failure.CannotRead }
{
    failure_at(error, Failure::CannotRead)
}

/// The failure at an error of the system: out of memory, or this one.
fn failure_at(error: &io::Error, other: Failure) -> Failure
    ensures { result ≡ failure_at (error_kind error.now) other }
{
    match error.kind() {
        ErrorKind::OutOfMemory => Failure::NoMemory,
        _ => other,
    }
}
