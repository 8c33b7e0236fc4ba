//! What is left to do once the words are understood and the file is read: nothing is printed before.

ghost use Rattle.std.specs.Prelude.{◌≡◌, None, IfErr, IfOk, IfSome};
ghost use Rattle.tracer_cli.specs.Job.{AreWorkersInRange, HasNoJob, HasWorkers, IsDone, IsJob};
ghost use Rattle.tracer_cli.specs.Run.{IsReadFailure, IsReadOf, IsUnread, IsUnwritten, LeavesInput};

use crate::arguments::{ExploreOptions, Request};
use crate::case_text::{case_text, run_config};
use crate::explored::explore_file;
use crate::failure::{Failure, read_failure};
use crate::print::print;
use replay_files::replay_text;
use std::fs;
use std::io::{Read, Write};
use std::rt::Files;
use std::sync::Wait;
use std::thread::Threads;
use std::time::Clock;
use trace_script::MOST_BYTES;
use tracer_workers::Config;

/// What is left to do.
#[derive(Drop)]
pub(crate) enum Job {
    /// To print help or the version.
    Print(String),
    /// To replay a file of these bytes.
    Replay(Vec<u8>),
    /// To run the case of these bytes.
    Run(Config, Vec<u8>),
    /// To explore the litmus file of these bytes.
    Explore(ExploreOptions, Vec<u8>),
}

/// What a request leaves to do. Finds the faults of the names of `-e`, and then of reading.
pub(crate) fn read_job<H: Files + AllocGlobal, R: Read>(
    rt: &H,
    request: Request,
    input: &mut R,
) -> Result<Job, Failure>
    requires { AreWorkersInRange request }
    ensures job { IfOk result (IsJob request.entry (R.remaining input.old)) }
    ensures workers { IfOk result HasWorkers }
    ensures failure { IfErr result (HasNoJob request.entry) }
    ensures named { LeavesInput request.entry input.old input.new }
    ensures unread { IfErr result (IsUnread input.old input.new) }
{
    match request {
        Request::Help(text) => Ok(Job::Print(text)),
        Request::Replay { file } => Ok(Job::Replay(text_of_file(rt, file, input)?)),
        Request::Run { options, file } => {
            let config = run_config(rt.alloc(), &options)?;
            Ok(Job::Run(config, text_of_file(rt, file, input)?))
        }
        Request::Explore { options, file } => {
            Ok(Job::Explore(options, text_of_file(rt, file, input)?))
        }
    }
}

/// The bytes of a file, or of standard input where none is named; one more than a file may have at most. Where a file
/// is named nothing is read of standard input.
fn text_of_file<H: Files + AllocGlobal, R: Read>(
    rt: &H,
    file: Option<&str>,
    input: &mut R,
) -> Result<Vec<u8>, Failure>
    ensures input { file.entry ≡ None → IfOk result (λ bytes. IsReadOf (R.remaining input.old) bytes.items) }
    ensures named { IfSome file.entry (λ _. input.new ≡ input.old) }
    ensures failure { IfErr result IsReadFailure }
{
    match file {
        None => read_all(rt, input),
        Some(path) => match fs::open(rt, path) {
            Ok(mut file) => read_all(rt, &mut file),
            Err(error) => Err(read_failure(&error)),
        },
    }
}

fn read_all<H: AllocGlobal, R: Read>(rt: &H, input: &mut R) -> Result<Vec<u8>, Failure>
    ensures read { IfOk result (λ bytes. IsReadOf (R.remaining input.old) bytes.items) }
    ensures failure { IfErr result IsReadFailure }
{
    let most = MOST_BYTES + 1;
    let mut bytes = Vec::with_capacity(rt.alloc(), most)?;
    match input.take(most as u64).read_to_end(&mut bytes) {
        Ok(_) => Ok(bytes),
        Err(error) => Err(read_failure(&error)),
    }
}

/// Does what is left to do. Finds the faults of the file, of the run and of writing, in this order.
pub(crate) fn do_job<H: AllocGlobal + Threads + Wait + Clock + Sync, W: Write>(
    rt: &H,
    job: Job,
    output: &mut W,
) -> Result<(), Failure>
    requires { HasWorkers job }
    ensures done { IsDone job (W.contents output.old) (W.contents output.new) result }
    ensures unwritten { IsUnwritten output.old output.new result }
{
    match job {
        Job::Print(text) => print(text.as_bytes(), output),
        Job::Replay(file) => {
            let replies = replay_text(rt.alloc(), file.as_slice())?;
            print(replies.as_slice(), output)
        }
        Job::Run(config, file) => {
            let text = case_text(rt, file, &config)?;
            print(text.as_bytes(), output)
        }
        Job::Explore(options, file) => explore_file(rt.alloc(), file.as_slice(), options, output),
    }
}
