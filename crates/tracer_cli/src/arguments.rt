//! The command line.

ghost use Rattle.std.specs.Prelude.{◌≡◌, ◌≤◌, IfErr, IfOk, IsTrue, Some, false, map, true};
ghost use Rattle.clap.specs.Words.{app_of, found_of, kind_of, one_text, rows_of, rule_of, subcommand_rows_of};
ghost use Rattle.clap.specs.declared.builder.command.Command.TheViews.{out-Command};
ghost use Rattle.tracer_cli.specs.Arguments.{AreAskedOptions, AreOptions, IsAskedBy, IsExploreRequest, IsFailureBy};
ghost use Rattle.tracer_cli.specs.Arguments.{IsHelp, IsNamedBy, IsNumber, IsOptionalNumber, budget_rule};
ghost use Rattle.tracer_cli.specs.Arguments.{ends_rule, explore_app, file_rule, follow_rule, limit_rule, listing_of};
ghost use Rattle.tracer_cli.specs.Arguments.{names_rule, outcome_rule, replay_app};
ghost use Rattle.tracer_cli.specs.Arguments.{run_app, seccomp_rule, shows_text, tracer_app, workers_rule};

use crate::failure::Failure;
use clap::error::ErrorKind;
use clap::{Arg, ArgAction, ArgMatches, Command, Error, value_parser};
use std::alloc::{AllocError, Global};
use stop_board::TRACERS;

/// The most bytes of a string, and the most entries of an array, that a run can be told to print.
const MOST_SHOWN: u32 = 65_536;

/// The most places that a program can be told to search, and the last outcome that it can be told to show.
const MOST_PLACES: u32 = 100_000_000;

/// What the program's help says at its end: examples, the exit statuses, and where the formats are described.
const AFTER_HELP: &'static str = "Examples:
  tracer run -f examples/run/fork.case
  tracer replay examples/replay/first
  tracer explore examples/explore/race.litmus

Exit status:
  0  done
  1  the file is refused
  2  the command line is wrong, or -e names an unknown call
  3  out of memory, the file or standard input cannot be read, standard output cannot be
     written, a thread cannot be started, or a litmus file has more places than the budget
  4  no order of the commands has the replies and the conditions, or no outcome has the number

The formats of case files, replay files and litmus files: docs/FORMATS.md";

/// The same of `tracer replay`.
const AFTER_REPLAY: &'static str = "Example:
  tracer replay examples/replay/first

The format of replay files: docs/FORMATS.md";

/// The same of `tracer explore`.
const AFTER_EXPLORE: &'static str = "Example:
  tracer explore examples/explore/race.litmus

The format of litmus files, and of the printed outcomes: docs/FORMATS.md";

/// The same of `tracer run`.
const AFTER_RUN: &'static str = "Example:
  tracer run -f -e trace=write,fork examples/run/fork.case

The format of case files, and of the printed lines: docs/FORMATS.md";

/// What is said of `--ends` beside `--replay`.
const ENDS_OR_REPLAY: &'static str =
    "error: the argument '--ends' cannot be used with '--replay <K>'

For more information, try '--help'.
";

/// The options of `tracer run`.
#[derive(Clone, Copy, Debug)]
pub(crate) struct RunOptions<'a> {
    /// `-f`: trace the children that forks and clones create.
    pub(crate) follow: bool,
    /// `--seccomp-bpf`: stop at the system calls that are shown by a filter, and at no others.
    pub(crate) seccomp: bool,
    /// `-w`: how many tracers share the tracees, 1 to 16.
    pub(crate) workers: u32,
    /// `-s`: how many bytes of a string, and how many entries of an array, are printed at most, up to 65536.
    pub(crate) limit: u32,
    /// `-e`: the names of the calls that are printed; all calls without it.
    pub(crate) names: Option<&'a str>,
}

/// The options of `tracer explore`.
#[derive(Clone, Copy, Debug)]
pub(crate) struct ExploreOptions {
    /// `--budget`: how many places are searched at most, 1 to 100,000,000.
    pub(crate) budget: u32,
    pub(crate) listing: Listing,
}

/// What is printed of the outcomes.
#[derive(Clone, Copy, Debug, PartialEq, Eq)]
pub(crate) enum Listing {
    /// Each of them.
    Outcomes,
    /// `--ends`: how they end, those that end alike on one line.
    Ends,
    /// `--replay`: the order of the one of this number, 1 to 100,000,000, as a replay file.
    Replay(u32),
}

/// What the command line asks for.
#[derive(Debug, Drop)]
pub(crate) enum Request<'a> {
    /// The replies to a replay file; standard input where it names none. A file `-` is a file of that name.
    Replay {
        file: Option<&'a str>,
    },
    /// The text of a case file, named as a replay file is.
    Run {
        options: RunOptions<'a>,
        file: Option<&'a str>,
    },
    /// The outcomes of a litmus file, named as a replay file is.
    Explore {
        options: ExploreOptions,
        file: Option<&'a str>,
    },
    /// Help or the version, with its text.
    Help(String),
}

/// What the words ask for, the program's name first.
pub(crate) fn read_arguments<'a>(
    alloc: Global,
    words: &'a [&'a str],
) -> Result<Request<'a>, Failure>
    ensures { IsAskedBy (map (λ word. word.now) words.now) result }
{
    let command = tracer(alloc)?;
    match command.try_get_matches_from(words) {
        Ok(matches) => named_request(alloc, &matches),
        Err(error) => without_matches(alloc, &error),
    }
}

/// The request that the words name.
fn named_request<'a>(alloc: Global, matches: &ArgMatches<'a>) -> Result<Request<'a>, Failure>
    ensures { IsNamedBy (subcommand_rows_of matches.now) result }
{
    match matches.subcommand() {
        Some((name, found)) => request_of(alloc, name, found),
        None => Ok(Request::Replay { file: None }),
    }
}

/// The request of a subcommand, by its name and what was found for its arguments.
fn request_of<'a>(alloc: Global, name: &str, found: &ArgMatches<'a>) -> Result<Request<'a>, Failure>
    ensures { IsNamedBy (Some (name.now, rows_of (found_of found.now))) result }
{
    let file = found.get_str("FILE");
    if name == "run" {
        return Ok(Request::Run {
            options: run_options(found),
            file,
        });
    }
    if name == "explore" {
        return explore_request(alloc, found, file);
    }
    Ok(Request::Replay { file })
}

/// The request of an exploration. That one outcome is printed does not go with how all of them end.
fn explore_request<'a>(
    alloc: Global,
    found: &ArgMatches<'a>,
    file: Option<&'a str>,
) -> Result<Request<'a>, Failure>
    ensures { IsExploreRequest (rows_of (found_of found.now)) file.entry result }
{
    match explore_options(found) {
        Some(options) => Ok(Request::Explore { options, file }),
        None => Err(Failure::Usage(String::from_str(alloc, ENDS_OR_REPLAY)?)),
    }
}

/// The options of a run, by what was found for its arguments.
fn run_options<'a>(matches: &ArgMatches<'a>) -> RunOptions<'a>
    ensures { AreOptions (rows_of (found_of matches.now)) result }
{
    RunOptions {
        follow: matches.get_flag("follow"),
        seccomp: matches.get_flag("seccomp-bpf"),
        workers: number_of(matches, "workers", 1, TRACERS),
        limit: number_of(matches, "limit", 0, MOST_SHOWN),
        names: matches.get_str("names"),
    }
}

/// The options of an exploration, by what was found for its arguments.
fn explore_options(matches: &ArgMatches) -> Option<ExploreOptions>
    ensures { AreAskedOptions (rows_of (found_of matches.now)) result }
{
    let ends = matches.get_flag("ends");
    let outcome = place(matches, "replay", MOST_PLACES);
    let budget = number_of(matches, "budget", 1, MOST_PLACES);
    let Some(listing) = listing_of(ends, outcome) else {
        return None;
    };
    Some(ExploreOptions { budget, listing })
}

/// What is printed, by the two options that say it. Both do not go together.
fn listing_of(ends: bool, outcome: Option<u32>) -> Option<Listing>
    ensures { result ≡ listing_of ends outcome }
{
    match outcome {
        None if ends => Some(Listing::Ends),
        None => Some(Listing::Outcomes),
        Some(_) if ends => None,
        Some(number) => Some(Listing::Replay(number)),
    }
}

/// A number from 1 that clap has found in its range, if there is one.
fn place(matches: &ArgMatches, id: &str, most: u32) -> Option<u32>
    requires { 1 ≤ most }
    ensures { IsOptionalNumber most (one_text (found_of matches.now) id.now) result }
{
    let found = matches.get_one::<u32>(id)?;
    Some(found.clamp(1, most))
}

/// A number that clap has found in its range. That it is there, and in the range, clap's contract does not say of a
/// subcommand.
fn number_of(matches: &ArgMatches, id: &str, low: u32, most: u32) -> u32
    requires { low ≤ most }
    ensures number { IsNumber low most (one_text (found_of matches.now) id.now) result }
    ensures range { (low ≤ result) × (result ≤ most) }
{
    matches.get_one::<u32>(id).unwrap_or(low).clamp(low, most)
}

/// Help or the version was asked for, or the words are wrong.
fn without_matches<'a>(alloc: Global, error: &Error) -> Result<Request<'a>, Failure>
    ensures memory { kind_of error.now ≡ ErrorKind.OutOfMemory → result ≡ Err Failure.NoMemory }
    ensures help { IfOk result (λ request. IsHelp request × IsTrue (shows_text (kind_of error.now))) }
    ensures usage { IfErr result (IsFailureBy (kind_of error.now)) }
{
    if error.kind() == ErrorKind::OutOfMemory {
        return Err(Failure::NoMemory);
    }
    let text = format!(in alloc; "{error}")?;
    if error.use_stderr() {
        Err(Failure::Usage(text))
    } else {
        Ok(Request::Help(text))
    }
}

fn tracer<'a>(alloc: Global) -> Result<Command<'a>, AllocError>
    ensures { IfOk result (λ command. app_of command ≡ tracer_app) }
{
    let replay = replay_command(alloc)?;
    let run = run_command(alloc)?;
    let explore = explore_command(alloc)?;
    Command::new(alloc, "tracer")
        .about("Traces the system calls of scripted tracees; no real process is traced")
        .after_help(AFTER_HELP)
        .version("0.1.0")
        .subcommand_required(true)
        .subcommand(replay)?
        .subcommand(run)?
        .subcommand(explore)
}

fn replay_command<'a>(alloc: Global) -> Result<Command<'a>, AllocError>
    ensures app { IfOk result (λ command. app_of command ≡ replay_app) }
    ensures own { IfOk result (λ command. (out-Command command).has_globals ≡ false) }
{
    Command::new(alloc, "replay")
        .about("Prints the stop board's reply to each command of a replay file")
        .after_help(AFTER_REPLAY)
        .arg(file(alloc))
}

fn explore_command<'a>(alloc: Global) -> Result<Command<'a>, AllocError>
    ensures app { IfOk result (λ command. app_of command ≡ explore_app) }
    ensures own { IfOk result (λ command. (out-Command command).has_globals ≡ false) }
{
    Command::new(alloc, "explore")
        .about("Prints every outcome that the threads of a litmus file can have, each once")
        .after_help(AFTER_EXPLORE)
        .arg(budget(alloc))?
        .arg(outcome(alloc))?
        .arg(ends(alloc))?
        .arg(file(alloc))
}

fn run_command<'a>(alloc: Global) -> Result<Command<'a>, AllocError>
    ensures app { IfOk result (λ command. app_of command ≡ run_app) }
    ensures own { IfOk result (λ command. (out-Command command).has_globals ≡ false) }
{
    Command::new(alloc, "run")
        .about(
            "Runs the tracees of a case file and prints each of their calls, signals and deaths on a line",
        )
        .after_help(AFTER_RUN)
        .arg(follow(alloc))?
        .arg(seccomp(alloc))?
        .arg(workers(alloc))?
        .arg(limit(alloc))?
        .arg(names(alloc))?
        .arg(file(alloc))
}

fn file<'a>(alloc: Global) -> Arg<'a>
    ensures rule { rule_of result ≡ file_rule }
    ensures own { result.global ≡ false }
{
    Arg::new(alloc, "FILE")
        .action(ArgAction::Set)
        .help("The file to read; standard input if there is none")
}

fn follow<'a>(alloc: Global) -> Arg<'a>
    ensures rule { rule_of result ≡ follow_rule }
    ensures own { result.global ≡ false }
{
    Arg::new(alloc, "follow")
        .short('f')
        .action(ArgAction::SetTrue)
        .help("Trace the children that forks and clones create")
}

fn seccomp<'a>(alloc: Global) -> Arg<'a>
    ensures rule { rule_of result ≡ seccomp_rule }
    ensures own { result.global ≡ false }
{
    Arg::new(alloc, "seccomp-bpf")
        .long("seccomp-bpf")
        .action(ArgAction::SetTrue)
        .help(
            "Stop at the calls that are printed by a filter, and at no others; the text is the same",
        )
}

fn workers<'a>(alloc: Global) -> Arg<'a>
    ensures rule { rule_of result ≡ workers_rule }
    ensures own { result.global ≡ false }
{
    Arg::new(alloc, "workers")
        .short('w')
        .action(ArgAction::Set)
        .value_name("N")
        .value_parser(value_parser!(u32).range(1..=TRACERS as i64))
        .default_value("4")
        .help("How many tracers share the tracees, 1 to 16; the text is the same")
}

fn limit<'a>(alloc: Global) -> Arg<'a>
    ensures rule { rule_of result ≡ limit_rule }
    ensures own { result.global ≡ false }
{
    Arg::new(alloc, "limit")
        .short('s')
        .action(ArgAction::Set)
        .value_name("N")
        .value_parser(value_parser!(u32).range(0..=MOST_SHOWN as i64))
        .default_value("32")
        .help(
            "The most bytes of a string, and the most entries of an array, that are printed, 0 to 65536",
        )
}

fn names<'a>(alloc: Global) -> Arg<'a>
    ensures rule { rule_of result ≡ names_rule }
    ensures own { result.global ≡ false }
{
    Arg::new(alloc, "names")
        .short('e')
        .action(ArgAction::Set)
        .value_name("NAMES")
        .help(
            "The calls to print: names with commas between them, after trace= or not [default: all]",
        )
}

fn budget<'a>(alloc: Global) -> Arg<'a>
    ensures rule { rule_of result ≡ budget_rule }
    ensures own { result.global ≡ false }
{
    Arg::new(alloc, "budget")
        .long("budget")
        .action(ArgAction::Set)
        .value_name("N")
        .value_parser(value_parser!(u32).range(1..=MOST_PLACES as i64))
        .default_value("1000000")
        .help("How many places are searched at most, 1 to 100000000")
}

fn outcome<'a>(alloc: Global) -> Arg<'a>
    ensures rule { rule_of result ≡ outcome_rule }
    ensures own { result.global ≡ false }
{
    Arg::new(alloc, "replay")
        .long("replay")
        .action(ArgAction::Set)
        .value_name("K")
        .value_parser(value_parser!(u32).range(1..=MOST_PLACES as i64))
        .help("Print the order of outcome K, 1 to 100000000, as a replay file")
}

fn ends<'a>(alloc: Global) -> Arg<'a>
    ensures rule { rule_of result ≡ ends_rule }
    ensures own { result.global ≡ false }
{
    Arg::new(alloc, "ends")
        .long("ends")
        .action(ArgAction::SetTrue)
        .help("Print how the outcomes end, those that end alike on one line")
}
