//! Runs a case on threads: one for each tracee, and one for each worker.
//!
//! First all cells, machines and lists are made. Then the threads are started, each of which waits behind a starting
//! line, and a worker makes its calls there, since calls cannot be handed to a thread. Once all have what they need they
//! are told to go; where a thread could not be started or a growth was refused they are told to leave. Either way all
//! are joined, and what they give back is gathered.

ghost use denote.Param.Send.{Frees, IsSend, IsSync};
ghost use Rattle.std.specs.Prelude.{◌≡◌, ◌≢◌, ◌++◌, ◌≤◌, All, IfErr, IfOk, OnOk, false, length, map, min, reverse, true};
ghost use Rattle.std.specs.List.{AllZip, flat_map};
ghost use Rattle.std.specs.Vec.{vec_len};
ghost use Rattle.atomic_table.specs.Seated.{TableId};
ghost use Rattle.stop_history.specs.declared.limits.TheConstants.{TRACERS};
ghost use Rattle.stop_table.specs.Opening.{AreTracees};
ghost use Rattle.tracer_workers.specs.Config.{plain, plan_of, text_of};
ghost use Rattle.tracer_workers.specs.Threaded.{AreGivenBack, CanBeHanded, HasRoomFor};
ghost use Rattle.tracer_workers.specs.TraceeThread.{IsToStart};
ghost use Rattle.tracer_workers.specs.declared.run_error.RunError.TheVariants as run_error;

mod shared;
mod starting_line;
mod tracee_threads;
mod worker_threads;

use crate::config::Config;
use crate::gate::Gate;
use crate::gathering::gather;
use crate::invariants;
use crate::laws::{runs_print_their_case, the_mode_changes_no_text};
use crate::machine::new_machine;
use crate::run_error::RunError;
use crate::threaded::shared::Shared;
use crate::threaded::starting_line::StartingLine;
use crate::threaded::tracee_threads::{Scripted, TraceeThread, join_tracees, start_tracees};
use crate::threaded::worker_threads::{
    TracerWithPieces, WorkerThread, join_workers, start_workers,
};
use record_printer::{Piece, Text};
use std::alloc::Allocator;
use std::sync::Wait;
use std::thread;
use std::thread::{Scope, Threads};
use std::time::Clock;
use stop_history::TRACERS;
use stop_table::{Tracee, Tracer, open};
use trace_options::NoMemory;
use trace_script::Case;

/// The tracees of a case, each with its machine.
fn with_machines<A: Allocator + Copy>(
    alloc: A,
    case: &Case<A>,
    config: &Config,
    tracees: Vec<Tracee<A>, A>,
) -> Result<Vec<Scripted<A>, A>, NoMemory>
    requires { (id : TableId) × AreTracees id case.now.rows tracees.items × (vec_len tracees ≡ length case.now.rows) }
    ensures { IfOk result (λ all. AllZip (λ e s. (s.tracee ≡ e)
        × IsToStart (plan_of config.now case.now) s.tracee s.machine) tracees.items all.items) }
{
    let mut all = Vec::with_capacity(alloc, tracees.len())?;
    invariants::of_case(case);
    let mut row = 0;
    for tracee in tracees {
        let machine = new_machine(alloc, case, row, config)?;
        all.push_reserved(Scripted { tracee, machine });
        row += 1;
    }
    Ok(all)
}

/// What the threads of a run are handed: each tracee with its machine, and the tracers of the workers.
#[derive(Drop)]
struct RunHandles<A: Allocator> {
    scripted: Vec<Scripted<A>, A>,
    tracers: Vec<Tracer<A>, A>,
}

/// The threads of a run that were started.
#[derive(Drop)]
struct StartedThreads<A: Allocator> {
    tracees: Vec<TraceeThread<A>, A>,
    workers: Vec<WorkerThread<A>, A>,
}

/// What the threads of a run have given back.
#[derive(Drop)]
struct ReturnedHandles<A: Allocator> {
    tracees: Vec<Tracee<A>, A>,
    workers: Vec<TracerWithPieces<A>, A>,
}

/// The lists of a run with this many tracees and workers: for the threads, and for what they give back.
fn make_lists<A: Allocator + Copy>(
    alloc: A,
    rows: usize,
    workers: usize,
) -> Result<(StartedThreads<A>, ReturnedHandles<A>), NoMemory>
    ensures started { IfOk result (λ lists. HasRoomFor rows lists.0.tracees × HasRoomFor workers lists.0.workers) }
    ensures back { IfOk result (λ lists. HasRoomFor rows lists.1.tracees × HasRoomFor workers lists.1.workers) }
{
    let started = StartedThreads {
        tracees: Vec::with_capacity(alloc, rows)?,
        workers: Vec::with_capacity(alloc, workers)?,
    };
    let back = ReturnedHandles {
        tracees: Vec::with_capacity(alloc, rows)?,
        workers: Vec::with_capacity(alloc, workers)?,
    };
    Ok((started, back))
}

/// Starts the threads of all tracees and workers, for which there is room; whether all could be started.
fn start_all<
    's,
    'e: 's,
    A: Allocator + Copy + Send + Sync + 'e,
    R: Threads + Wait + Clock + Sync,
    G: Gate + Sync,
>(
    scope: &Scope<'s, &'e ()>,
    rt: &'e R,
    shared: &'e Shared<'e, A, G>,
    handed: RunHandles<A>,
    started: &mut StartedThreads<A>,
) -> bool
    requires handed { CanBeHanded shared.now.roster.now handed }
    requires room { HasRoomFor (vec_len handed.scripted) started.old.tracees
        × HasRoomFor (vec_len handed.tracers) started.old.workers }
    ensures few { (vec_len started.new.tracees ≤ vec_len handed.scripted)
        × (vec_len started.new.workers ≤ vec_len handed.tracers) }
    ensures tracees { result ≡ true → AllZip (λ s h. (h.promise.tracee.value ≡ s.tracee)
        × (h.promise.machine.value ≡ s.machine)) handed.scripted.items started.new.tracees.items }
    ensures workers { result ≡ true → AllZip (λ e h. (h.promise.tracer.value ≡ e)
        × (h.promise.config ≡ shared.now.config.now)) handed.tracers.items started.new.workers.items }
{
    let RunHandles { scripted, tracers } = handed;
    if !start_tracees(scope, rt, shared.line, scripted, &mut started.tracees) {
        return false;
    }
    start_workers(scope, rt, shared, tracers, &mut started.workers)
}

/// Makes the lists, starts all threads, tells them to go once all have what they need, and otherwise to leave, and joins
/// them.
fn run_threads<
    's,
    'e: 's,
    A: Allocator + Copy + Send + Sync + 'e,
    R: Threads + Wait + Clock + Sync,
    G: Gate + Sync,
>(
    scope: &Scope<'s, &'e ()>,
    rt: &'e R,
    shared: &'e Shared<'e, A, G>,
    handed: RunHandles<A>,
) -> Result<ReturnedHandles<A>, RunError>
    requires { CanBeHanded shared.now.roster.now handed }
    ensures back { IfOk result (AreGivenBack shared.now.config.now handed) }
    ensures kept { IfErr result (λ error. error ≢ run_error.Lost) }
{
    let workers = handed.tracers.len();
    let (mut started, mut back) = make_lists(shared.alloc, handed.scripted.len(), workers)?;
    let are_started = start_all(scope, rt, shared, handed, &mut started);
    let are_ready = are_started && shared.line.await_workers(rt, workers as u64);
    shared.line.tell(are_ready);
    join_tracees(rt, started.tracees, &mut back.tracees);
    join_workers(rt, started.workers, &mut back.workers);
    if !are_started {
        return Err(RunError::Threads);
    }
    if !are_ready {
        return Err(RunError::NoMemory);
    }
    Ok(back)
}

/// The same in a scope of its own, at whose end all threads have ended.
fn run_in_scope<
    A: Allocator + Copy + Send + Sync,
    R: Threads + Wait + Clock + Sync,
    G: Gate + Sync,
>(rt: &R, shared: &Shared<'_, A, G>, handed: RunHandles<A>) -> Result<ReturnedHandles<A>, RunError>
    requires { CanBeHanded shared.now.roster.now handed }
    ensures back { IfOk result (AreGivenBack shared.now.config.now handed) }
    ensures kept { IfErr result (λ error. error ≢ run_error.Lost) }
{
    thread::scope(
        thread::scope_env(),
        rt,
        move |scope| -> Result<ReturnedHandles<A>, RunError>
            requires shared { IsSend A.row × IsSync A.row × IsSync R.row × IsSync G.row
                × Frees A.Allocator A.dealloc_token }
            requires handed { CanBeHanded shared.now.roster.now handed }
            ensures back { IfOk result (AreGivenBack shared.entry.now.config.now handed) }
            ensures kept { IfErr result (λ error. error ≢ run_error.Lost) }
        { run_threads(scope, rt, shared, handed) },
    )
}

/// Puts the tracers of workers behind others, and all of their pieces into one list. It is refused where a worker was
/// refused memory.
fn take_apart<A: Allocator + Copy>(
    alloc: A,
    workers: Vec<TracerWithPieces<A>, A>,
    tracers: &mut Vec<Tracer<A>, A>,
) -> Result<Vec<Piece<A>, A>, NoMemory>
    ensures tracers { IfOk result (λ _. tracers.new.items ≡ tracers.old.items ++ map (λ w. w.tracer) workers.items) }
    ensures pieces { IfOk result (λ p. p.items ≡ flat_map (λ w. w.kept.pieces.items) workers.items) }
    ensures whole { OnOk result (All (λ w. w.kept.short ≡ false) workers.items) }
{
    let mut pieces = Vec::new(alloc);
    for one in workers {
        let TracerWithPieces { tracer, kept } = one;
        if kept.short {
            return Err(NoMemory);
        }
        tracers.push(tracer)?;
        let mut more = kept.pieces;
        pieces.append(&mut more)?;
    }
    Ok(pieces)
}

/// Splits the last tracers off, so that there are as many as workers, or all where there are fewer.
fn split_spare<A: Allocator + Copy>(
    alloc: A,
    tracers: &mut Vec<Tracer<A>, A>,
    workers: u32,
) -> Result<Vec<Tracer<A>, A>, NoMemory>
    requires { vec_len tracers.old ≤ TRACERS }
    ensures all { IfOk result (λ spare. tracers.old.items ≡ tracers.new.items ++ reverse spare.items) }
    ensures left { OnOk result (vec_len tracers.new ≡ min (vec_len tracers.old) workers) }
{
    let mut spare = Vec::with_capacity(alloc, TRACERS as usize)?;
    while tracers.len() > workers as usize {
        let Some(tracer) = tracers.pop() else {
            unreachable!()
        };
        spare.push_reserved(tracer);
    }
    Ok(spare)
}

/// Runs a case on threads, and prints it: a thread runs each tracee's script, and as many workers as the configuration
/// says serve their stops. The text does not depend on the number of workers, on the filter, on the stops before
/// deaths, or on how the threads take turns.
///
/// `NoMemory` where a growth is refused, and `Threads` where a thread could not be started; then no tracee has run, unless
/// the growth was one of a worker that had begun to work. Either way all threads have ended. Never `Lost`: what the
/// workers have kept is all that the tracees did.
pub fn run_case<
    A: Allocator + Copy + Send + Sync,
    R: Threads + Wait + Clock + Sync,
    G: Gate + Sync,
>(rt: &R, alloc: A, case: &Case<A>, config: &Config, gate: &G) -> Result<Text<A>, RunError>
    requires { (1 ≤ config.now.workers) × (config.now.workers ≤ TRACERS) }
    ensures text { IfOk result (λ text. text ≡ text_of (plain config.now) case.now) }
    ensures kept { IfErr result (λ error. error ≢ run_error.Lost) }
{
    runs_print_their_case();
    the_mode_changes_no_text();
    let roster = case.roster();
    let Ok(ends) = open(alloc, roster, TRACERS) else {
        return Err(RunError::NoMemory);
    };
    let scripted = with_machines(alloc, case, config, ends.tracees)?;
    let mut tracers = ends.tracers;
    let mut spare = split_spare(alloc, &mut tracers, config.workers)?;
    let line = StartingLine::new();
    let shared = Shared {
        alloc,
        line: &line,
        roster,
        config,
        gate,
    };
    let back = run_in_scope(rt, &shared, RunHandles { scripted, tracers })?;
    let pieces = take_apart(alloc, back.workers, &mut spare)?;
    let (_tracer, text) = gather(alloc, roster, spare, back.tracees, pieces)?;
    Ok(text)
}
