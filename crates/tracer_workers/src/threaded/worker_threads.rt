//! The threads of the workers.

ghost use Rattle.std.specs.Prelude.{◌≡◌, ◌≤◌, [], All, IfSome, length, true};
ghost use Rattle.std.specs.List.{AllZip};
ghost use Rattle.std.specs.Vec.{vec_len};
ghost use Rattle.stop_table.specs.Tracer.{held_rows};
ghost use Rattle.tracer_workers.specs.Threaded.{CanWork, HasRoomFor, HasWorked};

use crate::config::Config;
use crate::gate::Gate;
use crate::threaded::shared::Shared;
use crate::worker_thread::{KeptPieces, run_worker};
use std::alloc::Allocator;
use std::snapshot::Snapshot;
use std::sync::Wait;
use std::thread::{Promise, PromisedHandle, Scope, Threads};
use std::time::Clock;
use stop_table::Tracer;
use trace_calls::Calls;

/// What a worker's thread gives back: its tracer, and what the worker has kept.
#[derive(Drop)]
pub(crate) struct TracerWithPieces<A: Allocator> {
    pub(crate) tracer: Tracer<A>,
    pub(crate) kept: KeptPieces<A>,
}

/// What the thread of a worker promises.
#[derive(Drop)]
pub(crate) struct RunsWorker<A: Allocator> {
    tracer: Snapshot<Tracer<A>>,
    config: Config,
}

impl<A: Allocator> Promise<TracerWithPieces<A>> for RunsWorker<A> {
    ghost kept_by = { λ p s.
        HasWorked p.config p.tracer.value s.tracer s.kept.pieces.items s.kept.short };
}

/// The thread of a worker that was started.
pub(crate) type WorkerThread<A> = PromisedHandle<TracerWithPieces<A>, RunsWorker<A>>;

/// What a worker gives back that has not worked, since it was refused memory or told to leave. It counts as short: it has
/// kept no piece.
fn idle<A: Allocator + Copy>(alloc: A, tracer: Tracer<A>) -> TracerWithPieces<A>
    ensures { (result.tracer ≡ tracer) × (result.kept.pieces.items ≡ []) × (result.kept.short ≡ true) }
{
    let kept = KeptPieces {
        pieces: Vec::new(alloc),
        short: true,
    };
    TracerWithPieces { tracer, kept }
}

/// The tracer of calls that hold no claim.
fn spend<A: Allocator>(calls: Calls<A>) -> Tracer<A>
    requires { held_rows calls.view ≡ [] }
    ensures { (result.table_id ≡ calls.table_id) × (result.view ≡ calls.view) }
{
    match calls.into_tracer() {
        Ok(tracer) => tracer,
        Err(_) => unreachable!(),
    }
}

/// What the thread of a worker does: it makes its calls, waits until it is told, and then works, or leaves.
fn work_when_told<A: Allocator + Copy, R: Wait + Clock, G: Gate>(
    rt: &R,
    shared: &Shared<'_, A, G>,
    tracer: Tracer<A>,
) -> TracerWithPieces<A>
    requires { CanWork shared.now.roster.now tracer }
    ensures { HasWorked shared.now.config.now tracer result.tracer result.kept.pieces.items result.kept.short }
{
    let alloc = shared.alloc;
    let worker = tracer.number();
    let mut calls = match Calls::new(alloc, tracer, shared.roster) {
        Ok(calls) => calls,
        Err(tracer) => {
            shared.line.report(false);
            return idle(alloc, tracer);
        }
    };
    shared.line.report(true);
    if !shared.line.wait_for_go(rt) {
        return idle(alloc, spend(calls));
    }
    let kept = run_worker(rt, alloc, &mut calls, shared.config, worker, shared.gate);
    TracerWithPieces {
        tracer: spend(calls),
        kept,
    }
}

/// Starts the thread of a worker; None where it cannot be started.
fn start_worker<
    's,
    'e: 's,
    A: Allocator + Copy + Send + Sync + 'e,
    R: Threads + Wait + Clock + Sync,
    G: Gate + Sync,
>(
    scope: &Scope<'s, &'e ()>,
    rt: &'e R,
    shared: &'e Shared<'e, A, G>,
    tracer: Tracer<A>,
) -> Option<WorkerThread<A>>
    requires { CanWork shared.now.roster.now tracer }
    ensures { IfSome result (λ h. (h.promise.tracer.value ≡ tracer) × (h.promise.config ≡ shared.now.config.now)) }
{
    let promise = RunsWorker {
        tracer: Snapshot::of(&tracer),
        config: *shared.config,
    };
    let work = move || -> TracerWithPieces<A>
        requires { CanWork shared.now.roster.now tracer }
        ensures { HasWorked shared.entry.now.config.now tracer result.tracer result.kept.pieces.items
            result.kept.short }
    { work_when_told(rt, shared, tracer) };
    scope.spawn_with(promise, work).ok()
}

/// Starts the threads of workers, for which there is room in a list; whether all could be started.
pub(crate) fn start_workers<
    's,
    'e: 's,
    A: Allocator + Copy + Send + Sync + 'e,
    R: Threads + Wait + Clock + Sync,
    G: Gate + Sync,
>(
    scope: &Scope<'s, &'e ()>,
    rt: &'e R,
    shared: &'e Shared<'e, A, G>,
    tracers: Vec<Tracer<A>, A>,
    threads: &mut Vec<WorkerThread<A>, A>,
) -> bool
    requires room { HasRoomFor (vec_len tracers) threads.old }
    requires ready { All (CanWork shared.now.roster.now) tracers.items }
    ensures few { vec_len threads.new ≤ vec_len tracers }
    ensures all { result ≡ true → AllZip (λ e h. (h.promise.tracer.value ≡ e)
        × (h.promise.config ≡ shared.now.config.now)) tracers.items threads.new.items }
{
    for tracer in tracers {
        match start_worker(scope, rt, shared, tracer) {
            Some(thread) => threads.push_reserved(thread),
            None => return false,
        }
    }
    true
}

/// Waits for the threads of workers, and puts what they give back into a list that has room for it.
pub(crate) fn join_workers<A: Allocator, R: Threads>(
    rt: &R,
    threads: Vec<WorkerThread<A>, A>,
    workers: &mut Vec<TracerWithPieces<A>, A>,
)
    requires { HasRoomFor (vec_len threads) workers.old }
    ensures { AllZip (λ h s. HasWorked h.promise.config h.promise.tracer.value s.tracer s.kept.pieces.items s.kept.short)
        threads.items workers.new.items }
{
    for thread in threads {
        workers.push_reserved(thread.join(rt));
    }
}
