//! The threads of the tracees.

ghost use Rattle.std.specs.Prelude.{◌≡◌, ◌≤◌, All, IfSome, length, true};
ghost use Rattle.std.specs.List.{AllZip};
ghost use Rattle.std.specs.Vec.{vec_len};
ghost use Rattle.tracer_workers.specs.Threaded.{CanRun, HasRoomFor, HasRun};

use crate::threaded::starting_line::StartingLine;
use crate::tracee_thread::run_tracee;
use std::alloc::Allocator;
use std::snapshot::Snapshot;
use std::sync::Wait;
use std::thread::{Promise, PromisedHandle, Scope, Threads};
use std::time::Clock;
use stop_table::Tracee;
use trace_script::Machine;

/// A tracee, and the machine of its row before its first stop.
#[derive(Drop)]
pub(crate) struct Scripted<A: Allocator> {
    pub(crate) tracee: Tracee<A>,
    pub(crate) machine: Machine<A>,
}

/// What the thread of a tracee promises of the handle that it gives back.
#[derive(Drop)]
pub(crate) struct RunsTracee<A: Allocator> {
    tracee: Snapshot<Tracee<A>>,
    machine: Snapshot<Machine<A>>,
}

impl<A: Allocator> Promise<Tracee<A>> for RunsTracee<A> {
    ghost kept_by = { λ p t. HasRun p.tracee.value p.machine.value t };
}

/// The thread of a tracee that was started.
pub(crate) type TraceeThread<A> = PromisedHandle<Tracee<A>, RunsTracee<A>>;

/// What the thread of a tracee does: it waits until it is told, and then runs its row, or leaves it.
fn run_when_told<A: Allocator, R: Wait + Clock>(
    rt: &R,
    line: &StartingLine,
    scripted: Scripted<A>,
) -> Tracee<A>
    requires { CanRun scripted.tracee scripted.machine }
    ensures { HasRun scripted.tracee scripted.machine result }
{
    let Scripted {
        mut tracee,
        machine,
    } = scripted;
    if !line.wait_for_go(rt) {
        return tracee;
    }
    run_tracee(rt, &mut tracee, machine);
    tracee
}

/// Starts the thread of a tracee; None where it cannot be started.
fn start_tracee<'s, 'e: 's, A: Allocator + Send + Sync + 'e, R: Threads + Wait + Clock + Sync>(
    scope: &Scope<'s, &'e ()>,
    rt: &'e R,
    line: &'e StartingLine,
    scripted: Scripted<A>,
) -> Option<TraceeThread<A>>
    requires { CanRun scripted.tracee scripted.machine }
    ensures { IfSome result (λ h. (h.promise.tracee.value ≡ scripted.tracee)
        × (h.promise.machine.value ≡ scripted.machine)) }
{
    let promise = RunsTracee {
        tracee: Snapshot::of(&scripted.tracee),
        machine: Snapshot::of(&scripted.machine),
    };
    let run = move || -> Tracee<A>
        requires { CanRun scripted.tracee scripted.machine }
        ensures { HasRun scripted.tracee scripted.machine result }
    { run_when_told(rt, line, scripted) };
    scope.spawn_with(promise, run).ok()
}

/// Starts the threads of tracees, for which there is room in a list; whether all could be started.
pub(crate) fn start_tracees<
    's,
    'e: 's,
    A: Allocator + Send + Sync + 'e,
    R: Threads + Wait + Clock + Sync,
>(
    scope: &Scope<'s, &'e ()>,
    rt: &'e R,
    line: &'e StartingLine,
    all: Vec<Scripted<A>, A>,
    threads: &mut Vec<TraceeThread<A>, A>,
) -> bool
    requires room { HasRoomFor (vec_len all) threads.old }
    requires ready { All (λ s. CanRun s.tracee s.machine) all.items }
    ensures few { vec_len threads.new ≤ vec_len all }
    ensures all { result ≡ true → AllZip (λ s h. (h.promise.tracee.value ≡ s.tracee)
        × (h.promise.machine.value ≡ s.machine)) all.items threads.new.items }
{
    for scripted in all {
        match start_tracee(scope, rt, line, scripted) {
            Some(thread) => threads.push_reserved(thread),
            None => return false,
        }
    }
    true
}

/// Waits for the threads of tracees, and puts the handles that they give back into a list that has room for them.
pub(crate) fn join_tracees<A: Allocator, R: Threads>(
    rt: &R,
    threads: Vec<TraceeThread<A>, A>,
    tracees: &mut Vec<Tracee<A>, A>,
)
    requires { HasRoomFor (vec_len threads) tracees.old }
    ensures { AllZip (λ h t. HasRun h.promise.tracee.value h.promise.machine.value t) threads.items tracees.new.items }
{
    for thread in threads {
        tracees.push_reserved(thread.join(rt));
    }
}
