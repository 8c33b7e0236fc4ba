//! The worked case of two rows over an allocator that refuses one growth, each growth in turn: a worker that is
//! refused one serves all stops all the same, and a gathering that is refused one says so.

ghost use denote.Param.Send.{Frees, IsSend, IsSync};
ghost use Rattle.std.specs.Prelude.{◌≡◌, [], IfSome, List};
ghost use Rattle.stop_history.specs.declared.roster.Row.{Row};
ghost use Rattle.stop_table.specs.Tracer.{held_rows};
ghost use Rattle.tracer_workers.specs.Gathering.{IsFreeTracee, IsFreeTracer};
ghost use Rattle.tracer_workers.specs.Threaded.{CanRun};

use crate::compare::same;
use crate::workers::cases::{FORK, FORK_TEXT, all};
use crate::workers::counting::Counting;
use crate::workers::party::{Scripted, pop_scripted};
use crate::workers::start_word::{StartWord, run_when_told, serve};
use refusing_allocator::RefusingAllocator;
use std::alloc::Allocator;
use std::sync::Wait;
use std::test::Fail;
use std::thread;
use std::thread::Threads;
use std::time::Clock;
use stop_history::Roster;
use stop_table::{Ends, Tracee, Tracer, open};
use trace_options::check;
use trace_script::Case;
use tracer_workers::{KeptPieces, RunError, gather};

/// The root stops when it starts, at the two ends of write(2), at the entry to fork(2), at the fork, at the exit from
/// fork(2), and when it calls exit(2). Its child stops when it starts and when it calls exit(2).
const STOPS: u32 = 9;

/// A piece for each stop, and one for each death.
const PIECES: usize = 11;

/// More than a run has growths.
const MOST: u64 = 1000;

/// The rows' tracees and a tracer, before their threads begin.
#[derive(Drop)]
struct Family<A: Allocator> {
    root: Scripted<A>,
    child: Scripted<A>,
    tracer: Tracer<A>,
}

/// What the threads give back.
#[derive(Drop)]
struct Back<A: Allocator> {
    root: Tracee<A>,
    child: Tracee<A>,
    tracer: Tracer<A>,
    worked: KeptPieces<A>,
}

/// The tracees of a case of two rows, and a tracer; None where a growth is refused.
fn new_family<A: Allocator + Copy>(alloc: A, case: &Case<A>) -> Option<Family<A>>
    ensures runs { IfSome result (λ f. CanRun f.root.tracee f.root.machine × CanRun f.child.tracee f.child.machine) }
    ensures free { IfSome result (λ f. (id : _) × IsFreeTracer id case.now.rows f.tracer
        × IsFreeTracee id case.now.rows f.root.tracee × IsFreeTracee id case.now.rows f.child.tracee) }
{
    let (options, filter) = (all().options(), all().filter());
    let Ok(()) = check(options) else {
        return None;
    };
    let Ok(ends) = open(alloc, case.roster(), 1) else {
        return None;
    };
    let Ends {
        mut tracees,
        mut tracers,
    } = ends;
    let child = pop_scripted(alloc, &mut tracees, case, options, &filter)?;
    let root = pop_scripted(alloc, &mut tracees, case, options, &filter)?;
    let tracer = tracers.pop()?;
    Some(Family {
        root,
        child,
        tracer,
    })
}

/// Runs two tracees, each in a thread, to their ends.
fn run_both<A: Allocator + Send + Sync, R: Threads + Wait + Clock + Sync>(
    rt: &R,
    word: &StartWord,
    root: Scripted<A>,
    child: Scripted<A>,
) -> (Tracee<A>, Tracee<A>)
    requires { CanRun root.tracee root.machine × CanRun child.tracee child.machine }
    ensures root { (id : _) (rows : List Row) → IsFreeTracee id rows root.tracee → IsFreeTracee id rows result.0 }
    ensures child { (id : _) (rows : List Row) → IsFreeTracee id rows child.tracee → IsFreeTracee id rows result.1 }
{
    thread::join(
        rt,
        move || -> Tracee<A>
            requires { CanRun root.tracee root.machine }
            ensures { (id : _) (rows : List Row) → IsFreeTracee id rows root.tracee → IsFreeTracee id rows result }
        { run_when_told(rt, word, root) },
        move || -> Tracee<A>
            requires { CanRun child.tracee child.machine }
            ensures { (id : _) (rows : List Row) → IsFreeTracee id rows child.tracee → IsFreeTracee id rows result }
        { run_when_told(rt, word, child) },
    )
}

/// Runs the tracees and a worker, each in a thread, to their ends. None where the worker is refused its calls: then no
/// tracee runs.
fn run_family<A: Allocator + Copy + Send + Sync, R: Threads + Wait + Clock + Sync>(
    rt: &R,
    alloc: A,
    roster: &Roster<A>,
    family: Family<A>,
    gate: &Counting,
) -> Option<Back<A>>
    requires runs { CanRun family.root.tracee family.root.machine × CanRun family.child.tracee family.child.machine }
    requires free { (id : _) × IsFreeTracer id roster.now family.tracer
        × IsFreeTracee id roster.now family.root.tracee × IsFreeTracee id roster.now family.child.tracee }
    ensures { IfSome result (λ b. (id : _) × IsFreeTracer id roster.now b.tracer
        × IsFreeTracee id roster.now b.root × IsFreeTracee id roster.now b.child) }
{
    let Family {
        root,
        child,
        tracer,
    } = family;
    let word = StartWord::new();
    let word = &word;
    let ((root, child), served) = thread::join(
        rt,
        move || -> (Tracee<A>, Tracee<A>)
            requires shared { IsSend A.row × IsSync A.row × IsSync R.row × Frees A.Allocator A.dealloc_token }
            requires runs { CanRun root.tracee root.machine × CanRun child.tracee child.machine }
            ensures root { (id : _) (rows : List Row) → IsFreeTracee id rows root.tracee →
                IsFreeTracee id rows result.0 }
            ensures child { (id : _) (rows : List Row) → IsFreeTracee id rows child.tracee →
                IsFreeTracee id rows result.1 }
        { run_both(rt, word, root, child) },
        move || -> Option<(Tracer<A>, KeptPieces<A>)>
            requires { (roster.now ≡ tracer.view.roster) × (held_rows tracer.view ≡ []) }
            ensures { (id : _) (rows : List Row) → IsFreeTracer id rows tracer →
                IfSome result (λ s. IsFreeTracer id rows s.0) }
        { serve(rt, alloc, word, tracer, roster, gate) },
    );
    let (tracer, worked) = served?;
    Some(Back {
        root,
        child,
        tracer,
        worked,
    })
}

/// What comes back from the threads of a case of two rows; None where a growth is refused before the worker serves.
fn served<A: Allocator + Copy + Send + Sync, R: Threads + Wait + Clock + Sync>(
    rt: &R,
    alloc: A,
    case: &Case<A>,
    gate: &Counting,
) -> Option<Back<A>>
    ensures { IfSome result (λ b. (id : _) × IsFreeTracer id case.now.rows b.tracer
        × IsFreeTracee id case.now.rows b.root × IsFreeTracee id case.now.rows b.child) }
{
    let family = new_family(alloc, case)?;
    run_family(rt, alloc, case.roster(), family, gate)
}

/// Gathers what came back: whether the text is the worked one, or why there is none. None where the lists that the
/// handles are put into are refused.
fn gathered<A: Allocator + Copy>(
    alloc: A,
    roster: &Roster<A>,
    back: Back<A>,
) -> Option<Result<bool, RunError>>
    requires { (id : _) × IsFreeTracer id roster.now back.tracer
        × IsFreeTracee id roster.now back.root × IsFreeTracee id roster.now back.child }
{
    let Back {
        root,
        child,
        tracer,
        worked,
    } = back;
    let Ok(mut tracers) = Vec::with_capacity(alloc, 1) else {
        return None;
    };
    tracers.push_reserved(tracer);
    let Ok(mut tracees) = Vec::with_capacity(alloc, 2) else {
        return None;
    };
    tracees.push_reserved(root);
    tracees.push_reserved(child);
    match gather(alloc, roster, tracers, tracees, worked.pieces) {
        Ok((_tracer, text)) => Some(Ok(text.as_bytes() == FORK_TEXT.as_bytes())),
        Err(error) => Some(Err(error)),
    }
}

/// In which part of a run a growth was refused.
#[derive(Clone, Copy, PartialEq, Eq)]
enum Refused {
    /// Before the worker served; then no tracee has run.
    Before,
    /// While it served.
    Serving,
    /// When the handles were put into lists.
    Listing,
    /// While the pieces were put together.
    Gathering,
    /// In none.
    Never,
}

/// Whether a worker that has come to its end was refused a growth. Its fault where it has not served each stop, or
/// where what it says of its pieces is not so.
fn refused_serving<A: Allocator>(
    worked: &KeptPieces<A>,
    stops: u32,
    has_refused: bool,
) -> Result<Refused, &'static str> {
    if stops != STOPS {
        return Err("a worker did not serve each stop once");
    }
    let pieces = worked.pieces.len();
    match worked.short {
        true if pieces < PIECES && has_refused => Ok(Refused::Serving),
        false if pieces == PIECES && !has_refused => Ok(Refused::Never),
        true => Err("a short worker has all pieces, or was refused nothing"),
        false => Err("a worker that is not short lacks pieces, or was refused a growth"),
    }
}

/// Whether a gathering of all pieces was refused a growth. Its fault where it answers neither that nor the worked
/// text.
fn refused_gathering(
    answer: Option<Result<bool, RunError>>,
    has_refused: bool,
) -> Result<Refused, &'static str> {
    match answer {
        None if has_refused => Ok(Refused::Listing),
        Some(Err(RunError::NoMemory)) if has_refused => Ok(Refused::Gathering),
        Some(Ok(true)) if !has_refused => Ok(Refused::Never),
        _ => Err("a gathering answered neither the worked text nor a refusal"),
    }
}

/// In which part a run is refused the growth after so many others, or its fault.
fn refused_in<R: Threads + Wait + Clock + AllocGlobal + Sync>(
    rt: &R,
    granted: u64,
) -> Result<Refused, &'static str> {
    let heap = RefusingAllocator::new(rt.alloc(), granted);
    let Ok(case) = Case::read(&heap, FORK.as_bytes()) else {
        let is_right = heap.has_refused();
        return is_right
            .then_some(Refused::Before)
            .ok_or("a case was not read");
    };
    if heap.has_refused() {
        return Err("a case was read though a growth was refused");
    }
    let gate = Counting::new();
    let Some(back) = served(rt, &heap, &case, &gate) else {
        let is_right = heap.has_refused() && gate.stops() == 0;
        return is_right
            .then_some(Refused::Before)
            .ok_or("a run that did not begin was refused nothing");
    };
    let refused = refused_serving(&back.worked, gate.stops(), heap.has_refused())?;
    if refused != Refused::Never {
        return Ok(refused);
    }
    let answer = gathered(&heap, case.roster(), back);
    refused_gathering(answer, heap.has_refused())
}

/// How many runs are refused a growth while the worker serves, and how many while the pieces are put together, where
/// each run has one growth more than the last, until one is granted all. A fault where one does what it must not.
fn count_refusals<R: Threads + Wait + Clock + AllocGlobal + Sync>(
    rt: &R,
) -> Result<(u32, u32), &'static str> {
    let (mut serving, mut gathering) = (0u32, 0u32);
    for granted in 0..MOST {
        match refused_in(rt, granted)? {
            Refused::Before | Refused::Listing => {}
            Refused::Serving => serving = serving.wrapping_add(1),
            Refused::Gathering => gathering = gathering.wrapping_add(1),
            Refused::Never => return Ok((serving, gathering)),
        }
    }
    Err("no run was granted all")
}

#[test]
fn a_family_is_served_and_gathered_whichever_growth_is_refused(
    rt: HostRuntime,
) -> Result<(), Fail> {
    let (serving, gathering) = count_refusals(&rt)?;
    // The list of the pieces, at least.
    same(&rt, &(serving, serving >= 1), &(serving, true));
    // The folder's two lists, at least, and the text.
    same(&rt, &(gathering, gathering >= 3), &(gathering, true));
    Ok(())
}
