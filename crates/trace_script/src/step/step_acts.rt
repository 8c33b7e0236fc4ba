//! What a step does, one act after the other. A place in a step is the number of acts before it.

ghost use Rattle.std.specs.Prelude.{◌≡◌, ℕ, List, Some, ◌∷◌, option_map, slice_get};
ghost use Rattle.trace_script.specs.Kept.{step_of};
ghost use Rattle.trace_script.specs.KeptActs.{act_in};
ghost use Rattle.trace_script.specs.Script.{Step as PlainStep};
ghost use Rattle.trace_script.specs.StepStops.{ByOption, Halts, acts_of, after_filter, after_signal, answers};
ghost use Rattle.trace_script.specs.StepStops.{call_acts, nr_of, step_arguments};
ghost use Rattle.trace_script.specs.StepStops as acts;
ghost use Rattle.trace_record.specs.declared.stop.Stop.TheVariants as stop;

use crate::calls::{CLONE, CLONE_THREAD_FLAGS, EXECVE, EXIT, FORK};
use crate::script::Step;
use crate::setting::Setting;
use crate::step::act::{Act, When};
use std::alloc::Allocator;
use trace_options::Options;
use trace_pages::Memory;
use trace_record::{Death, Stop};

/// The act of a step at a place, or None at its end.
#[inline(always)]
pub(crate) fn act_at<A: Allocator>(
    step: &Step<Memory<A>>,
    setting: &Setting,
    place: u32,
) -> Option<Act>
    ensures { (filled : List ℕ) → option_map (act_in filled (step_of filled step.now)) result
        ≡ option_map Some (slice_get (acts_of setting.now (step_of filled step.now)) place) }
{
    match step {
        Step::Signal { signal, deadly } => act_at_signal(*signal, *deadly, place),
        _ => act_in_call(step, setting, place),
    }
}

/// The act at a place where a signal arrives.
#[inline(always)]
fn act_at_signal(signal: u8, deadly: bool, place: u32) -> Option<Act>
    ensures { (filled : List ℕ) (step : PlainStep) → option_map (act_in filled step) result
        ≡ option_map Some (slice_get (Halts acts.Always (stop.Signal signal) ∷ after_signal deadly) place) }
{
    match place {
        0 => Some(Act::Halts(When::Always, Stop::Signal(signal))),
        1 if deadly => Some(Act::Delivers),
        _ => None,
    }
}

/// The act at a place of a step that is a system call.
#[inline(always)]
fn act_in_call<A: Allocator>(step: &Step<Memory<A>>, setting: &Setting, place: u32) -> Option<Act>
    ensures { (filled : List ℕ) → option_map (act_in filled (step_of filled step.now)) result
        ≡ option_map Some (slice_get (call_acts setting.now (step_of filled step.now)) place) }
{
    match place {
        0 => Some(Act::Calls),
        1 => Some(Act::Halts(When::Traced, Stop::Enter)),
        2 => Some(Act::Halts(When::Filtered, Stop::Seccomp(setting.filter.ret_data))),
        _ => act_after_filter(step, setting, place - 3),
    }
}

/// The act at a place after the seccomp stop.
#[inline(always)]
fn act_after_filter<A: Allocator>(
    step: &Step<Memory<A>>,
    setting: &Setting,
    place: u32,
) -> Option<Act>
    ensures { (filled : List ℕ) → option_map (act_in filled (step_of filled step.now)) result
        ≡ option_map Some (slice_get (after_filter setting.now (step_of filled step.now)) place) }
{
    match step {
        Step::Call(call) => match call.fill {
            Some(fill) => match place {
                0 => Some(Act::Stores(fill)),
                _ => act_of_answer(call.answer, place - 1),
            },
            None => act_of_answer(call.answer, place),
        },
        Step::Fork(child) => act_of_event(
            Options::TRACEFORK,
            Stop::Fork(*child),
            u64::from(*child),
            place,
        ),
        Step::Thread(child) => act_of_event(
            Options::TRACECLONE,
            Stop::Clone(*child),
            u64::from(*child),
            place,
        ),
        Step::Exec { .. } => match place {
            0 => Some(Act::Becomes),
            _ => act_of_event(Options::TRACEEXEC, Stop::Exec(setting.tid), 0, place - 1),
        },
        Step::Signal { .. } => None,
        Step::Exit(status) => match place {
            0 => Some(Act::Exits(Death::Exited((*status % 256) as u8))),
            _ => None,
        },
    }
}

/// The act at a place from an event on.
#[inline(always)]
fn act_of_event(option: Options, stop: Stop, answer: u64, place: u32) -> Option<Act>
    ensures { (filled : List ℕ) (step : PlainStep) → option_map (act_in filled step) result
        ≡ option_map Some (slice_get (Halts (ByOption option) stop ∷ answers answer) place) }
{
    match place {
        0 => Some(Act::Halts(When::ByOption(option), stop)),
        _ => act_of_answer(answer, place - 1),
    }
}

/// The act at a place from the answer of a call on.
#[inline(always)]
fn act_of_answer(answer: u64, place: u32) -> Option<Act>
    ensures { (filled : List ℕ) (step : PlainStep) → option_map (act_in filled step) result
        ≡ option_map Some (slice_get (answers answer) place) }
{
    match place {
        0 => Some(Act::Answers(answer)),
        1 => Some(Act::Halts(When::Traced, Stop::Exit)),
        _ => None,
    }
}

/// The number of a step's system call; a signal is none.
pub(crate) fn nr_of<A: Allocator>(step: &Step<Memory<A>>) -> u64
    ensures { (filled : List ℕ) → result ≡ nr_of (step_of filled step.now) }
{
    match step {
        Step::Call(call) => call.nr,
        Step::Fork(_) => FORK,
        Step::Thread(_) => CLONE,
        Step::Exec { .. } => EXECVE,
        Step::Signal { .. } => 0,
        Step::Exit(_) => EXIT,
    }
}

/// The arguments of a step's system call.
pub(crate) fn arguments_of<A: Allocator>(step: &Step<Memory<A>>) -> [u64; 6]
    ensures { (filled : List ℕ) → result ≡ step_arguments (step_of filled step.now) }
{
    match step {
        Step::Call(call) => call.args,
        Step::Fork(_) => [0; 6],
        Step::Thread(_) => [CLONE_THREAD_FLAGS, 0, 0, 0, 0, 0],
        Step::Exec { path, .. } => [*path, 0, 0, 0, 0, 0],
        Step::Signal { .. } => [0; 6],
        Step::Exit(status) => [*status, 0, 0, 0, 0, 0],
    }
}
