//! The acts of steps, done one after the other, up to the next stop, the exit or a fault.

ghost use Rattle.std.specs.Prelude.{◌≡◌, ◌≢◌, ◌<◌, ◌+◌, ℕ, List, None, Some, IfSome, drop, if◌then◌else◌, length};
ghost use Rattle.std.specs.Prelude.{◌==◌, false, option_map, slice_get};
ghost use Rattle.trace_pages.specs.FlatMemory.{run_end, stored};
ghost use Rattle.trace_pages.specs.Memory.{store_answer};
ghost use Rattle.trace_script.specs.Arrivals.{effect_by, next_outcome, reached};
ghost use Rattle.trace_script.specs.Kept.{fill_of, step_of};
ghost use Rattle.trace_script.specs.KeptActs.{act_in, program_of, when_in};
ghost use Rattle.trace_script.specs.Left.{acts_at, left_in, most_acts};
ghost use Rattle.trace_script.specs.Machine.{StaysAtStop};
ghost use Rattle.trace_script.specs.Registers.{with_start};
ghost use Rattle.trace_script.specs.StepStops.{Becomes, acts_of, halts};
ghost use Rattle.trace_script.specs.StopTrace.{GoesOn, Stops, advance, context, context_of};
ghost use Rattle.trace_script.specs.StopTrace.{effect_of, exit_effect, store_effect};
ghost use Rattle.trace_record.specs.declared.death.Death.{Death};
ghost use Rattle.trace_record.specs.declared.death.Death.TheVariants.{Signaled};
ghost use Rattle.trace_script.specs.declared.setting.Setting.{Setting};
ghost use Rattle.trace_script.specs.declared.step.effect.Effect.TheVariants as effect;
ghost use Rattle.trace_script.specs.declared.step.effect.Reached.TheVariants as reached_at;

use crate::script::{Fill, Image, Step};
use crate::step::act::{Act, When};
use crate::step::effect::{Effect, Reached};
use crate::step::halts::halts;
use crate::step::registers::{with_answer, with_call, with_start};
use crate::step::step_acts::{act_at, arguments_of, nr_of};
use crate::step::walk::Walk;
use std::alloc::Allocator;
use trace_pages::Memory;
use trace_record::{Death, Stop, StopRecord};

/// Does the acts that are left of steps from a place in one of them on.
pub(crate) fn run_steps<A: Allocator>(
    walk: &Walk<'_>,
    steps: &mut [Step<Memory<A>>],
    from: usize,
    place: u32,
    held: &mut StopRecord<A>,
    empties: &mut Vec<Memory<A>, A>,
) -> Reached
    ensures reached { advance walk.now.setting.now walk.now.how
        (left_in walk.now.setting.now walk.now.filled.now (drop from steps.old) place) (context_of held.old)
        ≡ reached walk.now.setting.now walk.now.how result walk.now.filled.now steps.new held.new.stop
        (context_of held.new) }
    ensures len { length steps.new ≡ length steps.old }
    ensures exits { (death : Death) → result ≡ reached_at.AtExit death → StaysAtStop held.old held.new }
{
    let mut index = from;
    let mut at = place;
    while index < steps.len() {
        match run_here(walk, steps, index, at, held, empties) {
            Some(Effect::Stops) => return Reached::Stopped(index, at + 1),
            Some(Effect::GoesOn) => at += 1,
            Some(Effect::Exits(death)) => return Reached::AtExit(death),
            Some(Effect::Faults(addr)) => return Reached::Faulted(addr),
            None => {
                index += 1;
                at = 0;
            }
        }
    }
    Reached::AtExit(Death::Exited(0))
}

/// Does the act at a place of the step at an index, if the step has one there.
fn run_here<A: Allocator>(
    walk: &Walk<'_>,
    steps: &mut [Step<Memory<A>>],
    index: usize,
    place: u32,
    held: &mut StopRecord<A>,
    empties: &mut Vec<Memory<A>, A>,
) -> Option<Effect>
    requires { index < length steps.old }
    ensures outcome { advance walk.now.setting.now walk.now.how
        (left_in walk.now.setting.now walk.now.filled.now (drop index steps.old) place) (context_of held.old)
        ≡ next_outcome walk.now.setting.now walk.now.how result
        (left_in walk.now.setting.now walk.now.filled.now (drop index steps.new) (place + 1))
        (left_in walk.now.setting.now walk.now.filled.now (drop (index + 1) steps.new) 0)
        held.new.stop (context_of held.new) }
    ensures few { result ≢ None → place < most_acts }
    ensures len { length steps.new ≡ length steps.old }
    ensures still { result ≢ Some effect.Stops → StaysAtStop held.old held.new }
{
    let step = &mut steps[index];
    match act_at(step, walk.setting, place) {
        Some(act) => Some(run_act(walk, step, act, held, empties)),
        None => None,
    }
}

/// Does an act of a step. What comes after it in the step stays the same.
fn run_act<A: Allocator>(
    walk: &Walk<'_>,
    step: &mut Step<Memory<A>>,
    act: Act,
    held: &mut StopRecord<A>,
    empties: &mut Vec<Memory<A>, A>,
) -> Effect
    ensures effect { IfSome (act_in walk.now.filled.now (step_of walk.now.filled.now step.old) act)
        (λ act. effect_of walk.now.setting.now walk.now.how act (context_of held.old)
        ≡ effect_by walk.now.setting.now result held.new.stop (context_of held.new)) }
    ensures stays { result ≡ effect.Stops → context_of held.new ≡ context_of held.old }
    ensures exits { (death : Death) → result ≡ effect.Exits death → context_of held.new ≡ context_of held.old }
    ensures still { result ≢ effect.Stops → StaysAtStop held.old held.new }
    ensures rest { (place : ℕ) → act_in walk.now.filled.now (step_of walk.now.filled.now step.old) act
        ≡ slice_get (acts_of walk.now.setting.now (step_of walk.now.filled.now step.old)) place →
        acts_at walk.now.setting.now (step_of walk.now.filled.now step.new) (place + 1)
        ≡ acts_at walk.now.setting.now (step_of walk.now.filled.now step.old) (place + 1) }
{
    match act {
        Act::Halts(when, stop) => halt(walk, when, stop, step, held),
        Act::Calls => {
            held.regs = with_call(nr_of(step), &arguments_of(step), &held.regs);
            Effect::GoesOn
        }
        Act::Becomes => {
            start(step, held, empties);
            Effect::GoesOn
        }
        Act::Stores(fill) => store(walk, fill, held),
        Act::Answers(answer) => {
            held.regs = with_answer(answer, &held.regs);
            Effect::GoesOn
        }
        Act::Delivers => deliver(walk),
        Act::Exits(death) => Effect::Exits(death),
    }
}

/// Stops, if the tracee does at this place.
fn halt<A: Allocator>(
    walk: &Walk<'_>,
    when: When,
    stop: Stop,
    step: &Step<Memory<A>>,
    held: &mut StopRecord<A>,
) -> Effect
    ensures effect { (filled : List ℕ) →
        (if halts walk.now.setting.now walk.now.how (when_in (step_of filled step.now) when) then Stops stop
        else GoesOn (context_of held.old))
        ≡ effect_by walk.now.setting.now result held.new.stop (context_of held.new) }
    ensures stays { context_of held.new ≡ context_of held.old }
    ensures still { result ≢ effect.Stops → StaysAtStop held.old held.new }
{
    if !halts(walk, when, step) {
        return Effect::GoesOn;
    }
    held.stop = stop;
    Effect::Stops
}

/// Starts the program of a step that is an exec.
fn start<A: Allocator>(
    step: &mut Step<Memory<A>>,
    held: &mut StopRecord<A>,
    empties: &mut Vec<Memory<A>, A>,
)
    ensures context { (filled : List ℕ) → IfSome (program_of (step_of filled step.old))
        (λ image. context_of held.new
        ≡ context (with_start image.rip image.rsp held.old.regs) image.memory) }
    ensures still { StaysAtStop held.old held.new }
    ensures rest { (filled : List ℕ) (s : Setting) (place : ℕ) →
        option_map Becomes (program_of (step_of filled step.old))
        ≡ slice_get (acts_of s (step_of filled step.old)) place →
        acts_at s (step_of filled step.new) (place + 1) ≡ acts_at s (step_of filled step.old) (place + 1) }
{
    match step {
        Step::Exec { image, .. } => put_in(image, held, empties),
        Step::Call(_) => {}
        Step::Fork(_) => {}
        Step::Thread(_) => {}
        Step::Signal { .. } => {}
        Step::Exit(_) => {}
    }
}

/// Puts the program of an exec in.
fn put_in<A: Allocator>(
    image: &mut Image<Memory<A>>,
    held: &mut StopRecord<A>,
    empties: &mut Vec<Memory<A>, A>,
)
    ensures memory { held.new.memory ≡ image.old.memory }
    ensures regs { held.new.regs ≡ with_start image.old.rip image.old.rsp held.old.regs }
    ensures still { StaysAtStop held.old held.new }
{
    put_memory_in(image, held, empties);
    held.regs = with_start(image.rip, image.rsp, &held.regs);
}

/// Puts the memory of a program in, and gives the pages of the old memory back. No allocator is at hand, so the image,
/// which no one reads again, is left with memory of no page that was made before.
pub(crate) fn put_memory_in<A: Allocator>(
    image: &mut Image<Memory<A>>,
    held: &mut StopRecord<A>,
    empties: &mut Vec<Memory<A>, A>,
)
    ensures memory { held.new.memory ≡ image.old.memory }
    ensures regs { held.new.regs ≡ held.old.regs }
    ensures still { StaysAtStop held.old held.new }
    ensures rip { image.new.rip ≡ image.old.rip }
    ensures rsp { image.new.rsp ≡ image.old.rsp }
{
    std::mem::swap(&mut held.memory, &mut image.memory);
    if let Some(empty) = empties.pop() {
        image.memory = empty;
    }
}

/// Writes what a call writes, or finds the address at which it faults.
fn store<A: Allocator>(walk: &Walk<'_>, fill: Fill, held: &mut StopRecord<A>) -> Effect
    ensures effect { let bytes = (fill_of walk.now.filled.now fill).bytes in
        store_effect (store_answer (run_end held.old.memory fill.addr (length bytes)))
        (context held.old.regs (stored held.old.memory fill.addr bytes))
        ≡ effect_by walk.now.setting.now result held.new.stop (context_of held.new) }
    ensures stays { result ≢ effect.Stops }
    ensures exits { (death : Death) → result ≢ effect.Exits death }
    ensures still { StaysAtStop held.old held.new }
{
    match held.memory.store(fill.addr, fill.bytes(walk.filled)) {
        Ok(()) => Effect::GoesOn,
        Err(fault) => Effect::Faults(fault.addr),
    }
}

/// Hands the signal of a restart over where it kills.
fn deliver(walk: &Walk<'_>) -> Effect
    ensures effect { (at : _) (x : _) → (if walk.now.how.signal == 0 then GoesOn x
        else exit_effect walk.now.setting.now (Signaled walk.now.how.signal false))
        ≡ effect_by walk.now.setting.now result at x }
    ensures stays { result ≢ effect.Stops }
{
    if walk.how.signal == 0 {
        return Effect::GoesOn;
    }
    Effect::Exits(Death::Signaled {
        signal: walk.how.signal,
        core: false,
    })
}
