//! A look ahead over acts: whether a store faults before the tracee stops or dies. Nothing is changed.

ghost use Rattle.std.specs.Prelude.{◌≡◌, ℕ, List, Ok, Err, IfSome, drop, length, if◌then◌else◌};
ghost use Rattle.trace_pages.specs.FlatMemory.{run_end};
ghost use Rattle.trace_pages.specs.Memory.{store_answer};
ghost use Rattle.trace_script.specs.Fills.{memory_after};
ghost use Rattle.trace_script.specs.Kept.{fill_of, seen, step_of};
ghost use Rattle.trace_script.specs.KeptActs.{act_in};
ghost use Rattle.trace_script.specs.Left.{left_in};
ghost use Rattle.trace_script.specs.LookAhead.{fault_in, fill_check, look_at, look_over};
ghost use Rattle.trace_script.specs.declared.step.found.Found.TheVariants as found;

use crate::script::{Fill, Step};
use crate::step::act::Act;
use crate::step::found::Found;
use crate::step::halts::halts;
use crate::step::step_acts::act_at;
use crate::step::walk::Walk;
use std::alloc::Allocator;
use trace_pages::Memory;

/// The address of the store that faults before the tracee stops or dies, in what is left of steps from a place in one
/// of them on.
pub(crate) fn fault_ahead<A: Allocator>(
    walk: &Walk<'_>,
    steps: &[Step<Memory<A>>],
    from: usize,
    place: u32,
    memory: &Memory<A>,
) -> Option<u64>
    ensures { result ≡ fault_in (look_over walk.now.setting.now walk.now.how
        (left_in walk.now.setting.now walk.now.filled.now (drop from steps.now) place) memory.now) }
{
    match look_ahead(walk, steps, from, place, memory) {
        Err(Found::Fault(addr)) => Some(addr),
        Err(Found::Halt) => None,
        Ok(_) => None,
    }
}

/// Looks at the acts that are left of steps from a place in one of them on. The answer is what was found: at the latest,
/// the exit that comes where the steps run out.
fn look_ahead<'a, A: Allocator>(
    walk: &Walk<'_>,
    steps: &'a [Step<Memory<A>>],
    from: usize,
    place: u32,
    memory: &'a Memory<A>,
) -> Result<&'a Memory<A>, Found>
    ensures { seen result ≡ look_over walk.now.setting.now walk.now.how
        (left_in walk.now.setting.now walk.now.filled.now (drop from steps.now) place) memory.now }
{
    let mut index = from;
    let mut at = place;
    let mut now = memory;
    while index < steps.len() {
        let step = &steps[index];
        match act_at(step, walk.setting, at) {
            Some(act) => {
                now = look_at(walk, step, act, now)?;
                at += 1;
            }
            None => {
                index += 1;
                at = 0;
            }
        }
    }
    Err(Found::Halt)
}

/// Looks at an act of a step.
fn look_at<'a, A: Allocator>(
    walk: &Walk<'_>,
    step: &'a Step<Memory<A>>,
    act: Act,
    memory: &'a Memory<A>,
) -> Result<&'a Memory<A>, Found>
    ensures { IfSome (act_in walk.now.filled.now (step_of walk.now.filled.now step.now) act)
        (λ act. seen result ≡ look_at walk.now.setting.now walk.now.how act memory.now) }
{
    match act {
        Act::Halts(when, _) => go_on_unless(halts(walk, when, step), memory),
        Act::Calls => Ok(memory),
        Act::Becomes => Ok(memory_after(step, memory)),
        Act::Stores(fill) => {
            check_fill(fill, walk.filled, memory)?;
            Ok(memory)
        }
        Act::Answers(_) => Ok(memory),
        Act::Delivers => go_on_unless(walk.how.signal != 0, memory),
        Act::Exits(_) => Err(Found::Halt),
    }
}

/// The same memory, unless the tracee stops or dies.
fn go_on_unless<A: Allocator>(halts: bool, memory: &Memory<A>) -> Result<&Memory<A>, Found>
    ensures { seen result ≡ (if halts then Err found.Halt else Ok memory.now) }
{
    if halts {
        return Err(Found::Halt);
    }
    Ok(memory)
}

/// The memory after a step that is an exec: its program's.
fn memory_after<'a, A: Allocator>(step: &'a Step<Memory<A>>, memory: &'a Memory<A>) -> &'a Memory<A>
    ensures { (filled : List ℕ) → result.now ≡ memory_after memory.now (step_of filled step.now) }
{
    match step {
        Step::Exec { image, .. } => &image.memory,
        Step::Call(_) => memory,
        Step::Fork(_) => memory,
        Step::Thread(_) => memory,
        Step::Signal { .. } => memory,
        Step::Exit(_) => memory,
    }
}

/// The bytes that a call writes.
fn check_fill<A: Allocator>(fill: Fill, filled: &[u8], memory: &Memory<A>) -> Result<(), Found>
    ensures { let bytes = (fill_of filled.now fill).bytes in
        result ≡ fill_check (store_answer (run_end memory.now fill.addr (length bytes))) }
{
    match memory.check_run(fill.addr, fill.bytes(filled).len()) {
        Ok(()) => Ok(()),
        Err(fault) => Err(Found::Fault(fault.addr)),
    }
}
