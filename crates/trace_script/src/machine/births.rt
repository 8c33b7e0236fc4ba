//! The children that a script creates from a place in it on.

ghost use Rattle.std.specs.Prelude.{◌≡◌, ◌≤◌, ℕ, List, drop, length};
ghost use Rattle.trace_pages.specs.FlatMemory.{FlatMemory};
ghost use Rattle.trace_script.specs.Births.{born_by, children_left, children_of};
ghost use Rattle.trace_script.specs.Kept.{step_of, steps_of};
ghost use Rattle.trace_script.specs.Left.{left_by, left_in};
ghost use Rattle.trace_script.specs.declared.script.Image.{Image as KeptImage};
ghost use Rattle.trace_script.specs.declared.setting.Setting.{Setting};

use crate::machine::progress::Progress;
use crate::script::Step;
use std::alloc::Allocator;
use trace_pages::Memory;

/// The place of a birth among the acts of its step: after the call's registers, the syscall-enter-stop and the seccomp
/// stop.
const BIRTH_PLACE: u32 = 3;

/// How many children steps create from where a machine is on.
pub(crate) fn births_by<A: Allocator>(progress: Progress, steps: &[Step<Memory<A>>]) -> usize
    ensures { (s : Setting) (image : KeptImage FlatMemory) (filled : List ℕ) →
        result ≡ length (children_left (left_by s progress image filled steps.now)) }
{
    match progress {
        Progress::New => births_from(steps, 0),
        Progress::Going { index, place } => births_at(steps, index, place),
        Progress::Ended(_) => 0,
    }
}

/// How many children steps create from a place in one of them on.
fn births_at<A: Allocator>(steps: &[Step<Memory<A>>], index: usize, place: u32) -> usize
    ensures { (s : Setting) (filled : List ℕ) →
        result ≡ length (children_left (left_in s filled (drop index steps.now) place)) }
{
    if index >= steps.len() {
        return 0;
    }
    if place <= BIRTH_PLACE {
        return births_from(steps, index);
    }
    births_from(steps, index + 1)
}

/// How many children steps create from one of them on.
fn births_from<A: Allocator>(steps: &[Step<Memory<A>>], from: usize) -> usize
    ensures { (filled : List ℕ) → result ≡ length (born_by (steps_of filled (drop from steps.now))) }
{
    let mut births = 0;
    let mut at = from;
    while at < steps.len() {
        births += births_of(&steps[at]);
        at += 1;
    }
    births
}

/// How many children a step creates.
fn births_of<A: Allocator>(step: &Step<Memory<A>>) -> usize
    ensures births { (filled : List ℕ) → result ≡ length (children_of (step_of filled step.now)) }
    ensures few { result ≤ 1 }
{
    match step {
        Step::Fork(_) => 1,
        Step::Thread(_) => 1,
        Step::Call(_) => 0,
        Step::Exec { .. } => 0,
        Step::Signal { .. } => 0,
        Step::Exit(_) => 0,
    }
}
