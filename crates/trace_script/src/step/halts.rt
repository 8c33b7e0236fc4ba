//! Whether a tracee stops at a place.

ghost use Rattle.std.specs.Prelude.{◌≡◌, ℕ, List};
ghost use Rattle.trace_script.specs.Kept.{step_of};
ghost use Rattle.trace_script.specs.KeptActs.{when_in};
ghost use Rattle.trace_script.specs.StepStops.{halts, is_filtered, is_traced, nr_of};

use crate::script::Step;
use crate::setting::{Setting, has_option};
use crate::step::act::When;
use crate::step::step_acts::nr_of;
use crate::step::walk::Walk;
use std::alloc::Allocator;
use trace_options::Options;
use trace_pages::Memory;
use trace_record::Kind;

/// Whether the tracee of a walk stops at a place of a step.
pub(crate) fn halts<A: Allocator>(walk: &Walk<'_>, when: When, step: &Step<Memory<A>>) -> bool
    ensures { (filled : List ℕ) →
        result ≡ halts walk.now.setting.now walk.now.how (when_in (step_of filled step.now) when) }
{
    match when {
        When::Always => true,
        When::Traced => is_traced(walk.how.kind),
        When::Filtered => is_filtered(step, walk.setting),
        When::ByOption(option) => has_option(walk.setting, option),
    }
}

/// Whether the tracee stops at syscall-stops.
fn is_traced(kind: Kind) -> bool
    ensures { result ≡ is_traced kind }
{
    match kind {
        Kind::Syscall => true,
        Kind::Cont => false,
    }
}

/// Whether the filter stops a step's call.
fn is_filtered<A: Allocator>(step: &Step<Memory<A>>, setting: &Setting) -> bool
    ensures { (filled : List ℕ) → result ≡ is_filtered setting.now (nr_of (step_of filled step.now)) }
{
    has_option(setting, Options::TRACESECCOMP) && setting.filter.calls.contains(nr_of(step))
}
