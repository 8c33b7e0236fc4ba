//! The block that is open while a case file is read: its script so far, and what the next step is tested against.

ghost use Rattle.std.specs.Prelude.{◌≡◌, ◌<◌, ◌≤◌, ◌++◌, ◌∷◌, [], ℕ, IfOk, List, None, OnOk, length};
ghost use Rattle.std.specs.Prelude.{option_to_list};
ghost use Rattle.trace_script.specs.CaseFile.{children_of, fill_fault, late_of, next_step_fault, no_script};
ghost use Rattle.trace_script.specs.CaseFile.{place_after, step_fault};
ghost use Rattle.trace_script.specs.Fills.{memory_after};
ghost use Rattle.trace_script.specs.Kept.{fill_in, image_of, script_of, step_of};
ghost use Rattle.trace_script.specs.OpenBlock.{IsCounted, IsSmallStep, fill_bytes, filled_by};
ghost use Rattle.trace_script.specs.RawLine.{IsTestedCall, IsTestedFill, IsTestedStep, call_said, fill_said, step_said};

use crate::case::digits::DigitValues;
use crate::case::image::{decode_onto, no_image};
use crate::case::keyword::Place;
use crate::case::late::{Late, LateStep};
use crate::case::raw_line::{RawCall, RawFill, RawStep};
use crate::case::signals::can_arrive;
use crate::cause::Cause;
use crate::limits::MOST_STEPS;
use crate::script::counts::kept_count;
use crate::script::memory_parts::MemoryParts;
use crate::script::{Call, Fill, Script, Step};
use std::alloc::Allocator;
use trace_options::NoMemory;
use trace_pages::Memory;

/// A script so far.
#[derive(Drop)]
pub(crate) struct Block<A: Allocator> {
    pub(crate) script: Script<A>,
    /// The memory of the image in force, that of the last exec, or else the first: lines are tested on its pages.
    pub(crate) memory: Memory<A>,
    /// How many of the steps create a child.
    pub(crate) births: u32,
}

/// A block without a step, and with an empty image.
pub(crate) fn new_block<A: Allocator + Copy>(alloc: A) -> Block<A>
    ensures script { script_of result.script ≡ no_script }
    ensures counted { IsCounted result }
{
    Block {
        script: Script {
            image: no_image(alloc),
            steps: Vec::new(alloc),
            filled: Vec::new(alloc),
        },
        memory: Memory::new(alloc),
        births: 0,
    }
}

/// Why a step cannot be the next one of a block.
pub(crate) fn next_step_fault<A: Allocator>(block: &Block<A>, step: RawStep) -> Option<Cause>
    requires counted { IsCounted block.now }
    requires tested { IsTestedStep step }
    ensures fault { result ≡ next_step_fault (script_of block.now.script) (step_said step.entry) }
    ensures small { result ≡ None → IsSmallStep step.entry }
{
    if block.script.steps.len() >= MOST_STEPS {
        return Some(Cause::TooMany);
    }
    step_fault(&block.memory, step)
}

/// Why a step cannot follow where this memory is in force.
fn step_fault<A: Allocator>(memory: &Memory<A>, step: RawStep) -> Option<Cause>
    requires { IsTestedStep step }
    ensures fault { result ≡ step_fault memory.now (step_said step.entry) }
    ensures small { result ≡ None → IsSmallStep step.entry }
{
    match step {
        RawStep::Call(call) => fill_fault(memory, call.fill),
        RawStep::Signal(signal, _) => {
            if can_arrive(signal) {
                None
            } else {
                Some(Cause::Signal)
            }
        }
        _ => None,
    }
}

fn fill_fault<A: Allocator>(memory: &Memory<A>, fill: Option<RawFill>) -> Option<Cause>
    requires { IsTestedFill fill }
    ensures { result ≡ fill_fault memory.now (fill_said fill.entry) }
{
    match fill {
        None => None,
        Some(fill) => match memory.check_run(fill.addr, fill.bytes.len() / 2) {
            Ok(()) => None,
            Err(_) => Some(Cause::Unmapped),
        },
    }
}

/// Adds a step that has no fault to a block.
pub(crate) fn add_step<A: Allocator + Copy>(
    alloc: A,
    digits: &DigitValues,
    block: &mut Block<A>,
    step: RawStep,
) -> Result<(), NoMemory>
    requires counted { IsCounted block.old }
    requires tested { IsTestedStep step }
    requires small { IsSmallStep step }
    requires room { length block.old.script.steps.items < MOST_STEPS }
    ensures steps { OnOk result (script_of block.new.script
        ≡ record {
          image = image_of block.old.script.image;
          steps = (script_of block.old.script).steps ++ step_said step.entry ∷ [];
        }) }
    ensures counted { OnOk result (IsCounted block.new) }
{
    let kept = keep_step(alloc, digits, &mut block.script.filled, step)?;
    block.script.steps.push(kept)?;
    put_in_force(alloc, &mut block.memory, step);
    block.births += births_of(step);
    Ok(())
}

/// Puts the image of a step in force, if it is an exec: its lines follow.
fn put_in_force<A: Allocator + Copy>(alloc: A, memory: &mut Memory<A>, step: RawStep)
    ensures { memory.new ≡ memory_after memory.old (step_said step.entry) }
{
    match step {
        RawStep::Exec(_) => *memory = Memory::new(alloc),
        _ => {}
    }
}

/// How many children a step creates.
fn births_of(step: RawStep) -> u32
    ensures births { result ≡ length (children_of (step_said step.entry)) }
    ensures few { result ≤ 1 }
{
    match step {
        RawStep::Fork(_) => 1,
        RawStep::Thread(_) => 1,
        _ => 0,
    }
}

/// Where the line after a step is.
pub(crate) fn place_after(step: RawStep) -> Place
    ensures { result ≡ place_after (step_said step.entry) }
{
    match step {
        RawStep::Exec(_) => Place::Loading,
        _ => Place::Stepping,
    }
}

/// What the late tests look at in a step.
pub(crate) fn late_of(line: u32, row: u32, births: u32, step: RawStep) -> Option<Late>
    ensures { option_to_list result ≡ late_of line row births (step_said step.entry) }
{
    let step = match step {
        RawStep::Fork(child) => LateStep::Fork(child),
        RawStep::Thread(child) => LateStep::Thread(child),
        RawStep::Exec(_) => LateStep::Exec,
        _ => return None,
    };
    Some(Late {
        line,
        row,
        births,
        step,
    })
}

/// The step as it is kept; the bytes that it writes are added to those of the steps before it.
fn keep_step<A: Allocator + Copy>(
    alloc: A,
    digits: &DigitValues,
    filled: &mut Vec<u8, A>,
    step: RawStep,
) -> Result<Step<MemoryParts<A>>, NoMemory>
    requires tested { IsTestedStep step }
    requires small { IsSmallStep step }
    ensures filled { OnOk result (filled.new.items ≡ filled.old.items ++ filled_by (step_said step.entry)) }
    ensures step { (more : List ℕ) →
        IfOk result (λ kept. step_of (filled.new.items ++ more) kept ≡ step_said step.entry) }
{
    match step {
        RawStep::Call(call) => keep_call(digits, filled, call),
        RawStep::Fork(child) => Ok(Step::Fork(child)),
        RawStep::Thread(child) => Ok(Step::Thread(child)),
        RawStep::Exec(path) => Ok(Step::Exec {
            path,
            image: no_image(alloc),
        }),
        RawStep::Signal(signal, deadly) => Ok(Step::Signal {
            signal: signal as u8,
            deadly,
        }),
        RawStep::Exit(status) => Ok(Step::Exit(status)),
    }
}

fn keep_call<A: Allocator>(
    digits: &DigitValues,
    filled: &mut Vec<u8, A>,
    call: RawCall,
) -> Result<Step<MemoryParts<A>>, NoMemory>
    requires { IsTestedCall call }
    ensures filled { OnOk result (filled.new.items ≡ filled.old.items ++ filled_by (call_said call.entry)) }
    ensures step { (more : List ℕ) →
        IfOk result (λ kept. step_of (filled.new.items ++ more) kept ≡ call_said call.entry) }
{
    let fill = keep_fill(digits, filled, call.fill)?;
    Ok(Step::Call(Call {
        nr: call.nr,
        args: call.args,
        answer: call.answer,
        fill,
    }))
}

fn keep_fill<A: Allocator>(
    digits: &DigitValues,
    filled: &mut Vec<u8, A>,
    fill: Option<RawFill>,
) -> Result<Option<Fill>, NoMemory>
    requires { IsTestedFill fill }
    ensures filled { OnOk result (filled.new.items ≡ filled.old.items ++ fill_bytes (fill_said fill.entry)) }
    ensures fill { (more : List ℕ) →
        IfOk result (λ kept. fill_in (filled.new.items ++ more) kept ≡ fill_said fill.entry) }
{
    let Some(fill) = fill else {
        return Ok(None);
    };
    let start = kept_count(filled.len())?;
    let len = kept_count(fill.bytes.len() / 2)?;
    decode_onto(digits, fill.bytes, filled)?;
    Ok(Some(Fill {
        addr: fill.addr,
        start,
        len,
    }))
}
