//! Copies of a script's steps and images: a machine changes its own. Each image gets its pages here, since a machine
//! takes no memory while it runs. A step takes memory for an image alone, since the bytes of fills are the script's.

ghost use Rattle.std.specs.Prelude.{◌≡◌, ℕ, IfOk, List};
ghost use Rattle.trace_script.specs.Kept.{image_of, step_of, steps_of};

use crate::script::memory_parts::MemoryParts;
use crate::script::{Image, Step};
use std::alloc::Allocator;
use trace_options::NoMemory;
use trace_pages::Memory;

/// A copy of steps.
pub(crate) fn copy_steps<A: Allocator + Copy>(
    alloc: A,
    steps: &[Step<MemoryParts<A>>],
) -> Result<Vec<Step<Memory<A>>, A>, NoMemory>
    ensures { (filled : List ℕ) → IfOk result (λ copies. steps_of filled copies.items ≡ steps_of filled steps.now) }
{
    let mut copies = Vec::with_capacity(alloc, steps.len())?;
    for step in steps {
        let copy = copy_step(step)?;
        copies.push(copy)?;
    }
    Ok(copies)
}

/// A copy of a program, with its pages.
pub(crate) fn copy_image<A: Allocator + Copy>(
    image: &Image<MemoryParts<A>>,
) -> Result<Image<Memory<A>>, NoMemory>
    ensures { IfOk result (λ copy. image_of copy ≡ image_of image.now) }
{
    let memory = image.memory.to_memory()?;
    Ok(Image {
        memory,
        rip: image.rip,
        rsp: image.rsp,
    })
}

fn copy_step<A: Allocator + Copy>(step: &Step<MemoryParts<A>>) -> Result<Step<Memory<A>>, NoMemory>
    ensures { (filled : List ℕ) → IfOk result (λ copy. step_of filled copy ≡ step_of filled step.now) }
{
    match step {
        Step::Call(call) => Ok(Step::Call(*call)),
        Step::Fork(child) => Ok(Step::Fork(*child)),
        Step::Thread(child) => Ok(Step::Thread(*child)),
        Step::Exec { path, image } => {
            let image = copy_image(image)?;
            Ok(Step::Exec { path: *path, image })
        }
        Step::Signal { signal, deadly } => Ok(Step::Signal {
            signal: *signal,
            deadly: *deadly,
        }),
        Step::Exit(status) => Ok(Step::Exit(*status)),
    }
}
