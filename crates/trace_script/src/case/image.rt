//! The image that the lines after `tracee` and `exec` describe, part by part. Each part is tested on the pages of the
//! image, which are there until the next one begins; the script keeps what the lines say.

ghost use Rattle.std.specs.Prelude.{◌≡◌, ◌++◌, ◌/◌, ◌%◌, ℕ, List, OnOk, true, IfOk, length};
ghost use Rattle.trace_pages.specs.FlatMemory.{FlatMemory};
ghost use Rattle.trace_pages.specs.Memory.{map_refusal};
ghost use Rattle.trace_script.specs.CaseFile.{in_force, page_loaded, part_loaded, part_of_last, part_of_script};
ghost use Rattle.trace_script.specs.CaseFile.{part_of_step};
ghost use Rattle.trace_script.specs.CaseLine as line;
ghost use Rattle.trace_script.specs.CaseLine.{bytes_written, is_byte_word, no_image};
ghost use Rattle.trace_script.specs.Kept.{image_of, script_by, script_of, step_of};
ghost use Rattle.trace_script.specs.OpenBlock.{kept_after};
ghost use Rattle.trace_script.specs.RawLine.{IsTestedPart, part_said};
ghost use Rattle.trace_script.specs.Reading.{TakesLine};

use crate::case::digits::DigitValues;
use crate::case::raw_line::RawPart;
use crate::cause::Cause;
use crate::script::memory_parts::MemoryParts;
use crate::script::{Image, Script, Step};
use std::alloc::Allocator;
use trace_options::NoMemory;
use trace_pages::{MapError, Memory, PAGE_SIZE};

/// A program of no page, whose registers are 0.
pub(crate) fn no_image<A: Allocator + Copy>(alloc: A) -> Image<MemoryParts<A>>
    ensures { image_of result ≡ no_image }
{
    Image {
        memory: MemoryParts::new(alloc),
        rip: 0,
        rsp: 0,
    }
}

/// The bytes that a byte word writes.
pub(crate) fn decode_bytes<A: Allocator + Copy>(
    alloc: A,
    digits: &DigitValues,
    word: &[u8],
) -> Result<Vec<u8, A>, NoMemory>
    requires { is_byte_word word.now ≡ true }
    ensures { IfOk result (λ bytes. bytes.items ≡ bytes_written word.now) }
{
    let mut bytes = Vec::new(alloc);
    decode_onto(digits, word, &mut bytes)?;
    Ok(bytes)
}

/// Adds the bytes that a byte word writes to others.
pub(crate) fn decode_onto<A: Allocator>(
    digits: &DigitValues,
    word: &[u8],
    bytes: &mut Vec<u8, A>,
) -> Result<(), NoMemory>
    requires { is_byte_word word.now ≡ true }
    ensures { OnOk result (bytes.new.items ≡ bytes.old.items ++ bytes_written word.now) }
{
    let count = bytes.len();
    bytes.resize(count + word.len() / 2, 0)?;
    decode_into(digits, word, &mut bytes[count..]);
    Ok(())
}

/// Writes the bytes of a byte word to room for them.
#[inline(never)]
fn decode_into(digits: &DigitValues, word: &[u8], bytes: &mut [u8])
    requires word { is_byte_word word.now ≡ true }
    requires room { length bytes.old ≡ length word.now / 2 }
    ensures { bytes.new ≡ bytes_written word.now }
{
    for i in 0..bytes.len() {
        bytes[i] = digits.byte_of(word[2 * i], word[2 * i + 1]);
    }
}

/// Loads one more part of the image that is described now: the script's own, or that of its last step, an exec. The
/// memory is that of the image in force.
pub(crate) fn load_part<A: Allocator + Copy>(
    alloc: A,
    digits: &DigitValues,
    script: &mut Script<A>,
    memory: &mut Memory<A>,
    part: RawPart,
) -> Result<(), Cause>
    requires tested { IsTestedPart part }
    requires in_force { memory.old ≡ (in_force (script_of script.old).image (script_of script.old).steps).memory }
    ensures script { (filled : List ℕ) → TakesLine result (script_by filled script.new)
        (part_of_script (script_by filled script.old) (part_said part.entry)) }
    ensures filled { script.new.filled.items ≡ script.old.filled.items }
    ensures in_force { OnOk result
        (memory.new ≡ (in_force (script_of script.new).image (script_of script.new).steps).memory) }
{
    let count = script.steps.len();
    if count == 0 {
        return load_in_image(alloc, digits, &mut script.image, memory, part);
    }
    load_in_step(alloc, digits, &mut script.steps[count - 1], memory, part)
}

/// Loads one more part of an exec's image, whose memory this is.
fn load_in_step<A: Allocator + Copy>(
    alloc: A,
    digits: &DigitValues,
    step: &mut Step<MemoryParts<A>>,
    memory: &mut Memory<A>,
    part: RawPart,
) -> Result<(), Cause>
    requires tested { IsTestedPart part }
    requires in_force { memory.old ≡ kept_after memory.old step.old }
    ensures step { (filled : List ℕ) → TakesLine result (step_of filled step.new)
        (part_of_step (step_of filled step.old) (part_said part.entry)) }
    ensures in_force { (before : FlatMemory) → memory.old ≡ kept_after before step.old →
        OnOk result (memory.new ≡ kept_after before step.new) }
{
    match step {
        Step::Exec { image, .. } => load_in_image(alloc, digits, image, memory, part),
        _ => Ok(()),
    }
}

/// Loads one more part of an image, whose memory this is.
fn load_in_image<A: Allocator + Copy>(
    alloc: A,
    digits: &DigitValues,
    image: &mut Image<MemoryParts<A>>,
    memory: &mut Memory<A>,
    part: RawPart,
) -> Result<(), Cause>
    requires tested { IsTestedPart part }
    requires in_force { memory.old ≡ image.old.memory }
    ensures image { TakesLine result (image_of image.new) (part_loaded (image_of image.old) (part_said part.entry)) }
    ensures in_force { OnOk result (memory.new ≡ image.new.memory) }
{
    match part {
        RawPart::Page(page) => map_page(image, memory, page),
        RawPart::Data(addr, bytes) => put_bytes(alloc, digits, image, memory, addr, bytes),
        RawPart::Start(rip, rsp) => {
            image.rip = rip;
            image.rsp = rsp;
            Ok(())
        }
    }
}

/// Maps a page of zeros.
#[tactic(auto, using(trace_pages::proofs::Memories::mapped_is))]
fn map_page<A: Allocator + Copy>(
    image: &mut Image<MemoryParts<A>>,
    memory: &mut Memory<A>,
    page: u64,
) -> Result<(), Cause>
    requires whole { page % PAGE_SIZE ≡ 0 }
    requires in_force { memory.old ≡ image.old.memory }
    ensures image { TakesLine result (image_of image.new) (part_loaded (image_of image.old) (line.Page page)) }
    ensures in_force { OnOk result (memory.new ≡ image.new.memory) }
{
    match memory.map(page) {
        Ok(()) => match image.memory.map(page) {
            Ok(()) => Ok(()),
            Err(_) => Err(Cause::NoMemory),
        },
        Err(MapError::Mapped) => Err(Cause::BadNumber),
        Err(MapError::TooMany) => Err(Cause::TooMany),
        Err(MapError::NoMemory) => Err(Cause::NoMemory),
    }
}

/// Stores the bytes of a byte word. They are decoded once it is known that their addresses are mapped.
fn put_bytes<A: Allocator + Copy>(
    alloc: A,
    digits: &DigitValues,
    image: &mut Image<MemoryParts<A>>,
    memory: &mut Memory<A>,
    addr: u64,
    word: &[u8],
) -> Result<(), Cause>
    requires word { is_byte_word word.now ≡ true }
    requires in_force { memory.old ≡ image.old.memory }
    ensures image { TakesLine result (image_of image.new)
        (part_loaded (image_of image.old) (line.Data addr (bytes_written word.now))) }
    ensures in_force { OnOk result (memory.new ≡ image.new.memory) }
{
    if memory.check_run(addr, word.len() / 2).is_err() {
        return Err(Cause::Unmapped);
    }
    let Ok(bytes) = decode_bytes(alloc, digits, word) else {
        return Err(Cause::NoMemory);
    };
    let Ok(()) = image.memory.store(addr, bytes.as_slice()) else {
        return Err(Cause::NoMemory);
    };
    match memory.store(addr, bytes.as_slice()) {
        Ok(()) => Ok(()),
        Err(_) => unreachable!(),
    }
}
