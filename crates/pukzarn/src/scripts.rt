//! The calls on case files and on the machines of their scripts.

ghost use Rattle.std.specs.Prelude.{◌≡◌, Ok};
ghost use Rattle.c_interface.specs.InHand.{IsNextOf};
ghost use Rattle.c_interface.specs.MachineEnd.{IsFilterSet, IsNewMachineEnd, IsOptionsSet};
ghost use Rattle.c_interface.specs.Scripts.{IsMachineNext};
ghost use Rattle.c_interface.specs.declared.error.Error.TheVariants as error;
ghost use Rattle.pukzarn.specs.Call.{HoldsNo, HoldsOn, IsCallOn, IsClose, IsHandleClosed, IsIntBeside, IsPutIn};
ghost use Rattle.pukzarn.specs.Call.{IsStatus, negative};
ghost use Rattle.pukzarn.specs.Scripts.{AreRowsInto, IsCaseFault, IsCaseOpening, IsStepInto, IsWithSame};
ghost use Rattle.pukzarn.specs.declared.handle_value.HandleValue.TheVariants as ends;

use crate::call::{count_of_rows, negative, status};
use crate::handle::Handle;
use crate::handle_value::HandleValue;
use c_interface::{
    CRestart, CRow, CStop, Error, MachineEnd, NextStep, TraceeEnd, machine_end_open,
    machine_filter, machine_next, machine_options, rows_into, text_into, tracee_next,
};
use std::alloc::Global;
use trace_script::{Case, CaseError, Cause};

/// Reads a case file. EBUSY: the handle is open; EINVAL: the file is refused: `line` is its first faulty line, from 1,
/// and `cause` gets the name of the line's first cause, cut to its room and ended by a zero; ENOMEM.
#[unsafe(no_mangle)]
pub extern "C" fn pukzarn_case_open(
    alloc: Global,
    handle: &mut Handle,
    text: &[u8],
    line: &mut u32,
    cause: &mut [u8],
) -> i32
    ensures { IsCaseOpening text.now handle.old handle.new (line.old, cause.old) (line.new, cause.new) result }
{
    if handle.is_open() {
        return negative(Error::EBUSY);
    }
    match Case::read(alloc, text) {
        Ok(case) => handle.keep(alloc, Ok(HandleValue::Case(case))),
        Err(error) => case_fault(error, line, cause),
    }
}

/// The negative number of the error of a refused file; its line and its cause are written.
fn case_fault(error: CaseError, line: &mut u32, cause: &mut [u8]) -> i32
    ensures { IsCaseFault error (line.old, cause.old) (line.new, cause.new) result }
{
    if error.cause == Cause::NoMemory {
        return negative(Error::ENOMEM);
    }
    *line = error.line;
    let _ = text_into(error.cause.name().as_bytes(), cause);
    negative(Error::EINVAL)
}

/// Closes a case file; its machines stay open. EBADF: the handle holds none, as for the next call.
#[unsafe(no_mangle)]
pub extern "C" fn pukzarn_case_close(alloc: Global, handle: &mut Handle) -> i32
    ensures { IsClose ends.Case handle.old handle.new result }
{
    let Some(end) = handle.take(alloc) else {
        return negative(Error::EBADF);
    };
    if let HandleValue::Case(_) = &*end {
        return 0;
    }
    handle.fill(end);
    negative(Error::EBADF)
}

/// Writes the rows of a case, as many as there is room for, and answers how many there are: `rows_into`.
#[unsafe(no_mangle)]
pub extern "C" fn pukzarn_case_rows(alloc: Global, handle: &mut Handle, rows: &mut [CRow]) -> i32
    ensures { IsCallOn ends.Case handle.old handle.new (IsIntBeside result rows.old rows.new)
        (λ a b done. (b ≡ a) × AreRowsInto a.rows rows.old rows.new done) }
{
    let Some(mut end) = handle.take(alloc) else {
        return negative(Error::EBADF);
    };
    let answer = match &mut *end {
        HandleValue::Case(case) => count_of_rows(rows_into(case.roster().rows(), rows)),
        _ => negative(Error::EBADF),
    };
    handle.fill(end);
    answer
}

/// Opens the machine of a row of a case, with the option TRACESYSGOOD and no filter. EBUSY: the handle is open; EBADF:
/// the other holds no case; EINVAL: there is no such row; ENOMEM.
#[unsafe(no_mangle)]
pub extern "C" fn pukzarn_machine_open(
    alloc: Global,
    handle: &mut Handle,
    script: &mut Handle,
    row: u32,
) -> i32
    ensures busy { (IsHandleClosed handle.old → ⊥) → HoldsOn handle.old handle.new × HoldsOn script.old script.new
        × (result ≡ negative error.EBUSY) }
    ensures opened { IsHandleClosed handle.old → IsCallOn ends.Case script.old script.new
        (λ made. IsPutIn ends.Machine made handle.new result) (λ a b made. (b ≡ a) × IsNewMachineEnd a row made) }
{
    if handle.is_open() {
        return negative(Error::EBUSY);
    }
    let Some(mut end) = script.take(alloc) else {
        return negative(Error::EBADF);
    };
    let made = match &mut *end {
        HandleValue::Case(case) => machine_end_open(alloc, case, row),
        _ => Err(Error::EBADF),
    };
    script.fill(end);
    handle.keep(alloc, made.map(HandleValue::Machine))
}

/// Closes a machine. EBADF: the handle holds none, as for each call below.
#[unsafe(no_mangle)]
pub extern "C" fn pukzarn_machine_close(alloc: Global, handle: &mut Handle) -> i32
    ensures { IsClose ends.Machine handle.old handle.new result }
{
    let Some(end) = handle.take(alloc) else {
        return negative(Error::EBADF);
    };
    if let HandleValue::Machine(_) = &*end {
        return 0;
    }
    handle.fill(end);
    negative(Error::EBADF)
}

/// Sets the options that the tracee stops by from its next stop on: `machine_options`.
#[unsafe(no_mangle)]
pub extern "C" fn pukzarn_machine_options(alloc: Global, handle: &mut Handle, options: u32) -> i32
    ensures { IsCallOn ends.Machine handle.old handle.new (IsStatus result)
        (λ a b. IsOptionsSet options a b) }
{
    let Some(mut end) = handle.take(alloc) else {
        return negative(Error::EBADF);
    };
    let answer = match &mut *end {
        HandleValue::Machine(machine) => status(machine_options(machine, options)),
        _ => negative(Error::EBADF),
    };
    handle.fill(end);
    answer
}

/// Sets the filter from the tracee's next stop on: `machine_filter`.
#[unsafe(no_mangle)]
pub extern "C" fn pukzarn_machine_filter(
    alloc: Global,
    handle: &mut Handle,
    calls: &[u64; 2],
    ret_data: u16,
) -> i32
    ensures { IsCallOn ends.Machine handle.old handle.new (IsStatus result)
        (λ a b done. IsFilterSet calls.now ret_data a b × (done ≡ Ok (tt {0}))) }
{
    let Some(mut end) = handle.take(alloc) else {
        return negative(Error::EBADF);
    };
    let answer = match &mut *end {
        HandleValue::Machine(machine) => {
            machine_filter(machine, calls, ret_data);
            0
        },
        _ => negative(Error::EBADF),
    };
    handle.fill(end);
    answer
}

/// Runs the script on from a restart to its next stop, which is then in the record: 0; or to its death: 1, with the raw
/// wait status in `stop` (`machine_next`). EBADF: the handles hold no machine and no record.
#[unsafe(no_mangle)]
pub extern "C" fn pukzarn_machine_next(
    alloc: Global,
    handle: &mut Handle,
    how: &CRestart,
    stopped: &mut Handle,
    stop: &mut CStop,
) -> i32
    ensures none { HoldsNo ends.Machine handle.old → HoldsOn stopped.old stopped.new }
    ensures call { IsCallOn ends.Machine handle.old handle.new (IsStepInto result stop.old stop.new)
        (λ p q done. IsCallOn ends.Stopped stopped.old stopped.new (λ told. IsWithSame p q done told)
        (λ a b. IsMachineNext p.machine q.machine how.now a b)) }
{
    let Some(mut end) = handle.take(alloc) else {
        return negative(Error::EBADF);
    };
    let answer = match &mut *end {
        HandleValue::Machine(machine) => step(next_into(alloc, machine, *how, stopped), stop),
        _ => negative(Error::EBADF),
    };
    handle.fill(end);
    answer
}

/// Runs a machine on, into the record that a handle holds.
fn next_into(
    alloc: Global,
    machine: &mut MachineEnd,
    how: CRestart,
    stopped: &mut Handle,
) -> Result<NextStep, Error>
    ensures { IsCallOn ends.Stopped stopped.old stopped.new (λ told. IsWithSame machine.old machine.new result told)
        (λ a b. IsMachineNext machine.old.machine machine.new.machine how a b) }
{
    let Some(mut end) = stopped.take(alloc) else {
        return Err(Error::EBADF);
    };
    let done = match &mut *end {
        HandleValue::Stopped(record) => machine_next(&mut machine.machine, how, record),
        _ => Err(Error::EBADF),
    };
    stopped.fill(end);
    done
}

/// 0 and the stop, or 1 and the raw wait status of the death, or the negative number of the error.
fn step(done: Result<NextStep, Error>, stop: &mut CStop) -> i32
    ensures { IsStepInto result stop.old stop.new done }
{
    match done {
        Ok(NextStep::Stop(next)) => {
            *stop = next;
            0
        }
        Ok(NextStep::Death(raw)) => {
            *stop = CStop {
                kind: CStop::ENDING,
                value: raw,
            };
            1
        }
        Err(why) => negative(why),
    }
}

/// Runs a script on from the restart that a tracee took up: its next stop is then in the record in hand: 0; or its
/// death: 1, with the raw wait status in `stop` (`tracee_next`). EBADF: the handles hold no tracee and no machine.
#[unsafe(no_mangle)]
pub extern "C" fn pukzarn_tracee_next(
    alloc: Global,
    handle: &mut Handle,
    script: &mut Handle,
    stop: &mut CStop,
) -> i32
    ensures none { HoldsNo ends.Tracee handle.old → HoldsOn script.old script.new }
    ensures call { IsCallOn ends.Tracee handle.old handle.new (IsStepInto result stop.old stop.new)
        (λ a b done. IsCallOn ends.Machine script.old script.new (λ told. IsWithSame a b done told)
        (λ p q told. IsNextOf a b p.machine q.machine told × (q.births ≡ p.births))) }
{
    let Some(mut end) = handle.take(alloc) else {
        return negative(Error::EBADF);
    };
    let answer = match &mut *end {
        HandleValue::Tracee(tracee) => step(next_of(alloc, tracee, script), stop),
        _ => negative(Error::EBADF),
    };
    handle.fill(end);
    answer
}

/// Runs the machine that a handle holds on, for a tracee.
fn next_of(alloc: Global, tracee: &mut TraceeEnd, script: &mut Handle) -> Result<NextStep, Error>
    ensures { IsCallOn ends.Machine script.old script.new (λ told. IsWithSame tracee.old tracee.new result told)
        (λ p q told. IsNextOf tracee.old tracee.new p.machine q.machine told × (q.births ≡ p.births)) }
{
    let Some(mut end) = script.take(alloc) else {
        return Err(Error::EBADF);
    };
    let done = match &mut *end {
        HandleValue::Machine(machine) => tracee_next(tracee, &mut machine.machine),
        _ => Err(Error::EBADF),
    };
    script.fill(end);
    done
}
