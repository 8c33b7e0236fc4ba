//! The calls on a tracer.

ghost use Rattle.std.specs.Prelude.{◌≡◌, ◌++◌, ℕ, MatchResult, Ok, drop, length, take};
ghost use Rattle.trace_calls.specs.ByPid.{HasClaimed};
ghost use Rattle.trace_calls.specs.Handle.{claimed_record};
ghost use Rattle.trace_pages.specs.FlatMemory.{run};
ghost use Rattle.trace_record.specs.Content.{info_of, message_of};
ghost use Rattle.trace_status.specs.SyscallInfo.{info_bytes};
ghost use Rattle.c_interface.specs.Regs.{c_regs, regs_of};
ghost use Rattle.c_interface.specs.Stop.{numbers_of};
ghost use Rattle.c_interface.specs.declared.state.CState.{CState};
ghost use Rattle.c_interface.specs.declared.stop.CStop.{CStop};
ghost use Rattle.c_interface.specs.Tracer.{IsBytesWriteFor, IsLookFor, IsRegsWriteFor, IsRestartFor, IsShownFor};
ghost use Rattle.c_interface.specs.Waited.{IsWaitRowFor, IsWaitidFor, IsWaitpidFor};
ghost use Rattle.pukzarn.specs.Call.{IsCallOn, IsClose, IsLongBeside, IsFoundInto, IsPidInto, IsStatus, IsStatusInto, OnTable};
ghost use Rattle.pukzarn.specs.declared.handle_value.HandleValue.TheVariants as ends;

use crate::call::{count, found, negative, status, told};
use crate::handle::Handle;
use crate::handle_value::HandleValue;
use c_interface::{
    CRegs, CRestart, CState, CStop, CWaited, CWaitpid, Error, tracer_getregs, tracer_look,
    tracer_message, tracer_read, tracer_resume, tracer_setregs, tracer_stop, tracer_syscall_info,
    tracer_wait_row, tracer_waitid, tracer_waitpid, tracer_write,
};
use std::alloc::Global;

/// Closes a tracer: what it has claimed is restarted by `PTRACE_CONT` without a signal. EBADF: the handle holds none,
/// as for each call below.
#[unsafe(no_mangle)]
pub extern "C" fn pukzarn_tracer_close(alloc: Global, handle: &mut Handle) -> i32
    ensures { IsClose ends.Tracer handle.old handle.new result }
{
    let Some(end) = handle.take(alloc) else {
        return negative(Error::EBADF);
    };
    if let HandleValue::Tracer(_) = &*end {
        return 0;
    }
    handle.fill(end);
    negative(Error::EBADF)
}

/// Writes the state of a row at a point of this call: `tracer_look`.
#[unsafe(no_mangle)]
pub extern "C" fn pukzarn_tracer_look(
    alloc: Global,
    handle: &mut Handle,
    row: u32,
    state: &mut CState,
) -> i32
    ensures { IsCallOn ends.Tracer handle.old handle.new (IsStatusInto result state.old state.new)
        (OnTable (λ a b done. (shown : CState) × IsLookFor a b row shown × (done ≡ Ok shown))) }
{
    let Some(mut end) = handle.take(alloc) else {
        return negative(Error::EBADF);
    };
    let answer = match &mut *end {
        HandleValue::Tracer(tracer) => {
            *state = tracer_look(&mut tracer.calls, row);
            0
        },
        _ => negative(Error::EBADF),
    };
    handle.fill(end);
    answer
}

/// waitid(2), as with WNOHANG: 1 where a tracee is reported, 0 where there is nothing yet (`tracer_waitid`).
#[unsafe(no_mangle)]
pub extern "C" fn pukzarn_tracer_waitid(
    alloc: Global,
    handle: &mut Handle,
    idtype: u32,
    id: i32,
    options: u32,
    waited: &mut CWaited,
) -> i32
    ensures { IsCallOn ends.Tracer handle.old handle.new (IsFoundInto result waited.old waited.new)
        (OnTable (IsWaitidFor idtype id options)) }
{
    let Some(mut end) = handle.take(alloc) else {
        return negative(Error::EBADF);
    };
    let answer = match &mut *end {
        HandleValue::Tracer(tracer) => found(
            tracer_waitid(&mut tracer.calls, idtype, id, options),
            waited,
        ),
        _ => negative(Error::EBADF),
    };
    handle.fill(end);
    answer
}

/// `pukzarn_tracer_waitid` for the tracee of one row: `tracer_wait_row`.
#[unsafe(no_mangle)]
pub extern "C" fn pukzarn_tracer_wait_row(
    alloc: Global,
    handle: &mut Handle,
    row: u32,
    options: u32,
    waited: &mut CWaited,
) -> i32
    ensures { IsCallOn ends.Tracer handle.old handle.new (IsFoundInto result waited.old waited.new)
        (OnTable (IsWaitRowFor row options)) }
{
    let Some(mut end) = handle.take(alloc) else {
        return negative(Error::EBADF);
    };
    let answer = match &mut *end {
        HandleValue::Tracer(tracer) => found(
            tracer_wait_row(&mut tracer.calls, row, options),
            waited,
        ),
        _ => negative(Error::EBADF),
    };
    handle.fill(end);
    answer
}

/// waitpid(2), as with WNOHANG: the tracee's pid, or 0 where there is nothing yet (`tracer_waitpid`).
#[unsafe(no_mangle)]
pub extern "C" fn pukzarn_tracer_waitpid(
    alloc: Global,
    handle: &mut Handle,
    pid: i32,
    raw: &mut u32,
    options: u32,
) -> i32
    ensures { IsCallOn ends.Tracer handle.old handle.new (IsPidInto result raw.old raw.new)
        (OnTable (IsWaitpidFor pid options)) }
{
    let Some(mut end) = handle.take(alloc) else {
        return negative(Error::EBADF);
    };
    let answer = match &mut *end {
        HandleValue::Tracer(tracer) => reported(
            tracer_waitpid(&mut tracer.calls, pid, options),
            raw,
        ),
        _ => negative(Error::EBADF),
    };
    handle.fill(end);
    answer
}

/// The pid, and its raw status is written; 0 where there is nothing yet; or the negative number of the error.
fn reported(done: Result<Option<CWaitpid>, Error>, raw: &mut u32) -> i32
    ensures { IsPidInto result raw.old raw.new done }
{
    match done {
        Ok(Some(told)) => {
            *raw = told.status;
            told.pid.cast_signed()
        }
        Ok(None) => 0,
        Err(why) => negative(why),
    }
}

/// Writes the number of the stop that this tracer has claimed of a tracee, and the stop: `tracer_stop`.
#[unsafe(no_mangle)]
pub extern "C" fn pukzarn_tracer_stop(
    alloc: Global,
    handle: &mut Handle,
    pid: i32,
    number: &mut u32,
    stop: &mut CStop,
) -> i32
    ensures { IsCallOn {T = ℕ × CStop} ends.Tracer handle.old handle.new
        (IsStatusInto result (number.old, stop.old) (number.new, stop.new))
        (λ a b done. (b ≡ a) × IsShownFor a.calls pid (λ c. (c.number, numbers_of c.stop)) done) }
{
    let Some(mut end) = handle.take(alloc) else {
        return negative(Error::EBADF);
    };
    let answer = match &mut *end {
        HandleValue::Tracer(tracer) => match tracer_stop(&tracer.calls, pid) {
            Ok(told) => {
                *number = told.0;
                *stop = told.1;
                0
            }
            Err(why) => negative(why),
        },
        _ => negative(Error::EBADF),
    };
    handle.fill(end);
    answer
}

/// Writes the event message of a claimed stop: `tracer_message`.
#[unsafe(no_mangle)]
pub extern "C" fn pukzarn_tracer_message(
    alloc: Global,
    handle: &mut Handle,
    pid: i32,
    message: &mut u64,
) -> i32
    ensures { IsCallOn ends.Tracer handle.old handle.new (IsStatusInto result message.old message.new)
        (λ a b done. (b ≡ a) × IsShownFor a.calls pid (λ c. message_of c.stop) done) }
{
    let Some(mut end) = handle.take(alloc) else {
        return negative(Error::EBADF);
    };
    let answer = match &mut *end {
        HandleValue::Tracer(tracer) => told(tracer_message(&tracer.calls, pid), message),
        _ => negative(Error::EBADF),
    };
    handle.fill(end);
    answer
}

/// Writes the registers of a claimed tracee: `tracer_getregs`.
#[unsafe(no_mangle)]
pub extern "C" fn pukzarn_tracer_getregs(
    alloc: Global,
    handle: &mut Handle,
    pid: i32,
    regs: &mut CRegs,
) -> i32
    ensures { IsCallOn ends.Tracer handle.old handle.new (IsStatusInto result regs.old regs.new)
        (λ a b done. (b ≡ a) × IsShownFor a.calls pid (λ c. c_regs c.regs) done) }
{
    let Some(mut end) = handle.take(alloc) else {
        return negative(Error::EBADF);
    };
    let answer = match &mut *end {
        HandleValue::Tracer(tracer) => told(tracer_getregs(&tracer.calls, pid), regs),
        _ => negative(Error::EBADF),
    };
    handle.fill(end);
    answer
}

/// Sets the registers of a claimed tracee: `tracer_setregs`.
#[unsafe(no_mangle)]
pub extern "C" fn pukzarn_tracer_setregs(
    alloc: Global,
    handle: &mut Handle,
    pid: i32,
    regs: &CRegs,
) -> i32
    ensures { IsCallOn ends.Tracer handle.old handle.new (IsStatus result)
        (λ a b. IsRegsWriteFor a.calls b.calls pid (regs_of regs.now)) }
{
    let Some(mut end) = handle.take(alloc) else {
        return negative(Error::EBADF);
    };
    let answer = match &mut *end {
        HandleValue::Tracer(tracer) => status(tracer_setregs(&mut tracer.calls, pid, regs)),
        _ => negative(Error::EBADF),
    };
    handle.fill(end);
    answer
}

/// Copies bytes of a claimed tracee's memory into a buffer, and answers how many: `tracer_read`.
#[unsafe(no_mangle)]
pub extern "C" fn pukzarn_tracer_read(
    alloc: Global,
    handle: &mut Handle,
    pid: i32,
    addr: u64,
    to: &mut [u8],
) -> i64
    ensures { IsCallOn ends.Tracer handle.old handle.new (IsLongBeside result to.old to.new)
        (λ a b done. (b ≡ a) × IsShownFor a.calls pid (λ c. length (run c.memory addr (length to.old))) done
        × MatchResult done
        (λ count. (row : _) × HasClaimed a.calls pid row
        × (to.new ≡ run (claimed_record a.calls row).memory addr (length to.old) ++ drop count to.old))
        (λ _. to.new ≡ to.old)) }
{
    let Some(mut end) = handle.take(alloc) else {
        return i64::from(negative(Error::EBADF));
    };
    let answer = match &mut *end {
        HandleValue::Tracer(tracer) => count(tracer_read(&tracer.calls, pid, addr, to)),
        _ => i64::from(negative(Error::EBADF)),
    };
    handle.fill(end);
    answer
}

/// Stores bytes in a claimed tracee's memory: `tracer_write`.
#[unsafe(no_mangle)]
pub extern "C" fn pukzarn_tracer_write(
    alloc: Global,
    handle: &mut Handle,
    pid: i32,
    addr: u64,
    bytes: &[u8],
) -> i32
    ensures { IsCallOn ends.Tracer handle.old handle.new (IsStatus result)
        (λ a b. IsBytesWriteFor a.calls b.calls pid addr bytes.now) }
{
    let Some(mut end) = handle.take(alloc) else {
        return negative(Error::EBADF);
    };
    let answer = match &mut *end {
        HandleValue::Tracer(tracer) => status(tracer_write(&mut tracer.calls, pid, addr, bytes)),
        _ => negative(Error::EBADF),
    };
    handle.fill(end);
    answer
}

/// Writes what `PTRACE_GET_SYSCALL_INFO` reports of a claimed stop, and answers its full length: `tracer_syscall_info`.
#[unsafe(no_mangle)]
pub extern "C" fn pukzarn_tracer_syscall_info(
    alloc: Global,
    handle: &mut Handle,
    pid: i32,
    to: &mut [u8],
) -> i64
    ensures { IsCallOn ends.Tracer handle.old handle.new (IsLongBeside result to.old to.new)
        (λ a b done. (b ≡ a) × IsShownFor a.calls pid (λ c. length (info_bytes (info_of c.stop c.regs))) done
        × MatchResult done
        (λ long. (row : _) × HasClaimed a.calls pid row
        × (let bytes = info_bytes (info_of (claimed_record a.calls row).stop (claimed_record a.calls row).regs) in
        to.new ≡ take (length to.old) bytes ++ drop (length bytes) to.old))
        (λ _. to.new ≡ to.old)) }
{
    let Some(mut end) = handle.take(alloc) else {
        return i64::from(negative(Error::EBADF));
    };
    let answer = match &mut *end {
        HandleValue::Tracer(tracer) => count(tracer_syscall_info(&tracer.calls, pid, to)),
        _ => i64::from(negative(Error::EBADF)),
    };
    handle.fill(end);
    answer
}

/// Lets a claimed tracee run on: `tracer_resume`.
#[unsafe(no_mangle)]
pub extern "C" fn pukzarn_tracer_resume(
    alloc: Global,
    handle: &mut Handle,
    pid: i32,
    how: &CRestart,
) -> i32
    ensures { IsCallOn ends.Tracer handle.old handle.new (IsStatus result)
        (OnTable (λ a b. IsRestartFor a b pid how.now)) }
{
    let Some(mut end) = handle.take(alloc) else {
        return negative(Error::EBADF);
    };
    let answer = match &mut *end {
        HandleValue::Tracer(tracer) => status(tracer_resume(&mut tracer.calls, pid, *how)),
        _ => negative(Error::EBADF),
    };
    handle.fill(end);
    answer
}
