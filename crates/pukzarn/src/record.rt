//! The calls on a record.

ghost use Rattle.std.specs.Prelude.{◌≡◌, ◌++◌, ℕ, Ok, drop, length, take};
ghost use Rattle.trace_record.specs.Content.{info_of, message_of};
ghost use Rattle.trace_status.specs.SyscallInfo.{info_bytes};
ghost use Rattle.c_interface.specs.Record.{IsMapping, IsNewRecord, IsStopSet, IsWrite, with_registers};
ghost use Rattle.c_interface.specs.Regs.{c_regs, regs_of};
ghost use Rattle.c_interface.specs.Stop.{numbers_of};
ghost use Rattle.c_interface.specs.declared.stop.CStop.{CStop};
ghost use Rattle.pukzarn.specs.Call.{IsCallOn, IsClose, IsLongBeside, IsOpenCall, IsReadFrom, IsStatus, IsStatusInto};
ghost use Rattle.pukzarn.specs.declared.handle_value.HandleValue.TheVariants as ends;

use crate::call::{count, negative, status};
use crate::handle::Handle;
use crate::handle_value::HandleValue;
use c_interface::{
    CRegs, CStop, Error, record_getregs, record_map, record_message, record_open, record_read,
    record_set_stop, record_setregs, record_stop, record_syscall_info, record_write,
};
use std::alloc::Global;

/// Opens a record of a tracee that has made no stop: number 0, registers 0, no memory. EBUSY: the handle is open;
/// EINVAL: a thread id that is not 1 to 4,194,303; ENOMEM.
#[unsafe(no_mangle)]
pub extern "C" fn pukzarn_record_open(alloc: Global, handle: &mut Handle, tid: u32) -> i32
    ensures { IsOpenCall ends.Stopped handle.old handle.new result (IsNewRecord tid) }
{
    if handle.is_open() {
        return negative(Error::EBUSY);
    }
    handle.keep(alloc, record_open(alloc, tid).map(HandleValue::Stopped))
}

/// Closes a record. EBADF: the handle holds none, as for each call below.
#[unsafe(no_mangle)]
pub extern "C" fn pukzarn_record_close(alloc: Global, handle: &mut Handle) -> i32
    ensures { IsClose ends.Stopped handle.old handle.new result }
{
    let Some(end) = handle.take(alloc) else {
        return negative(Error::EBADF);
    };
    if let HandleValue::Stopped(_) = &*end {
        return 0;
    }
    handle.fill(end);
    negative(Error::EBADF)
}

/// Makes the record that of another stop with a number: `record_set_stop`.
#[unsafe(no_mangle)]
pub extern "C" fn pukzarn_record_set_stop(
    alloc: Global,
    handle: &mut Handle,
    number: u32,
    stop: &CStop,
) -> i32
    ensures { IsCallOn ends.Stopped handle.old handle.new (IsStatus result)
        (λ a b. IsStopSet a b number stop.now) }
{
    let Some(mut end) = handle.take(alloc) else {
        return negative(Error::EBADF);
    };
    let answer = match &mut *end {
        HandleValue::Stopped(stopped) => status(record_set_stop(stopped, number, *stop)),
        _ => negative(Error::EBADF),
    };
    handle.fill(end);
    answer
}

/// Writes the number of the record's stop, and the stop: `record_stop`.
#[unsafe(no_mangle)]
pub extern "C" fn pukzarn_record_stop(
    alloc: Global,
    handle: &mut Handle,
    number: &mut u32,
    stop: &mut CStop,
) -> i32
    ensures { IsCallOn {T = ℕ × CStop} ends.Stopped handle.old handle.new
        (IsStatusInto result (number.old, stop.old) (number.new, stop.new))
        (λ a b done. (b ≡ a) × (done ≡ Ok (a.number, numbers_of a.stop))) }
{
    let Some(mut end) = handle.take(alloc) else {
        return negative(Error::EBADF);
    };
    let answer = match &mut *end {
        HandleValue::Stopped(stopped) => {
            let told = record_stop(stopped);
            *number = told.0;
            *stop = told.1;
            0
        },
        _ => negative(Error::EBADF),
    };
    handle.fill(end);
    answer
}

/// Writes the event message of the record's stop, or 0 where it has none (ptrace(2), `PTRACE_GETEVENTMSG`).
#[unsafe(no_mangle)]
pub extern "C" fn pukzarn_record_message(
    alloc: Global,
    handle: &mut Handle,
    message: &mut u64,
) -> i32
    ensures { IsCallOn ends.Stopped handle.old handle.new (IsStatusInto result message.old message.new)
        (λ a b done. (b ≡ a) × (done ≡ Ok (message_of a.stop))) }
{
    let Some(mut end) = handle.take(alloc) else {
        return negative(Error::EBADF);
    };
    let answer = match &mut *end {
        HandleValue::Stopped(stopped) => {
            *message = record_message(stopped);
            0
        },
        _ => negative(Error::EBADF),
    };
    handle.fill(end);
    answer
}

/// Writes the record's registers (ptrace(2), `PTRACE_GETREGS`).
#[unsafe(no_mangle)]
pub extern "C" fn pukzarn_record_getregs(
    alloc: Global,
    handle: &mut Handle,
    regs: &mut CRegs,
) -> i32
    ensures { IsCallOn ends.Stopped handle.old handle.new (IsStatusInto result regs.old regs.new)
        (λ a b done. (b ≡ a) × (done ≡ Ok (c_regs a.regs))) }
{
    let Some(mut end) = handle.take(alloc) else {
        return negative(Error::EBADF);
    };
    let answer = match &mut *end {
        HandleValue::Stopped(stopped) => {
            *regs = record_getregs(stopped);
            0
        },
        _ => negative(Error::EBADF),
    };
    handle.fill(end);
    answer
}

/// Puts other registers into the record (ptrace(2), `PTRACE_SETREGS`).
#[unsafe(no_mangle)]
pub extern "C" fn pukzarn_record_setregs(alloc: Global, handle: &mut Handle, regs: &CRegs) -> i32
    ensures { IsCallOn ends.Stopped handle.old handle.new (IsStatus result)
        (λ a b done. (b ≡ with_registers a (regs_of regs.now)) × (done ≡ Ok (tt {0}))) }
{
    let Some(mut end) = handle.take(alloc) else {
        return negative(Error::EBADF);
    };
    let answer = match &mut *end {
        HandleValue::Stopped(stopped) => {
            record_setregs(stopped, regs);
            0
        },
        _ => negative(Error::EBADF),
    };
    handle.fill(end);
    answer
}

/// Maps the page of zeros at an address: `record_map`.
#[unsafe(no_mangle)]
pub extern "C" fn pukzarn_record_map(alloc: Global, handle: &mut Handle, addr: u64) -> i32
    ensures { IsCallOn ends.Stopped handle.old handle.new (IsStatus result)
        (λ a b. IsMapping a b addr) }
{
    let Some(mut end) = handle.take(alloc) else {
        return negative(Error::EBADF);
    };
    let answer = match &mut *end {
        HandleValue::Stopped(stopped) => status(record_map(stopped, addr)),
        _ => negative(Error::EBADF),
    };
    handle.fill(end);
    answer
}

/// Stores bytes in the record's memory: `record_write`.
#[unsafe(no_mangle)]
pub extern "C" fn pukzarn_record_write(
    alloc: Global,
    handle: &mut Handle,
    addr: u64,
    bytes: &[u8],
) -> i32
    ensures { IsCallOn ends.Stopped handle.old handle.new (IsStatus result)
        (λ a b. IsWrite a b addr bytes.now) }
{
    let Some(mut end) = handle.take(alloc) else {
        return negative(Error::EBADF);
    };
    let answer = match &mut *end {
        HandleValue::Stopped(stopped) => status(record_write(stopped, addr, bytes)),
        _ => negative(Error::EBADF),
    };
    handle.fill(end);
    answer
}

/// Copies bytes of the record's memory into a buffer, and answers how many: `record_read`.
#[unsafe(no_mangle)]
pub extern "C" fn pukzarn_record_read(
    alloc: Global,
    handle: &mut Handle,
    addr: u64,
    to: &mut [u8],
) -> i64
    ensures { IsCallOn ends.Stopped handle.old handle.new (IsLongBeside result to.old to.new)
        (λ a b done. (b ≡ a) × IsReadFrom a addr to.old to.new done) }
{
    let Some(mut end) = handle.take(alloc) else {
        return i64::from(negative(Error::EBADF));
    };
    let answer = match &mut *end {
        HandleValue::Stopped(stopped) => count(Ok(record_read(stopped, addr, to))),
        _ => i64::from(negative(Error::EBADF)),
    };
    handle.fill(end);
    answer
}

/// Writes what `PTRACE_GET_SYSCALL_INFO` reports of the record's stop, and answers its full length:
/// `record_syscall_info`.
#[unsafe(no_mangle)]
pub extern "C" fn pukzarn_record_syscall_info(
    alloc: Global,
    handle: &mut Handle,
    to: &mut [u8],
) -> i64
    ensures { IsCallOn ends.Stopped handle.old handle.new (IsLongBeside result to.old to.new)
        (λ a b done. (b ≡ a) × (done ≡ Ok (length (info_bytes (info_of a.stop a.regs))))
        × (to.new ≡ take (length to.old) (info_bytes (info_of a.stop a.regs))
        ++ drop (length (info_bytes (info_of a.stop a.regs))) to.old)) }
{
    let Some(mut end) = handle.take(alloc) else {
        return i64::from(negative(Error::EBADF));
    };
    let answer = match &mut *end {
        HandleValue::Stopped(stopped) => count(Ok(record_syscall_info(stopped, to))),
        _ => i64::from(negative(Error::EBADF)),
    };
    handle.fill(end);
    answer
}
