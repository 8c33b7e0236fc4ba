//! The calls on a record: the registers and the memory of a stop, beside a board or for a machine.

ghost use Rattle.std.specs.Prelude.{◌≡◌, ◌++◌, length, drop, take};
ghost use Rattle.trace_pages.specs.FlatMemory.{run};
ghost use Rattle.trace_record.specs.Content.{info_of, message_of};
ghost use Rattle.trace_status.specs.SyscallInfo.{info_bytes};
ghost use Rattle.c_interface.specs.Record.{IsMapping, IsNewRecord, IsStopSet, IsWrite, with_registers};
ghost use Rattle.c_interface.specs.Regs.{c_regs, regs_of};
ghost use Rattle.c_interface.specs.Stop.{numbers_of};

use crate::error::Error;
use crate::regs::CRegs;
use crate::stop::CStop;
use std::alloc::Global;
use stop_board::{LAST_ID, LAST_NUMBER};
use trace_pages::{MapError, PAGE_SIZE};
use trace_record::StopRecord;

/// The record of a tracee that has made no stop: number 0, registers 0, no memory. EINVAL: a thread id that is not 1 to
/// 4,194,303.
pub fn record_open(alloc: Global, tid: u32) -> Result<StopRecord<Global>, Error>
    ensures { IsNewRecord tid result }
{
    if tid == 0 || tid > LAST_ID {
        return Err(Error::EINVAL);
    }
    Ok(StopRecord::empty(alloc, tid))
}

/// Makes the record that of another stop with a number: registers and memory stay. EINVAL: numbers of no stop, or a
/// number above 16,777,215.
pub fn record_set_stop(
    stopped: &mut StopRecord<Global>,
    number: u32,
    stop: CStop,
) -> Result<(), Error>
    ensures { IsStopSet stopped.old stopped.new number stop result }
{
    if number > LAST_NUMBER {
        return Err(Error::EINVAL);
    }
    let Some(stop) = stop.stop() else {
        return Err(Error::EINVAL);
    };
    stopped.number = number;
    stopped.stop = stop;
    Ok(())
}

/// The number of the record's stop, and the stop.
pub fn record_stop(stopped: &StopRecord<Global>) -> (u32, CStop)
    ensures number { result.0 ≡ stopped.now.number }
    ensures stop { result.1 ≡ numbers_of stopped.now.stop }
{
    (stopped.number, CStop::of(stopped.stop))
}

/// The event message of the record's stop, or 0 where it has none (ptrace(2), `PTRACE_GETEVENTMSG`).
pub fn record_message(stopped: &StopRecord<Global>) -> u64
    ensures { result ≡ message_of stopped.now.stop }
{
    stopped.event_message()
}

/// The record's registers (ptrace(2), `PTRACE_GETREGS`).
pub fn record_getregs(stopped: &StopRecord<Global>) -> CRegs
    ensures { result ≡ c_regs stopped.now.regs }
{
    CRegs::of(&stopped.regs)
}

/// Puts other registers into the record (ptrace(2), `PTRACE_SETREGS`). Any value is taken.
pub fn record_setregs(stopped: &mut StopRecord<Global>, regs: &CRegs)
    ensures { stopped.new ≡ with_registers stopped.old (regs_of regs.now) }
{
    stopped.regs = regs.regs();
}

/// Maps the page of zeros at an address. EINVAL: the address is no multiple of 4096; EEXIST: the page is mapped
/// already; ENOSPC: there are 256 pages; ENOMEM.
pub fn record_map(stopped: &mut StopRecord<Global>, addr: u64) -> Result<(), Error>
    ensures { IsMapping stopped.old stopped.new addr result }
{
    if addr % PAGE_SIZE != 0 {
        return Err(Error::EINVAL);
    }
    match stopped.memory.map(addr) {
        Ok(()) => Ok(()),
        Err(MapError::Mapped) => Err(Error::EEXIST),
        Err(MapError::TooMany) => Err(Error::ENOSPC),
        Err(MapError::NoMemory) => Err(Error::ENOMEM),
    }
}

/// Copies the bytes of the record's memory from an address on into a buffer, up to the first address that is not
/// mapped, or the last one, and answers how many they are.
pub fn record_read(stopped: &StopRecord<Global>, addr: u64, to: &mut [u8]) -> usize
    ensures count { result ≡ length (run stopped.now.memory addr (length to.old)) }
    ensures bytes { to.new ≡ run stopped.now.memory addr (length to.old) ++ drop result to.old }
{
    stopped.memory.read(addr, to)
}

/// Stores bytes in the record's memory from an address on, or none of them where one of their addresses is not mapped
/// or lies after the last one: EIO.
pub fn record_write(stopped: &mut StopRecord<Global>, addr: u64, bytes: &[u8]) -> Result<(), Error>
    ensures { IsWrite stopped.old stopped.new addr bytes.now result }
{
    match stopped.memory.store(addr, bytes) {
        Ok(()) => Ok(()),
        Err(_) => Err(Error::EIO),
    }
}

/// Writes what `PTRACE_GET_SYSCALL_INFO` reports of the record's stop (ptrace(2)), cut to the buffer, and answers its
/// full length.
pub fn record_syscall_info(stopped: &StopRecord<Global>, to: &mut [u8]) -> usize
    ensures full { result ≡ length (info_bytes (info_of stopped.now.stop stopped.now.regs)) }
    ensures written { to.new ≡ take (length to.old) (info_bytes (info_of stopped.now.stop stopped.now.regs))
        ++ drop (length (info_bytes (info_of stopped.now.stop stopped.now.regs))) to.old }
{
    stopped.info().write_to(to)
}
