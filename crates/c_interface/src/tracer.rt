//! The calls of a tracer: waits, and calls by pid on what it has claimed.

ghost use Rattle.std.specs.Prelude.{◌++◌, ◌≡◌, MatchResult, drop, length, take};
ghost use Rattle.trace_pages.specs.FlatMemory.{run};
ghost use Rattle.trace_record.specs.Content.{info_of, message_of};
ghost use Rattle.trace_status.specs.SyscallInfo.{info_bytes};
ghost use Rattle.trace_calls.specs.ByPid.{HasClaimed};
ghost use Rattle.trace_calls.specs.Handle.{KeepsTable, claimed_record};
ghost use Rattle.c_interface.specs.Regs.{c_regs, regs_of};
ghost use Rattle.c_interface.specs.Stop.{numbers_of};
ghost use Rattle.c_interface.specs.Tracer.{IsBytesWriteFor, IsLookFor, IsRegsWriteFor, IsRestartFor, IsShownFor};
ghost use Rattle.c_interface.specs.Waited.{IsWaitRowFor, IsWaitidFor, IsWaitpidFor};

use crate::error::Error;
use crate::record::{
    record_getregs, record_message, record_read, record_stop, record_syscall_info,
};
use crate::regs::CRegs;
use crate::restart::CRestart;
use crate::state::CState;
use crate::stop::CStop;
use crate::waited::{CWaited, CWaitpid, error_in, id_in, reported, reported_pid};
use std::alloc::Global;
use stop_board::State;
use trace_calls::Calls;
use trace_options::WaitFlags;
use trace_record::Kind;

/// The state of a row at a point of this call: `ABSENT` where there is no such row. It claims nothing. Who has claimed
/// a stop is not told: the tracer is 0.
pub fn tracer_look(calls: &mut Calls<Global>, row: u32) -> CState
    ensures table { KeepsTable calls.old calls.new }
    ensures answer { IsLookFor calls.old calls.new row result }
{
    if row >= calls.rows() {
        return CState::of(State::Absent);
    }
    CState::shown(calls.look(row))
}

/// Reports the first selected tracee, in the order of the rows, that has a stop, or a death with WEXITED (waitid(2)).
/// It never blocks, whether WNOHANG is given or not: None where there is nothing yet. Without WNOWAIT the stop is this
/// tracer's, and the death is reaped. EINVAL: numbers that name nobody, or no set of flags, and what waitid(2) refuses;
/// ECHILD: there is no child to wait for.
pub fn tracer_waitid(
    calls: &mut Calls<Global>,
    idtype: u32,
    id: i32,
    options: u32,
) -> Result<Option<CWaited>, Error>
    ensures table { KeepsTable calls.old calls.new }
    ensures answer { IsWaitidFor idtype id options calls.old calls.new result }
{
    let Some(who) = id_in(idtype, id) else {
        return Err(Error::EINVAL);
    };
    let Some(flags) = WaitFlags::from_bits(options) else {
        return Err(Error::EINVAL);
    };
    reported(calls.wait_row(who, flags))
}

/// `tracer_waitid` for the tracee of one row. EINVAL: there is no such row, no set of flags, and what waitid(2)
/// refuses; ECHILD: the row is unborn or reaped, or dead where WEXITED is not given.
pub fn tracer_wait_row(
    calls: &mut Calls<Global>,
    row: u32,
    options: u32,
) -> Result<Option<CWaited>, Error>
    ensures table { KeepsTable calls.old calls.new }
    ensures answer { IsWaitRowFor row options calls.old calls.new result }
{
    if row >= calls.rows() {
        return Err(Error::EINVAL);
    }
    let Some(flags) = WaitFlags::from_bits(options) else {
        return Err(Error::EINVAL);
    };
    reported(calls.wait_at(row, flags))
}

/// Reports the first selected tracee that has a stop or a death, and claims it (waitpid(2)); it never blocks: None
/// where there is nothing yet. EINVAL: no set of flags, and what waitpid(2) refuses; ECHILD: there is no child to wait
/// for.
pub fn tracer_waitpid(
    calls: &mut Calls<Global>,
    pid: i32,
    options: u32,
) -> Result<Option<CWaitpid>, Error>
    ensures table { KeepsTable calls.old calls.new }
    ensures answer { IsWaitpidFor pid options calls.old calls.new result }
{
    let Some(flags) = WaitFlags::from_bits(options) else {
        return Err(Error::EINVAL);
    };
    reported_pid(calls.waitpid(pid, flags))
}

/// The number of the stop that this tracer has claimed of a tracee, and the stop. ESRCH: it has claimed none.
pub fn tracer_stop(calls: &Calls<Global>, pid: i32) -> Result<(u32, CStop), Error>
    ensures { IsShownFor calls.now pid (λ c. (c.number, numbers_of c.stop)) result }
{
    let Some(stopped) = calls.claimed(pid) else {
        return Err(Error::ESRCH);
    };
    Ok(record_stop(stopped))
}

/// The event message of a claimed stop, 0 where it has none (ptrace(2), `PTRACE_GETEVENTMSG`). ESRCH: this tracer has
/// not claimed it.
pub fn tracer_message(calls: &Calls<Global>, pid: i32) -> Result<u64, Error>
    ensures { IsShownFor calls.now pid (λ c. message_of c.stop) result }
{
    let Some(stopped) = calls.claimed(pid) else {
        return Err(Error::ESRCH);
    };
    Ok(record_message(stopped))
}

/// The registers of a claimed tracee, with what this tracer has set since (ptrace(2), `PTRACE_GETREGS`). ESRCH: this
/// tracer has not claimed it.
pub fn tracer_getregs(calls: &Calls<Global>, pid: i32) -> Result<CRegs, Error>
    ensures { IsShownFor calls.now pid (λ c. c_regs c.regs) result }
{
    let Some(stopped) = calls.claimed(pid) else {
        return Err(Error::ESRCH);
    };
    Ok(record_getregs(stopped))
}

/// Sets the registers of a claimed tracee, which runs on with them (ptrace(2), `PTRACE_SETREGS`). ESRCH: this tracer
/// has not claimed it.
pub fn tracer_setregs(calls: &mut Calls<Global>, pid: i32, regs: &CRegs) -> Result<(), Error>
    ensures { IsRegsWriteFor calls.old calls.new pid (regs_of regs.now) result }
{
    calls.setregs(pid, regs.regs()).map_err(error_in)
}

/// Copies the bytes of a claimed tracee's memory from an address on into a buffer, up to the first address that is not
/// mapped, or the last one, and answers how many they are. ESRCH: this tracer has not claimed it; the buffer is then as
/// it was.
pub fn tracer_read(
    calls: &Calls<Global>,
    pid: i32,
    addr: u64,
    to: &mut [u8],
) -> Result<usize, Error>
    ensures count { IsShownFor calls.now pid (λ c. length (run c.memory addr (length to.old))) result }
    ensures bytes { MatchResult result
        (λ count. (row : _) × HasClaimed calls.now pid row
        × (to.new ≡ run (claimed_record calls.now row).memory addr (length to.old) ++ drop count to.old))
        (λ _. to.new ≡ to.old) }
{
    let Some(stopped) = calls.claimed(pid) else {
        return Err(Error::ESRCH);
    };
    Ok(record_read(stopped, addr, to))
}

/// Stores bytes in a claimed tracee's memory from an address on, or none of them. ESRCH: this tracer has not claimed
/// it; EIO: one of their addresses is not mapped, or lies after the last one.
pub fn tracer_write(
    calls: &mut Calls<Global>,
    pid: i32,
    addr: u64,
    bytes: &[u8],
) -> Result<(), Error>
    ensures { IsBytesWriteFor calls.old calls.new pid addr bytes.now result }
{
    calls.store(pid, addr, bytes).map_err(error_in)
}

/// Writes what `PTRACE_GET_SYSCALL_INFO` reports of a claimed stop (ptrace(2)), cut to the buffer, and answers its full
/// length. ESRCH: this tracer has not claimed it; the buffer is then as it was.
pub fn tracer_syscall_info(calls: &Calls<Global>, pid: i32, to: &mut [u8]) -> Result<usize, Error>
    ensures full { IsShownFor calls.now pid (λ c. length (info_bytes (info_of c.stop c.regs))) result }
    ensures written { MatchResult result
        (λ long. (row : _) × HasClaimed calls.now pid row
        × (let bytes = info_bytes (info_of (claimed_record calls.now row).stop (claimed_record calls.now row).regs) in
        to.new ≡ take (length to.old) bytes ++ drop (length bytes) to.old))
        (λ _. to.new ≡ to.old) }
{
    let Some(stopped) = calls.claimed(pid) else {
        return Err(Error::ESRCH);
    };
    Ok(record_syscall_info(stopped, to))
}

/// Lets a claimed tracee run on, and hands over a signal, none by 0 (ptrace(2), `PTRACE_CONT`, `PTRACE_SYSCALL`).
/// EINVAL: no kind of restart; ESRCH: this tracer has not claimed it; EIO: the signal is above 64.
pub fn tracer_resume(calls: &mut Calls<Global>, pid: i32, how: CRestart) -> Result<(), Error>
    ensures table { KeepsTable calls.old calls.new }
    ensures answer { IsRestartFor calls.old calls.new pid how result }
{
    let Some(kind) = how.kind() else {
        return Err(Error::EINVAL);
    };
    // A signal that does not fit into eight bits is one above the last, as 255 is.
    let signal = u8::try_from(how.signal).unwrap_or(u8::MAX);
    let done = match kind {
        Kind::Cont => calls.cont(pid, Some(signal)),
        Kind::Syscall => calls.syscall(pid, Some(signal)),
    };
    done.map_err(error_in)
}
