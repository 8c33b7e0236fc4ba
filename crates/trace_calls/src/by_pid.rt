//! The calls by pid: what ptrace(2) shows of a claimed tracee, and how it is restarted.

ghost use Rattle.std.specs.Prelude.{◌≡◌, ◌<◌, ◌^◌, ◌++◌, IfSome, IfNone, MatchOption, MatchResult, None, Some, drop, length, slice_get, take};
ghost use Rattle.trace_record.specs.Content.{info_of, message_of};
ghost use Rattle.trace_record.specs.declared.resume.Kind.TheVariants as kinds;
ghost use Rattle.trace_status.specs.SyscallInfo.{info_bytes};
ghost use Rattle.stop_table.specs.Tracer.{is_held};
ghost use Rattle.trace_calls.specs.ByPid.{HasClaimed, HasNotClaimed, IsAbsentAt, IsRestart, IsShownOf, IsWordAt};
ghost use Rattle.trace_calls.specs.ByPid.{IsWordRead, row_of_pid};
ghost use Rattle.trace_calls.specs.Handle.{KeepsTable, claimed_record};

use crate::calls::Calls;
use std::alloc::Allocator;
use trace_options::Errno;
use trace_pages::Memory;
use trace_record::{Kind, Resume, StopRecord};
use trace_regs::Regs;

impl<A: Allocator> Calls<A> {
    /// The record of the stop that this caller has claimed of a tracee, with what the caller has written into it. None if
    /// this caller does not hold a stop of the tracee.
    pub fn claimed(&self, pid: i32) -> Option<&StopRecord<A>>
        ensures none { IfNone result (HasNotClaimed self.now pid) }
        ensures some { IfSome result (λ r. (row : _) × HasClaimed self.now pid row
            × (r.now ≡ claimed_record self.now row)) }
    {
        let row = self.place(pid)?;
        self.claimed_row(row)
    }

    /// The number of the stop in the last wait of this caller that answered this tracee, with WNOWAIT too; for a death
    /// that of its last stop; 0 before any. None where no tracee has this pid.
    pub fn count(&self, pid: i32) -> Option<u32>
        ensures { MatchOption result (row_of_pid self.now.view.roster pid ≡ None)
            (λ n. (row : _) × (row_of_pid self.now.view.roster pid ≡ Some row) × (slice_get self.now.counts row ≡ Some n)) }
    {
        let row = self.place(pid)?;
        Some(self.counts[row as usize])
    }

    /// The registers of a claimed tracee, with what this caller has set since (ptrace(2), `PTRACE_GETREGS`). ESRCH: this
    /// caller has not claimed it.
    pub fn getregs(&self, pid: i32) -> Result<Regs, Errno>
        ensures { IsShownOf self.now pid (λ c. c.regs) result }
    {
        let Some(record) = self.claimed(pid) else {
            return Err(Errno::ESRCH);
        };
        Ok(record.regs)
    }

    /// The event message of a claimed tracee's stop, 0 where it has none (ptrace(2), `PTRACE_GETEVENTMSG`). ESRCH: this
    /// caller has not claimed it.
    pub fn getevent(&self, pid: i32) -> Result<u64, Errno>
        ensures { IsShownOf self.now pid (λ c. message_of c.stop) result }
    {
        let Some(record) = self.claimed(pid) else {
            return Err(Errno::ESRCH);
        };
        Ok(record.event_message())
    }

    /// Writes the information of a claimed tracee's stop, cut to the buffer, and answers its full length (ptrace(2),
    /// `PTRACE_GET_SYSCALL_INFO`). ESRCH: this caller has not claimed it; the buffer is then as it was.
    pub fn syscall_info(&self, pid: i32, buffer: &mut [u8]) -> Result<usize, Errno>
        ensures full { IsShownOf self.now pid (λ c. length (info_bytes (info_of c.stop c.regs))) result }
        ensures written { MatchResult result
            (λ long. (row : _) × HasClaimed self.now pid row
            × (let bytes = info_bytes (info_of (claimed_record self.now row).stop (claimed_record self.now row).regs) in
            buffer.new ≡ take (length buffer.old) bytes ++ drop (length bytes) buffer.old))
            (λ error. buffer.new ≡ buffer.old) }
    {
        let Some(record) = self.claimed(pid) else {
            return Err(Errno::ESRCH);
        };
        Ok(record.info().write_to(buffer))
    }

    /// The word of eight bytes at an address of a claimed tracee, the lowest byte first (ptrace(2), `PTRACE_PEEKDATA`).
    /// ESRCH: this caller has not claimed it. EIO: one of the bytes is not mapped, or lies after the last address.
    pub fn read(&self, pid: i32, addr: u64) -> Result<i64, Errno>
        ensures { IsWordRead self.now pid addr result }
    {
        let Some(record) = self.claimed(pid) else {
            return Err(Errno::ESRCH);
        };
        let Some(bits) = word_at(&record.memory, addr) else {
            return Err(Errno::EIO);
        };
        Ok(bits.cast_signed())
    }

    /// Lets a claimed tracee run to its next stop, syscall-stops among them, and hands over a signal of 1 to 64; none by
    /// None or 0 (ptrace(2), `PTRACE_SYSCALL`). ESRCH: this caller has not claimed it. EIO: a signal above 64.
    pub fn syscall(&mut self, pid: i32, signal: Option<u8>) -> Result<(), Errno>
        ensures table { KeepsTable self.old self.new }
        ensures answer { IsRestart self.old self.new pid kinds.Syscall signal result }
    {
        self.restart(pid, Kind::Syscall, signal)
    }

    /// Lets a claimed tracee run to its next stop that is not a syscall-stop, and hands over a signal of 1 to 64; none by
    /// None or 0 (ptrace(2), `PTRACE_CONT`). ESRCH: this caller has not claimed it. EIO: a signal above 64.
    pub fn cont(&mut self, pid: i32, signal: Option<u8>) -> Result<(), Errno>
        ensures table { KeepsTable self.old self.new }
        ensures answer { IsRestart self.old self.new pid kinds.Cont signal result }
    {
        self.restart(pid, Kind::Cont, signal)
    }

    fn restart(&mut self, pid: i32, kind: Kind, signal: Option<u8>) -> Result<(), Errno>
        ensures table { KeepsTable self.old self.new }
        ensures answer { IsRestart self.old self.new pid kind signal result }
    {
        let Some(row) = self.place(pid) else {
            return Err(Errno::ESRCH);
        };
        let signal = signal.unwrap_or(0);
        self.restart_row(row, Resume { kind, signal })
    }

    /// The row of a pid.
    pub(crate) fn place(&self, pid: i32) -> Option<u32>
        ensures place { result ≡ row_of_pid self.now.view.roster pid }
        ensures within { IfSome result (λ row. row < length self.now.view.roster) }
    {
        if pid < 0 {
            return None;
        }
        self.roster.row_of(pid.unsigned_abs())
    }
}

/// The bits of the word of eight bytes at an address, or None where one of the bytes is absent.
fn word_at<A: Allocator>(memory: &Memory<A>, addr: u64) -> Option<u64>
    ensures word { MatchOption result (IsAbsentAt memory.now addr) (λ bits. IsWordAt memory.now addr bits) }
    ensures small { IfSome result (λ bits. bits < 2 ^ 64) }
{
    let mut bytes = [0; 8];
    for k in 0..8 {
        let Some(at) = addr.checked_add(k as u64) else {
            return None;
        };
        let Some(byte) = memory.byte(at) else {
            return None;
        };
        bytes[k] = byte;
    }
    Some(u64::from_le_bytes(bytes))
}
