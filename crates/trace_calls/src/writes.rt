//! The calls by pid that write to a claimed tracee (ptrace(2)).

ghost use Rattle.std.specs.Prelude.{◌≡◌};
ghost use Rattle.trace_calls.specs.ByPid.{IsBytesWrite, IsRegsWrite, IsWordWrite};

use crate::calls::Calls;
use std::alloc::Allocator;
use trace_options::Errno;
use trace_regs::Regs;

impl<A: Allocator> Calls<A> {
    /// Sets the registers of a claimed tracee, which runs on with them (ptrace(2), `PTRACE_SETREGS`). Any value is taken.
    /// ESRCH: this caller has not claimed it.
    pub fn setregs(&mut self, pid: i32, regs: Regs) -> Result<(), Errno>
        ensures { IsRegsWrite self.old self.new pid regs result }
    {
        let Some(row) = self.place(pid) else {
            return Err(Errno::ESRCH);
        };
        let Some(claim) = &mut self.held[row as usize] else {
            return Err(Errno::ESRCH);
        };
        claim.set_regs(regs);
        Ok(())
    }

    /// Writes the word of eight bytes at an address of a claimed tracee, the lowest byte first (ptrace(2),
    /// `PTRACE_POKEDATA`). ESRCH: this caller has not claimed it. EIO: one of the bytes is not mapped, or lies after the
    /// last address; nothing is written then.
    pub fn write(&mut self, pid: i32, addr: u64, value: i64) -> Result<(), Errno>
        ensures { IsWordWrite self.old self.new pid addr value result }
    {
        let bytes = value.cast_unsigned().to_le_bytes();
        self.store(pid, addr, bytes.as_slice())
    }

    /// Writes bytes, any number of them, to a claimed tracee from an address on: all of them, or none, in place of the
    /// partial writes of process_vm_writev(2). ESRCH: this caller has not claimed it. EIO: one of the bytes has an address
    /// that is not mapped, or would lie after the last address; nothing is written then.
    pub fn store(&mut self, pid: i32, addr: u64, bytes: &[u8]) -> Result<(), Errno>
        ensures { IsBytesWrite self.old self.new pid addr bytes.now result }
    {
        let Some(row) = self.place(pid) else {
            return Err(Errno::ESRCH);
        };
        let Some(held) = &mut self.held[row as usize] else {
            return Err(Errno::ESRCH);
        };
        let Err(_) = held.store(addr, bytes) else {
            return Ok(());
        };
        Err(Errno::EIO)
    }
}
