//! The calls on the record that a tracee's end has in hand: the registers and the memory with which its row runs.

ghost use Rattle.std.specs.Prelude.{◌++◌, MatchResult, Ok, drop, length, ◌≡◌};
ghost use Rattle.trace_pages.specs.FlatMemory.{run};
ghost use Rattle.c_interface.specs.InHand.{IsHeldOf, IsMappingOf, IsNextOf, IsRegsSet, IsShownInHand, IsWriteOf};
ghost use Rattle.c_interface.specs.InHand.{taken_over};
ghost use Rattle.c_interface.specs.Scripts.{IsNextBy};
ghost use Rattle.c_interface.specs.Regs.{c_regs, regs_of};

use crate::error::Error;
use crate::hand::{Hand, InHand};
use crate::record::{record_getregs, record_map, record_read, record_setregs, record_write};
use crate::regs::CRegs;
use crate::scripts::{NextStep, next_step};
use crate::tracee_end::TraceeEnd;
use std::alloc::Global;
use trace_record::{Resume, StopRecord};
use trace_script::Machine;

/// The registers of a row that is taken up (ptrace(2), `PTRACE_GETREGS`). ESRCH: it is not.
pub fn tracee_getregs(end: &TraceeEnd) -> Result<CRegs, Error>
    ensures { IsShownInHand end.now (λ c. c_regs c.regs) result }
{
    let Hand::Taken(held) = &end.hand else {
        return Err(Error::ESRCH);
    };
    Ok(record_getregs(&held.stopped))
}

/// Sets the registers of a row that is taken up (ptrace(2), `PTRACE_SETREGS`). ESRCH: it is not.
pub fn tracee_setregs(end: &mut TraceeEnd, regs: &CRegs) -> Result<(), Error>
    ensures { IsHeldOf (IsRegsSet (regs_of regs.now)) end.old end.new result }
{
    let Some(mut held) = end.hand.take() else {
        return Err(Error::ESRCH);
    };
    record_setregs(&mut held.stopped, regs);
    end.hand = Hand::Taken(held);
    Ok(())
}

/// Maps the page of zeros at an address for a row that is taken up. ESRCH: it is not; else as `record_map`.
pub fn tracee_map(end: &mut TraceeEnd, addr: u64) -> Result<(), Error>
    ensures { IsHeldOf (IsMappingOf addr) end.old end.new result }
{
    let Some(mut held) = end.hand.take() else {
        return Err(Error::ESRCH);
    };
    let done = record_map(&mut held.stopped, addr);
    end.hand = Hand::Taken(held);
    done
}

/// `record_read` of a row that is taken up. ESRCH: it is not; the buffer is then as it was.
pub fn tracee_read(end: &TraceeEnd, addr: u64, to: &mut [u8]) -> Result<usize, Error>
    ensures count { IsShownInHand end.now (λ c. length (run c.memory addr (length to.old))) result }
    ensures bytes { MatchResult result
        (λ count. IsShownInHand end.now (λ c. run c.memory addr (length to.old) ++ drop count to.old) (Ok to.new))
        (λ _. to.new ≡ to.old) }
{
    let Hand::Taken(held) = &end.hand else {
        return Err(Error::ESRCH);
    };
    Ok(record_read(&held.stopped, addr, to))
}

/// `record_write` of a row that is taken up. ESRCH: it is not; EIO: a byte is not mapped, and nothing is written.
pub fn tracee_write(end: &mut TraceeEnd, addr: u64, bytes: &[u8]) -> Result<(), Error>
    ensures { IsHeldOf (IsWriteOf addr bytes.now) end.old end.new result }
{
    let Some(mut held) = end.hand.take() else {
        return Err(Error::ESRCH);
    };
    let done = record_write(&mut held.stopped, addr, bytes);
    end.hand = Hand::Taken(held);
    done
}

/// Runs a script on, from the restart by which the row was taken up, to its next stop or its death: registers and
/// memory of the stop are then those in hand. ESRCH: the row is not taken up; EFAULT: the script stores to what is not
/// mapped, and nothing has changed. It takes no memory.
pub fn tracee_next(end: &mut TraceeEnd, machine: &mut Machine) -> Result<NextStep, Error>
    ensures { IsNextOf end.old end.new machine.old machine.new result }
{
    let Some(held) = end.hand.take() else {
        return Err(Error::ESRCH);
    };
    let InHand { how, mut stopped } = held;
    let step = own_step(machine, how, &mut stopped);
    end.hand = Hand::Taken(InHand { how, stopped });
    step
}

/// `next_step` for a row, whose thread id and number stay in the record, whatever the script counts.
fn own_step(
    machine: &mut Machine,
    how: Resume,
    stopped: &mut StopRecord<Global>,
) -> Result<NextStep, Error>
    ensures { IsNextBy (taken_over stopped.old) machine.old machine.new how stopped.old stopped.new result }
{
    let (tid, number) = (stopped.tid, stopped.number);
    let step = next_step(machine, how, stopped);
    stopped.tid = tid;
    stopped.number = number;
    step
}
