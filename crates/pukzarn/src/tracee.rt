//! The calls on a tracee.

ghost use Rattle.std.specs.Prelude.{◌≡◌, ◌++◌, MatchResult, Ok, drop, length};
ghost use Rattle.trace_pages.specs.FlatMemory.{run};
ghost use Rattle.c_interface.specs.InHand.{IsHeldOf, IsMappingOf, IsRegsSet, IsShownInHand, IsWriteOf};
ghost use Rattle.c_interface.specs.Regs.{c_regs, regs_of};
ghost use Rattle.c_interface.specs.TraceeEnd.{IsTraceeExit, IsTraceePublish, IsTraceeTakeUp};
ghost use Rattle.pukzarn.specs.Call.{IsCallOn, IsClose, IsLongBeside, IsStatus, IsStatusInto};
ghost use Rattle.pukzarn.specs.declared.handle_value.HandleValue.TheVariants as ends;

use crate::call::{count, negative, status, told};
use crate::handle::Handle;
use crate::handle_value::HandleValue;
use c_interface::{
    CRegs, CRestart, CStop, Error, tracee_exit, tracee_getregs, tracee_map, tracee_publish,
    tracee_read, tracee_setregs, tracee_take_up, tracee_write,
};
use std::alloc::Global;

/// Closes a tracee: a row that is taken up never stops again, and one that runs never ends. EBADF: the handle holds
/// none, as for each call below.
#[unsafe(no_mangle)]
pub extern "C" fn pukzarn_tracee_close(alloc: Global, handle: &mut Handle) -> i32
    ensures { IsClose ends.Tracee handle.old handle.new result }
{
    let Some(end) = handle.take(alloc) else {
        return negative(Error::EBADF);
    };
    if let HandleValue::Tracee(_) = &*end {
        return 0;
    }
    handle.fill(end);
    negative(Error::EBADF)
}

/// Takes the row up: `tracee_take_up`.
#[unsafe(no_mangle)]
pub extern "C" fn pukzarn_tracee_take_up(
    alloc: Global,
    handle: &mut Handle,
    how: &mut CRestart,
) -> i32
    ensures { IsCallOn ends.Tracee handle.old handle.new (IsStatusInto result how.old how.new)
        (λ a b. IsTraceeTakeUp a b) }
{
    let Some(mut end) = handle.take(alloc) else {
        return negative(Error::EBADF);
    };
    let answer = match &mut *end {
        HandleValue::Tracee(tracee) => told(tracee_take_up(tracee), how),
        _ => negative(Error::EBADF),
    };
    handle.fill(end);
    answer
}

/// Writes the registers of a row that is taken up: `tracee_getregs`.
#[unsafe(no_mangle)]
pub extern "C" fn pukzarn_tracee_getregs(
    alloc: Global,
    handle: &mut Handle,
    regs: &mut CRegs,
) -> i32
    ensures { IsCallOn ends.Tracee handle.old handle.new (IsStatusInto result regs.old regs.new)
        (λ a b done. (b ≡ a) × IsShownInHand a (λ c. c_regs c.regs) done) }
{
    let Some(mut end) = handle.take(alloc) else {
        return negative(Error::EBADF);
    };
    let answer = match &mut *end {
        HandleValue::Tracee(tracee) => told(tracee_getregs(tracee), regs),
        _ => negative(Error::EBADF),
    };
    handle.fill(end);
    answer
}

/// Sets the registers of a row that is taken up: `tracee_setregs`.
#[unsafe(no_mangle)]
pub extern "C" fn pukzarn_tracee_setregs(alloc: Global, handle: &mut Handle, regs: &CRegs) -> i32
    ensures { IsCallOn ends.Tracee handle.old handle.new (IsStatus result)
        (λ a b. IsHeldOf (IsRegsSet (regs_of regs.now)) a b) }
{
    let Some(mut end) = handle.take(alloc) else {
        return negative(Error::EBADF);
    };
    let answer = match &mut *end {
        HandleValue::Tracee(tracee) => status(tracee_setregs(tracee, regs)),
        _ => negative(Error::EBADF),
    };
    handle.fill(end);
    answer
}

/// Maps the page of zeros at an address for a row that is taken up: `tracee_map`.
#[unsafe(no_mangle)]
pub extern "C" fn pukzarn_tracee_map(alloc: Global, handle: &mut Handle, addr: u64) -> i32
    ensures { IsCallOn ends.Tracee handle.old handle.new (IsStatus result)
        (λ a b. IsHeldOf (IsMappingOf addr) a b) }
{
    let Some(mut end) = handle.take(alloc) else {
        return negative(Error::EBADF);
    };
    let answer = match &mut *end {
        HandleValue::Tracee(tracee) => status(tracee_map(tracee, addr)),
        _ => negative(Error::EBADF),
    };
    handle.fill(end);
    answer
}

/// Copies bytes of the memory of a row that is taken up into a buffer, and answers how many: `tracee_read`.
#[unsafe(no_mangle)]
pub extern "C" fn pukzarn_tracee_read(
    alloc: Global,
    handle: &mut Handle,
    addr: u64,
    to: &mut [u8],
) -> i64
    ensures { IsCallOn ends.Tracee handle.old handle.new (IsLongBeside result to.old to.new)
        (λ a b done. (b ≡ a) × IsShownInHand a (λ c. length (run c.memory addr (length to.old))) done
        × MatchResult done
        (λ count. IsShownInHand a (λ c. run c.memory addr (length to.old) ++ drop count to.old) (Ok to.new))
        (λ _. to.new ≡ to.old)) }
{
    let Some(mut end) = handle.take(alloc) else {
        return i64::from(negative(Error::EBADF));
    };
    let answer = match &mut *end {
        HandleValue::Tracee(tracee) => count(tracee_read(tracee, addr, to)),
        _ => i64::from(negative(Error::EBADF)),
    };
    handle.fill(end);
    answer
}

/// Stores bytes in the memory of a row that is taken up: `tracee_write`.
#[unsafe(no_mangle)]
pub extern "C" fn pukzarn_tracee_write(
    alloc: Global,
    handle: &mut Handle,
    addr: u64,
    bytes: &[u8],
) -> i32
    ensures { IsCallOn ends.Tracee handle.old handle.new (IsStatus result)
        (λ a b. IsHeldOf (IsWriteOf addr bytes.now) a b) }
{
    let Some(mut end) = handle.take(alloc) else {
        return negative(Error::EBADF);
    };
    let answer = match &mut *end {
        HandleValue::Tracee(tracee) => status(tracee_write(tracee, addr, bytes)),
        _ => negative(Error::EBADF),
    };
    handle.fill(end);
    answer
}

/// Publishes the row's next stop, and writes its number: `tracee_publish`.
#[unsafe(no_mangle)]
pub extern "C" fn pukzarn_tracee_publish(
    alloc: Global,
    handle: &mut Handle,
    stop: &CStop,
    number: &mut u32,
) -> i32
    ensures { IsCallOn ends.Tracee handle.old handle.new (IsStatusInto result number.old number.new)
        (λ a b. IsTraceePublish a b stop.now) }
{
    let Some(mut end) = handle.take(alloc) else {
        return negative(Error::EBADF);
    };
    let answer = match &mut *end {
        HandleValue::Tracee(tracee) => told(tracee_publish(tracee, *stop), number),
        _ => negative(Error::EBADF),
    };
    handle.fill(end);
    answer
}

/// Ends the row, with the raw wait status of its death: `tracee_exit`.
#[unsafe(no_mangle)]
pub extern "C" fn pukzarn_tracee_exit(alloc: Global, handle: &mut Handle, raw: u32) -> i32
    ensures { IsCallOn ends.Tracee handle.old handle.new (IsStatus result)
        (λ a b. IsTraceeExit a b raw) }
{
    let Some(mut end) = handle.take(alloc) else {
        return negative(Error::EBADF);
    };
    let answer = match &mut *end {
        HandleValue::Tracee(tracee) => status(tracee_exit(tracee, raw)),
        _ => negative(Error::EBADF),
    };
    handle.fill(end);
    answer
}
