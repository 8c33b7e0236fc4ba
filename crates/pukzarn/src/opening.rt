//! Opening the cells that threads share: all their handles, or none.

ghost use Rattle.std.specs.Prelude.{◌≡◌, ◌≢◌, ◌+◌, [], OnOk, IfOk, length, map, min};
ghost use Rattle.std.specs.Bool.{MatchBool};
ghost use Rattle.atomic_table.specs.Seated.{TableId};
ghost use Rattle.stop_table.specs.Opening.{AreTracees, AreTracers};
ghost use Rattle.c_interface.specs.Opening.{AreNewEnds, row_of_ids};
ghost use Rattle.pukzarn.specs.Opening.{AreAllOpen, AreAllOpened, AreClosed, AreOpenTracees, AreOpenTracers};
ghost use Rattle.pukzarn.specs.Opening.{IsCellsOpening, IsFaultInto, PutsTracee, PutsTracer};

use crate::call::negative;
use crate::handle::Handle;
use crate::handle_value::HandleValue;
use c_interface::{CRow, Error, OpenFault, Opened, open_cells};
use std::alloc::Global;
use stop_board::TRACERS;

/// The negative number of the error of an opening; the place of a faulty row is written.
pub fn open_fault(fault: OpenFault, faulty: &mut u32) -> i32
    ensures { IsFaultInto fault faulty.old faulty.new result }
{
    match fault {
        OpenFault::Row(at) => {
            *faulty = at;
            negative(Error::EINVAL)
        }
        OpenFault::TooMany | OpenFault::Tracers => negative(Error::EINVAL),
        OpenFault::NoMemory => negative(Error::ENOMEM),
    }
}

/// Opens cells over rows, with a handle for the tracee of each row, in the order of the rows, and for each of 1 to 16
/// tracers: all of them, or none. EBUSY: one of the handles is open; EINVAL: more than 256 rows, or a row that has a
/// fault, and then `faulty` is the place of the first; another number of tracees than of rows; no tracer, or more than
/// 16; ENOMEM.
#[unsafe(no_mangle)]
pub extern "C" fn pukzarn_open(
    alloc: Global,
    rows: &[CRow],
    tracees: &mut [Handle],
    tracers: &mut [Handle],
    faulty: &mut u32,
) -> i32
    ensures { IsCellsOpening (map row_of_ids rows.now) (tracees.old, tracers.old) (tracees.new, tracers.new)
        faulty.old faulty.new result }
{
    if !are_closed(tracees) {
        return negative(Error::EBUSY);
    }
    if !are_closed(tracers) {
        return negative(Error::EBUSY);
    }
    match open_cells(alloc, rows, tracers_of(tracers.len())) {
        Ok(opened) if tracees.len() == rows.len() => open_all(alloc, opened, tracees, tracers),
        Ok(_) => negative(Error::EINVAL),
        Err(fault) => open_fault(fault, faulty),
    }
}

/// A number of tracers, or another one that there cannot be.
fn tracers_of(count: usize) -> u32
    ensures { result ≡ min count (TRACERS + 1) }
{
    count.min(TRACERS as usize + 1) as u32
}

/// Puts each end of new cells into its handle, all of them, or none: then no handle is open, ENOMEM.
fn open_all(
    alloc: Global,
    mut opened: Opened,
    tracees: &mut [Handle],
    tracers: &mut [Handle],
) -> i32
    requires ends { AreNewEnds opened.roster (length tracers.old) opened }
    requires rows { length tracees.old ≡ length opened.roster }
    ensures { AreAllOpened opened.roster (tracees.new, tracers.new) result }
{
    if fill_all(alloc, &mut opened, tracees, tracers).is_ok() {
        return 0;
    }
    close_all(alloc, tracees);
    close_all(alloc, tracers);
    negative(Error::ENOMEM)
}

/// Whether all handles are closed.
fn are_closed(handles: &[Handle]) -> bool
    ensures { MatchBool result (AreClosed handles.now) (AreClosed handles.now → ⊥) }
{
    for at in 0..handles.len() {
        if handles[at].is_open() {
            return false;
        }
    }
    true
}

/// Closes all handles.
fn close_all(alloc: Global, handles: &mut [Handle])
    ensures { AreClosed handles.new }
{
    for at in 0..handles.len() {
        let _ = handles[at].take(alloc);
    }
}

/// Puts each end into its handle. Where a growth is refused, some are in and some are not.
fn fill_all(
    alloc: Global,
    opened: &mut Opened,
    tracees: &mut [Handle],
    tracers: &mut [Handle],
) -> Result<(), Error>
    requires ends { AreNewEnds opened.old.roster (length tracers.old) opened.old }
    requires rows { length tracees.old ≡ length opened.old.roster }
    ensures { OnOk result (AreAllOpen opened.old.roster (tracees.new, tracers.new)) }
{
    fill_tracees(alloc, opened, tracees)?;
    fill_tracers(alloc, opened, tracers)
}

/// Puts the end of each row into its handle, the last first.
fn fill_tracees(alloc: Global, opened: &mut Opened, tracees: &mut [Handle]) -> Result<(), Error>
    requires { length opened.old.tracees.items ≡ length tracees.old }
    ensures tracees { OnOk result ((table : TableId) → AreTracees table opened.old.roster opened.old.tracees.items
        → AreOpenTracees table opened.old.roster tracees.new) }
    ensures roster { OnOk result (opened.new.roster ≡ opened.old.roster) }
    ensures tracers { OnOk result (opened.new.tracers.items ≡ opened.old.tracers.items) }
{
    for filled in 0..tracees.len() {
        let at = tracees.len() - 1 - filled;
        fill_tracee(alloc, opened, &mut tracees[at])?;
    }
    Ok(())
}

/// Puts the end of the last row that is left into a handle.
fn fill_tracee(alloc: Global, opened: &mut Opened, to: &mut Handle) -> Result<(), Error>
    requires { opened.old.tracees.items ≢ [] }
    ensures { OnOk result (PutsTracee opened.old opened.new to.new) }
{
    let Some(tracee) = opened.next_tracee(alloc)? else {
        unreachable!()
    };
    to.fill(boxed(alloc, HandleValue::Tracee(tracee))?);
    Ok(())
}

/// Puts the end of each tracer into its handle, the last first.
fn fill_tracers(alloc: Global, opened: &mut Opened, tracers: &mut [Handle]) -> Result<(), Error>
    requires { length opened.old.tracers.items ≡ length tracers.old }
    ensures { OnOk result ((table : TableId) → AreTracers table opened.old.roster opened.old.tracers.items
        → AreOpenTracers table opened.old.roster tracers.new) }
{
    for filled in 0..tracers.len() {
        let at = tracers.len() - 1 - filled;
        fill_tracer(alloc, opened, &mut tracers[at])?;
    }
    Ok(())
}

/// Puts the end of the last tracer that is left into a handle.
fn fill_tracer(alloc: Global, opened: &mut Opened, to: &mut Handle) -> Result<(), Error>
    requires { opened.old.tracers.items ≢ [] }
    ensures { OnOk result (PutsTracer opened.old opened.new to.new) }
{
    let Some(tracer) = opened.next_tracer(alloc)? else {
        unreachable!()
    };
    to.fill(boxed(alloc, HandleValue::Tracer(tracer))?);
    Ok(())
}

/// The value in a box. ENOMEM.
fn boxed(alloc: Global, value: HandleValue) -> Result<Box<HandleValue, Global>, Error>
    ensures { IfOk result (λ made. made.value ≡ value) }
{
    match Box::new(alloc, value) {
        Ok(made) => Ok(made),
        Err(_) => Err(Error::ENOMEM),
    }
}
