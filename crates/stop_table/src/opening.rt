//! Opening the cells of a roster: the table, and a handle for each tracee and each tracer.

ghost use Rattle.std.specs.Prelude.{◌≡◌, ◌++◌, ◌+◌, ◌<◌, ◌≤◌, IfOk, IsOkUnless, length};
ghost use Rattle.std.specs.Arc.{arc_value};
ghost use Rattle.std.specs.Vec.{vec_capacity, vec_len};
ghost use Rattle.atomic_table.specs.Seated.{TableId};
ghost use Rattle.stop_history.specs.declared.limits.TheConstants.{TRACERS};
ghost use Rattle.stop_table.specs.declared.opening.OpenError.{OpenError};
ghost use Rattle.stop_table.specs.Opening.{AreTracees, AreTracers, DealsRows, DealsTracers, empty_slots, slots_with};

use crate::boxed::BoxedRecord;
use crate::cells::{Cells, PLACES, Seat};
use crate::held::Held;
use crate::rule::{OneRow, OneTracer};
use crate::tracee::Tracee;
use crate::tracer::Tracer;
use atomic_table::Table;
use std::alloc::{AllocError, AllocFailed, Allocator, Global};
use std::sync::Arc;
use stop_history::{MOST_ROWS, Roster, TRACERS};
use trace_pages::Memory;
use trace_record::StopRecord;

/// The handles of new cells: that of each tracee, by its row, and that of each tracer, by its number.
#[derive(Drop)]
pub struct Ends<A: Allocator = Global> {
    pub tracees: Vec<Tracee<A>, A>,
    pub tracers: Vec<Tracer<A>, A>,
}

/// Why cells could not be opened.
#[derive(Clone, Copy, Debug, PartialEq, Eq, Hash)]
pub enum OpenError {
    /// There are more than 16 tracers.
    TooMany,
    /// A growth was refused.
    NoMemory,
}

impl From<AllocError> for OpenError {
    ghost use Rattle.stop_table.specs.declared.opening.OpenError.TheVariants as fault;

    ghost from_gives = { λ _ e. e ≡ fault.NoMemory };

    fn from(_error: AllocError) -> OpenError {
        OpenError::NoMemory
    }
}

/// Makes the cells of a roster before any event, with a handle for each row and for each of at most 16 tracers. Each
/// has seen nothing and acts for one actor.
pub fn open<A: Allocator + Copy, B: Allocator>(
    alloc: A,
    roster: &Roster<B>,
    tracers: u32,
) -> Result<Ends<A>, OpenError>
    ensures many { TRACERS < tracers → result ≡ Err OpenError.TooMany }
    ensures few { tracers ≤ TRACERS → IsOkUnless result OpenError.NoMemory }
    ensures ok { IfOk result (λ e. (id : TableId)
        × (vec_len e.tracees ≡ length roster.now) × (vec_len e.tracers ≡ tracers)
        × AreTracees id roster.now e.tracees.items × AreTracers id roster.now e.tracers.items) }
{
    if tracers > TRACERS {
        return Err(OpenError::TooMany);
    }
    let (cells, mut seat) = share(alloc, roster)?;
    let tracees = deal_rows(alloc, &cells, &mut seat)?;
    let tracers = deal_tracers(alloc, &cells, &mut seat, tracers)?;
    Ok(Ends { tracees, tracers })
}

/// The slots of the rows: the empty record of each at its place.
fn empty_slots<A: Allocator + Copy>(
    alloc: A,
    roster: &Roster<A>,
) -> Result<Vec<Option<BoxedRecord<A>>, A>, AllocError>
    ensures { IfOk result (λ slots. slots.items ≡ empty_slots roster.now) }
{
    let rows = roster.rows();
    let mut slots = Vec::with_capacity(alloc, rows.len() * PLACES)?;
    for row in rows {
        let boxed = BoxedRecord::new(alloc, StopRecord::empty(alloc, row.tid))?;
        put_row(&mut slots, boxed);
    }
    Ok(slots)
}

/// The slots of one row more, with its record at its place.
fn put_row<A: Allocator>(slots: &mut Vec<Option<BoxedRecord<A>>, A>, boxed: BoxedRecord<A>)
    requires { vec_len slots.old + PLACES ≤ vec_capacity slots.old }
    ensures items { slots.new.items ≡ slots.old.items ++ slots_with boxed }
    ensures capacity { vec_capacity slots.new ≡ vec_capacity slots.old }
{
    slots.push_reserved(Some(boxed));
    for _ in 0..PLACES - 1 {
        slots.push_reserved(None);
    }
}

/// The cells, and a seat that acts for all.
fn share<A: Allocator + Copy, B: Allocator>(
    alloc: A,
    roster: &Roster<B>,
) -> Result<(Arc<Cells<A>, A>, Seat<A>), AllocError>
    ensures { IfOk result (λ s. DealsRows (arc_value s.0) s.1 0
        × ((arc_value s.0).table.shared.key ≡ roster.now)) }
{
    let Ok(roster) = Roster::copy(alloc, roster) else {
        return Err(AllocError);
    };
    let words = vec![in alloc; 0_u64; roster.rows().len() * PLACES + 1]?;
    let slots = empty_slots(alloc, &roster)?;
    let Ok((table, seat)) = Table::new(alloc, words.as_slice(), slots, &roster) else {
        return Err(AllocError);
    };
    let Ok(cells) = Arc::new(alloc, Cells { table, roster }) else {
        return Err(AllocError);
    };
    Ok((cells, seat))
}

/// The handle of each row.
fn deal_rows<A: Allocator + Copy>(
    alloc: A,
    cells: &Arc<Cells<A>, A>,
    seat: &mut Seat<A>,
) -> Result<Vec<Tracee<A>, A>, AllocError>
    requires { DealsRows (arc_value cells.now) seat.old 0 }
    ensures seat { IfOk result (λ handles. DealsTracers (arc_value cells.now) seat.new 0) }
    ensures handles { IfOk result (λ handles. (vec_len handles ≡ length (arc_value cells.now).table.shared.key)
        × AreTracees (arc_value cells.now).table.shared.table_id (arc_value cells.now).table.shared.key handles.items) }
{
    let count = cells.roster.len();
    let mut handles = Vec::with_capacity(alloc, count as usize)?;
    for row in 0..count {
        let again = Arc::try_clone(cells)?;
        let one = cells.table.shared.split_seat::<OneRow>(seat);
        handles.push_reserved(Tracee::new(again, one, row, Memory::new(alloc)));
    }
    Ok(handles)
}

/// The handle of each tracer. Room for all claims that it can hold is made here, so that a claim takes no memory.
fn deal_tracers<A: Allocator + Copy>(
    alloc: A,
    cells: &Arc<Cells<A>, A>,
    seat: &mut Seat<A>,
    count: u32,
) -> Result<Vec<Tracer<A>, A>, AllocError>
    requires { DealsTracers (arc_value cells.now) seat.old 0 × (count ≤ TRACERS) }
    ensures { IfOk result (λ handles. (vec_len handles ≡ count)
        × AreTracers (arc_value cells.now).table.shared.table_id (arc_value cells.now).table.shared.key handles.items) }
{
    let mut handles = Vec::with_capacity(alloc, count as usize)?;
    for number in 0..count {
        let again = Arc::try_clone(cells)?;
        let room = Vec::with_capacity(alloc, MOST_ROWS)?;
        let one = cells.table.shared.split_seat::<OneTracer>(seat);
        let held = Held::new(room);
        handles.push_reserved(Tracer::new(again, one, number as u8, held));
    }
    Ok(handles)
}
