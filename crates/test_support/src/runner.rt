//! A tracee as a test runs it: at rest, or running with the record of its row's last stop. What a publish asks of its
//! caller is checked here, so that a test needs no proof.

ghost use Rattle.std.specs.Prelude.{◌≡◌, ◌+◌, ◌<◌, false, length, true, IfOk, IfSome, MatchResult, is_some, if◌then◌else◌};
ghost use Rattle.trace_record.specs.Death.{IsDeath};
ghost use Rattle.trace_record.specs.Stop.{IsStop, child_of};
ghost use Rattle.stop_history.specs.History.{creates_next};
ghost use Rattle.stop_history.specs.Roster.{row_at};
ghost use Rattle.stop_table.specs.Entry.{cell_after};

use std::alloc::{Allocator, Global};
use std::test::Fail;
use stop_history::{LAST_NUMBER, Roster, place_of};
use stop_table::laws::{a_record_is_its_rows, stops_are_counted_by_their_tracee};
use stop_table::{GroupAlive, Start, Tracee};
use trace_record::{Death, Resume, Stop, StopRecord};

/// A tracee that does not have its row taken up.
#[derive(Drop)]
pub struct AtRest<A: Allocator = Global> {
    pub tracee: Tracee<A>,
    pub roster: Roster<A>,
    pub row: u32,
    pub births: usize,
    pub ghost rests: { tracee.view.taken ≡ false },
    pub ghost same_roster: { tracee.view.roster ≡ roster },
    pub ghost same_row: { tracee.row ≡ row },
    pub ghost counted: { (cell_after tracee.view.roster tracee.view.seen tracee.row).births ≡ births },
}

/// A tracee that has its row taken up, with the restart that it runs on by.
#[derive(Drop)]
pub struct Running<A: Allocator = Global> {
    pub tracee: Tracee<A>,
    pub roster: Roster<A>,
    pub row: u32,
    pub births: usize,
    pub how: Resume,
    pub record: StopRecord<A>,
    pub ghost runs: { tracee.view.taken ≡ true },
    pub ghost same_roster: { tracee.view.roster ≡ roster },
    pub ghost same_row: { tracee.row ≡ row },
    pub ghost counted: { (cell_after tracee.view.roster tracee.view.seen tracee.row).births ≡ births },
    pub ghost tid: { record.tid ≡ (row_at tracee.view.roster tracee.row).tid },
    pub ghost number: { record.number ≡ (cell_after tracee.view.roster tracee.view.seen tracee.row).number },
}

impl<A: Allocator> AtRest<A> {
    /// Whether the row may begin to run.
    pub fn start(&mut self) -> Start
        ensures { self.new.tracee.table_id ≡ self.old.tracee.table_id }
    {
        stops_are_counted_by_their_tracee();
        let _ = self.tracee.holds();
        self.tracee.start()
    }

    /// Takes the row up. Where it is not to run, the handle comes back.
    pub fn take_up(self) -> Result<Running<A>, AtRest<A>>
        ensures { MatchResult result (λ r. r.tracee.table_id ≡ self.tracee.table_id)
            (λ r. r.tracee.table_id ≡ self.tracee.table_id) }
    {
        let AtRest {
            mut tracee,
            roster,
            row,
            births,
        } = self;
        a_record_is_its_rows();
        stops_are_counted_by_their_tracee();
        let _ = tracee.holds();
        match tracee.take_up() {
            Some((how, record)) => Ok(Running {
                tracee,
                roster,
                row,
                births,
                how,
                record,
            }),
            None => Err(AtRest {
                tracee,
                roster,
                row,
                births,
            }),
        }
    }
}

impl<A: Allocator> AtRest<A> {
    /// Takes the row up, and publishes this stop with this mark in `rax`. Where it cannot, it fails.
    pub fn stop(self, stop: Stop, mark: u64) -> Result<AtRest<A>, Fail>
        ensures { IfOk result (λ t. t.tracee.table_id ≡ self.tracee.table_id) }
    {
        let Ok(running) = self.take_up() else {
            return Err(Fail::new("the row does not run"));
        };
        match running.publish(stop, mark) {
            Some(stopped) => Ok(stopped),
            None => Err(Fail::new("the row cannot make this stop")),
        }
    }

    /// Takes the row up, and ends it with an exit code. It answers whether it could.
    pub fn ends(self, code: u8) -> bool {
        match self.take_up() {
            Ok(running) => running.exit(code).is_ok(),
            Err(_) => false,
        }
    }
}

/// Whether a stop is one that tests make: none makes the stop of a signal, nor that before a death by one.
fn is_made(stop: Stop) -> bool
    ensures { result ≡ true → IsStop stop }
{
    match stop {
        Stop::Start => true,
        Stop::Enter => true,
        Stop::Exit => true,
        Stop::Seccomp(_) => true,
        Stop::Fork(_) => true,
        Stop::Clone(_) => true,
        Stop::Exec(_) => true,
        Stop::Signal(_) => false,
        Stop::Ending(death) => is_exit(death),
    }
}

/// Whether a death is an exit.
fn is_exit(death: Death) -> bool
    ensures { result ≡ true → IsDeath death }
{
    match death {
        Death::Exited(_) => true,
        Death::Signaled { .. } => false,
    }
}

/// Whether a tracee of this row, which has created this many children, can make a stop now.
fn may_make<A: Allocator>(roster: &Roster<A>, row: u32, births: usize, stop: Stop) -> bool
    requires { row < length roster.now }
    ensures { result ≡ true → IsStop stop × (creates_next roster.now row births stop ≡ true) }
{
    if !is_made(stop) {
        return false;
    }
    match stop.child() {
        None => true,
        Some(tid) => {
            let child = place_of(roster.rows(), tid);
            roster.is_next_child(row as usize, births, child)
        }
    }
}

/// How many children a row has after a stop.
fn births_after(births: usize, stop: Stop) -> Option<usize>
    ensures { IfSome result (λ n. n ≡ (if is_some (child_of stop) then births + 1 else births)) }
{
    match stop.child() {
        None => Some(births),
        Some(_) => births.checked_add(1),
    }
}

impl<A: Allocator> Running<A> {
    /// Asks for the row, which it has, once more. It answers whether it got nothing, and the row as it was.
    pub fn take_up_again(self) -> (bool, Running<A>)
        ensures { result.1.tracee.table_id ≡ self.tracee.table_id }
    {
        let Running {
            mut tracee,
            roster,
            row,
            births,
            how,
            record,
        } = self;
        let got_nothing = tracee.take_up().is_none();
        let running = Running {
            tracee,
            roster,
            row,
            births,
            how,
            record,
        };
        (got_nothing, running)
    }

    /// Publishes the row's next stop, with this mark in `rax`. Where the row cannot make the stop, it answers None.
    pub fn publish(self, stop: Stop, mark: u64) -> Option<AtRest<A>>
        ensures { IfSome result (λ r. r.tracee.table_id ≡ self.tracee.table_id) }
    {
        let Running {
            mut tracee,
            roster,
            row,
            births,
            how: _,
            mut record,
        } = self;
        // A handle holds its row, which is one of the roster.
        if !tracee.holds()
            || record.number >= LAST_NUMBER
            || !may_make(&roster, row, births, stop)
        {
            return None;
        }
        let births = births_after(births, stop)?;
        stops_are_counted_by_their_tracee();
        record.number += 1;
        record.stop = stop;
        record.regs.rax = mark;
        tracee.publish(record);
        Some(AtRest {
            tracee,
            roster,
            row,
            births,
        })
    }

    /// Ends the row with an exit code. A leader that another row of its group holds back answers that row, and runs on.
    pub fn exit(self, code: u8) -> Result<AtRest<A>, (u32, Running<A>)> {
        let Running {
            mut tracee,
            roster,
            row,
            births,
            how,
            record,
        } = self;
        a_record_is_its_rows();
        stops_are_counted_by_their_tracee();
        let _ = tracee.holds();
        match tracee.exit(record, Death::Exited(code)) {
            Ok(()) => Ok(AtRest {
                tracee,
                roster,
                row,
                births,
            }),
            Err(
                GroupAlive {
                    row: other,
                    content: record,
                },
            ) => Err((
                other,
                Running {
                    tracee,
                    roster,
                    row,
                    births,
                    how,
                    record,
                },
            )),
        }
    }
}
