//! The calls of a tracee: it takes its row up, publishes the row's stops, and ends the row.

ghost use Rattle.std.specs.Prelude.{◌≡◌, ◌<◌, true};
ghost use Rattle.trace_record.specs.Stop.{IsStop};
ghost use Rattle.stop_history.specs.History.{creates_next};
ghost use Rattle.stop_history.specs.declared.limits.TheConstants.{LAST_NUMBER};
ghost use Rattle.c_interface.specs.Hand.{is_taken, number_in_hand};
ghost use Rattle.c_interface.specs.TraceeEnd.{IsTraceeExit, IsTraceePublish, IsTraceeTakeUp, Publishes};

use crate::error::Error;
use crate::hand::{Hand, InHand};
use crate::restart::CRestart;
use crate::stop::CStop;
use crate::tracee_end::TraceeEnd;
use std::mem::replace;
use stop_board::LAST_NUMBER;
use stop_history::place_of;
use stop_table::laws::{a_record_is_its_rows, stops_are_counted_by_their_tracee};
use stop_table::{GroupAlive, Start};
use trace_record::{Death, Stop};

/// Takes the row up, once it is born and is to run, and answers how it runs on (ptrace(2), "Restarting"). EAGAIN: it is
/// not born yet, or was not restarted since its last stop; ECHILD: nobody will create it; EALREADY: it is taken up
/// already, or has ended.
pub fn tracee_take_up(end: &mut TraceeEnd) -> Result<CRestart, Error>
    ensures { IsTraceeTakeUp end.old end.new result }
{
    let Hand::AtRest = end.hand else {
        return Err(Error::EALREADY);
    };
    a_record_is_its_rows();
    stops_are_counted_by_their_tracee();
    let _ = end.tracee.holds();
    match end.tracee.take_up() {
        Some((how, stopped)) => {
            end.hand = Hand::Taken(InHand { how, stopped });
            Ok(CRestart::of(how))
        }
        None => match end.tracee.start() {
            Start::Born | Start::NotYet => Err(Error::EAGAIN),
            Start::Never => Err(Error::ECHILD),
        },
    }
}

/// Publishes the next stop of a row that is taken up, and answers its number. EINVAL: numbers of no stop; EALREADY: the
/// row is not taken up; EINVAL: a child that is not the row's next one; EOVERFLOW: it has made its last stop. What is
/// refused leaves the row taken up.
pub fn tracee_publish(end: &mut TraceeEnd, stop: CStop) -> Result<u32, Error>
    ensures { IsTraceePublish end.old end.new stop result }
{
    let Some(at) = stop.stop() else {
        return Err(Error::EINVAL);
    };
    let Hand::Taken(held) = &end.hand else {
        return Err(Error::EALREADY);
    };
    let number = held.stopped.number;
    if !can_make(end, at) {
        return Err(Error::EINVAL);
    }
    if number >= LAST_NUMBER {
        return Err(Error::EOVERFLOW);
    }
    publish(end, at);
    Ok(number + 1)
}

/// Whether the row's next stop can be this one: a child that it announces is the row's next.
fn can_make(end: &TraceeEnd, at: Stop) -> bool
    ensures { result ≡ creates_next end.now.roster end.now.row end.now.births at }
{
    let Some(tid) = at.child() else {
        return true;
    };
    let child = place_of(end.roster.rows(), tid);
    let _ = end.tracee.holds();
    end.roster
        .is_next_child(end.row as usize, end.births, child)
}

/// Publishes a stop that the row can make.
fn publish(end: &mut TraceeEnd, at: Stop)
    requires taken { is_taken end.old.hand ≡ true }
    requires stop { IsStop at }
    requires number { number_in_hand end.old.hand LAST_NUMBER < LAST_NUMBER }
    requires next { creates_next end.old.roster end.old.row end.old.births at ≡ true }
    ensures { Publishes end.old end.new at }
{
    let Some(held) = end.hand.take() else {
        unreachable!()
    };
    stops_are_counted_by_their_tracee();
    let _ = end.tracee.holds();
    let InHand {
        how: _,
        mut stopped,
    } = held;
    stopped.number += 1;
    stopped.stop = at;
    let births = if at.child().is_some() {
        end.births + 1
    } else {
        end.births
    };
    end.births = births;
    end.tracee.publish(stopped);
}

/// Ends a row that is taken up, with the raw wait status of its death. EINVAL: a status of no death; EALREADY: the row
/// is not taken up; EBUSY: it leads a thread group of which another row is alive, and is still taken up.
pub fn tracee_exit(end: &mut TraceeEnd, status: u32) -> Result<(), Error>
    ensures { IsTraceeExit end.old end.new status result }
{
    let Some(death) = Death::from_status(status) else {
        return Err(Error::EINVAL);
    };
    match replace(&mut end.hand, Hand::Ended) {
        Hand::AtRest => {
            end.hand = Hand::AtRest;
            Err(Error::EALREADY)
        }
        Hand::Ended => Err(Error::EALREADY),
        Hand::Taken(InHand { how, stopped }) => {
            stops_are_counted_by_their_tracee();
            let _ = end.tracee.holds();
            let Err(GroupAlive { row: _, content }) = end.tracee.exit(stopped, death) else {
                return Ok(());
            };
            end.hand = Hand::Taken(InHand {
                how,
                stopped: content,
            });
            Err(Error::EBUSY)
        }
    }
}
