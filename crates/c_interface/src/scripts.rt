//! The calls on case files and on the machines that run their scripts.

ghost use Rattle.std.specs.Prelude.{◌≡◌, ◌++◌, drop, length, map, take};
ghost use Rattle.c_interface.specs.Opening.{ids_of_row};
ghost use Rattle.c_interface.specs.Scripts.{IsMachineNext, IsNewMachine, IsNextBy, ended_text, itself};

use crate::error::Error;
use crate::opening::CRow;
use crate::restart::CRestart;
use crate::stop::CStop;
use std::alloc::Global;
use stop_board::Row;
use trace_options::{CallSet, Filter, LAST_SIGNAL, Options};
use trace_record::{Resume, StopRecord};
use trace_script::{Case, Machine, Next};

/// What a script does next.
#[derive(Clone, Copy, Debug, PartialEq, Eq)]
pub enum NextStep {
    /// Its next stop.
    Stop(CStop),
    /// Its death, by its raw wait status.
    Death(u32),
}

/// Copies rows into a buffer, as many as it has room for, and answers how many there are.
pub fn rows_into(rows: &[Row], to: &mut [CRow]) -> usize
    ensures count { result ≡ length rows.now }
    ensures rows { to.new ≡ map ids_of_row (take (length to.old) rows.now) ++ drop (length rows.now) to.old }
{
    let room = to.len().min(rows.len());
    for place in 0..room {
        to[place] = CRow::of(rows[place]);
    }
    rows.len()
}

/// Copies a text into a buffer, cut to it and ended by a zero, and answers the text's whole length.
pub fn text_into(text: &[u8], to: &mut [u8]) -> usize
    ensures whole { result ≡ length text.now }
    ensures cut { to.new ≡ ended_text (length to.old) text.now
        ++ drop (length (ended_text (length to.old) text.now)) to.old }
{
    if to.len() == 0 {
        return text.len();
    }
    let cut = text.len().min(to.len() - 1);
    to[..cut].copy_from_slice(&text[..cut]);
    to[cut] = 0;
    text.len()
}

/// The machine of a row's script, before its first stop, with the option TRACESYSGOOD and no filter. EINVAL: there is
/// no such row; ENOMEM.
pub fn machine_open(alloc: Global, case: &Case, row: u32) -> Result<Machine, Error>
    ensures { IsNewMachine case.now row result }
{
    if row >= case.roster().len() {
        return Err(Error::EINVAL);
    }
    let filter = Filter {
        calls: CallSet::none(),
        ret_data: 0,
    };
    let Ok(machine) = Machine::new(alloc, case, row, Options::TRACESYSGOOD, &filter) else {
        return Err(Error::ENOMEM);
    };
    Ok(machine)
}

/// Runs a script on from a restart, to its next stop, whose content is then in the record, or to its death. The first
/// call ignores the restart and what the record holds. EINVAL: no kind of restart; EIO: a signal above 64; EFAULT: the
/// script stores to what is not mapped, and nothing has changed. It takes no memory.
pub fn machine_next(
    machine: &mut Machine,
    how: CRestart,
    stopped: &mut StopRecord<Global>,
) -> Result<NextStep, Error>
    ensures { IsMachineNext machine.old machine.new how stopped.old stopped.new result }
{
    let Some(kind) = how.kind() else {
        return Err(Error::EINVAL);
    };
    if how.signal > u32::from(LAST_SIGNAL) {
        return Err(Error::EIO);
    }
    let signal = how.signal as u8;
    next_step(machine, Resume { kind, signal }, stopped)
}

/// Runs a script on from a restart, to its next stop, whose content is then in the record, or to its death. EFAULT: it
/// stores to what is not mapped, and nothing has changed.
pub(crate) fn next_step(
    machine: &mut Machine,
    how: Resume,
    stopped: &mut StopRecord<Global>,
) -> Result<NextStep, Error>
    ensures { IsNextBy itself machine.old machine.new how stopped.old stopped.new result }
{
    match machine.next(how, stopped) {
        Next::Stop => Ok(NextStep::Stop(CStop::of(stopped.stop))),
        Next::Death(death) => Ok(NextStep::Death(death.status())),
        Next::Fault(_) => Err(Error::EFAULT),
    }
}
