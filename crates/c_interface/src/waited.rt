//! What a wait asks for and reports, in numbers.

ghost use Rattle.std.specs.Prelude.{◌≡◌, ℕ, Some};
ghost use Rattle.c_interface.specs.Waited.{IsPidReport, IsReportOf, IsWaitReport, death_flag, error_in, id_in};
ghost use Rattle.trace_status.specs.WaitStatus.{pid_of};

use crate::error::Error;
use stop_board::Id;
use trace_calls::RowStatus;
use trace_options::Errno;
use trace_status::{WaitStatus, encode};

/// Any tracee (`<sys/wait.h>`).
pub const P_ALL: u32 = 0;
/// The tracee of a pid.
pub const P_PID: u32 = 1;
/// A tracee of a process group.
pub const P_PGID: u32 = 2;

/// `struct pukzarn_waited`: what a wait reports.
#[repr(C)]
#[derive(Clone, Copy, Debug, PartialEq, Eq)]
pub struct CWaited {
    /// The row, from 0.
    pub row: u32,
    /// Its thread id.
    pub tid: u32,
    /// The number of the stop, for a death that of the last stop.
    pub number: u32,
    /// The raw wait status.
    pub status: u32,
    /// 1: a death; 0: a stop.
    pub death: u32,
}

/// What waitpid(2) reports: the tracee's pid and its raw wait status.
#[derive(Clone, Copy, Debug, PartialEq, Eq)]
pub struct CWaitpid {
    pub pid: u32,
    pub status: u32,
}

/// The error of a wait or of a call by pid.
#[inline(always)]
pub(crate) fn error_in(error: Errno) -> Error
    ensures { result ≡ error_in error }
{
    match error {
        Errno::ESRCH => Error::ESRCH,
        Errno::EIO => Error::EIO,
        Errno::ECHILD => Error::ECHILD,
        Errno::EINVAL => Error::EINVAL,
    }
}

/// Whom these numbers name.
#[inline(always)]
pub(crate) fn id_in(idtype: u32, id: i32) -> Option<Id>
    ensures { result ≡ id_in idtype id }
{
    match idtype {
        P_ALL => Some(Id::All),
        P_PID => Some(Id::Pid(id)),
        P_PGID => Some(Id::PGid(id)),
        _ => None,
    }
}

/// The tracee that a status names, or 0.
#[inline(always)]
fn tid_of(status: WaitStatus) -> u32
    ensures { (tid : ℕ) → pid_of status ≡ Some tid → result ≡ tid }
{
    match status {
        WaitStatus::Exited(tid, _) => tid,
        WaitStatus::Signaled(tid, _, _) => tid,
        WaitStatus::Stopped(tid, _) => tid,
        WaitStatus::PtraceEvent(tid, _, _) => tid,
        WaitStatus::PtraceSyscall(tid) => tid,
        WaitStatus::StillAlive => 0,
    }
}

/// 1 for a death.
#[inline(always)]
fn death_flag(status: WaitStatus) -> u32
    ensures { result ≡ death_flag status }
{
    match status {
        WaitStatus::Exited(..) | WaitStatus::Signaled(..) => 1,
        _ => 0,
    }
}

impl CWaited {
    /// The report of a row.
    #[inline(always)]
    pub(crate) fn of(found: RowStatus) -> CWaited
        ensures { IsReportOf found result }
    {
        CWaited {
            row: found.row,
            tid: tid_of(found.status),
            number: found.number,
            status: encode(&found.status).unwrap_or(0),
            death: death_flag(found.status),
        }
    }
}

/// What a wait reports, or its error.
#[inline(always)]
pub(crate) fn reported(told: Result<Option<RowStatus>, Errno>) -> Result<Option<CWaited>, Error>
    ensures { IsWaitReport told result }
{
    match told {
        Ok(Some(found)) => Ok(Some(CWaited::of(found))),
        Ok(None) => Ok(None),
        Err(error) => Err(error_in(error)),
    }
}

/// What a wait by pid reports, or its error.
#[inline(always)]
pub(crate) fn reported_pid(told: Result<WaitStatus, Errno>) -> Result<Option<CWaitpid>, Error>
    ensures { IsPidReport told result }
{
    match told {
        Ok(WaitStatus::StillAlive) => Ok(None),
        Ok(status) => Ok(Some(CWaitpid {
            pid: tid_of(status),
            status: encode(&status).unwrap_or(0),
        })),
        Err(error) => Err(error_in(error)),
    }
}
