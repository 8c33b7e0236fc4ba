//! Which tracees a wait speaks of.

ghost use Rattle.std.specs.Prelude.{◌≡◌};
ghost use Rattle.stop_history.specs.Selection.{is_selected, positive, selection_of_id, selection_of_pid};

use crate::id::Id;
use crate::roster::Row;

/// Which tracees a wait speaks of.
#[derive(Clone, Copy, Debug, PartialEq, Eq, Hash)]
pub enum Selection {
    /// Any.
    All,
    /// The one of this pid.
    Tracee(u32),
    /// Those of this process group.
    Group(u32),
}

impl Selection {
    /// Whether a row is among them.
    pub fn has(self, row: Row) -> bool
        ensures { result ≡ is_selected self row }
    {
        match self {
            Selection::All => true,
            Selection::Tracee(tid) => row.tid == tid,
            Selection::Group(pgid) => row.pgid == pgid,
        }
    }
}

/// The selection of waitid, or None for an id that it does not take (waitid(2), `P_ALL`, `P_PID`, `P_PGID`).
pub fn selection_of_id(id: Id) -> Option<Selection>
    ensures { result ≡ selection_of_id id }
{
    match id {
        Id::All => Some(Selection::All),
        Id::Pid(pid) => Some(Selection::Tracee(positive(pid)?)),
        Id::PGid(pgid) => Some(Selection::Group(positive(pgid)?)),
    }
}

/// The selection of waitpid, or None for a pid that it does not take (waitpid(2), "The value of pid can be").
pub fn selection_of_pid(pid: i32) -> Option<Selection>
    ensures { result ≡ selection_of_pid pid }
{
    if pid == 0 {
        return None;
    }
    if pid == i32::MIN {
        return None;
    }
    if pid == -1 {
        return Some(Selection::All);
    }
    if pid > 0 {
        return Some(Selection::Tracee(pid.unsigned_abs()));
    }
    Some(Selection::Group(pid.unsigned_abs()))
}

/// An id above 0.
fn positive(id: i32) -> Option<u32>
    ensures { result ≡ positive id }
{
    if id <= 0 {
        return None;
    }
    Some(id.unsigned_abs())
}
