//! What a wait asks for.

ghost use Rattle.std.specs.Prelude.{◌≡◌};
ghost use Rattle.stop_history.specs.WaitRequest.{waitid_request, waitpid_request};

use crate::id::Id;
use crate::selection::{Selection, selection_of_id, selection_of_pid};
use trace_options::WaitFlags;

/// What a wait asks for.
#[derive(Clone, Copy, Debug, PartialEq, Eq, Hash)]
pub struct WaitRequest {
    /// Which tracees it speaks of.
    pub selection: Selection,
    /// Deaths too, and not stops alone.
    pub deaths: bool,
    /// What is reported stays waitable (`WNOWAIT`).
    pub keeps: bool,
}

/// What the arguments of waitid(2) ask for, or None where they are EINVAL: neither WEXITED nor WSTOPPED, or WCONTINUED, or
/// an id of 0 or less.
pub fn waitid_request(id: Id, flags: WaitFlags) -> Option<WaitRequest>
    ensures { result ≡ waitid_request id flags }
{
    let deaths = flags.contains(WaitFlags::WEXITED);
    if !deaths && !flags.contains(WaitFlags::WSTOPPED) {
        return None;
    }
    if flags.contains(WaitFlags::WCONTINUED) {
        return None;
    }
    let keeps = flags.contains(WaitFlags::WNOWAIT);
    let selection = selection_of_id(id)?;
    Some(WaitRequest {
        selection,
        deaths,
        keeps,
    })
}

/// What the arguments of waitpid(2) ask for, or None where they are EINVAL: a flag other than WNOHANG, WUNTRACED and
/// WALL, pid 0, or the least pid.
pub fn waitpid_request(pid: i32, flags: WaitFlags) -> Option<WaitRequest>
    ensures { result ≡ waitpid_request pid flags }
{
    let mut taken = WaitFlags::WNOHANG;
    taken.insert(WaitFlags::WUNTRACED);
    taken.insert(WaitFlags::WALL);
    if !taken.contains(flags) {
        return None;
    }
    let selection = selection_of_pid(pid)?;
    Some(WaitRequest {
        selection,
        deaths: true,
        keeps: false,
    })
}
