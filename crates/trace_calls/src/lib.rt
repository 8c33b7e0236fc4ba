//! Waits and calls by pid, with the names and the shape of nix: `waitid`, `waitpid`, `getregs`, `cont`.
//!
//! A `Calls` is a tracer's handle with the claims that its waits made. A wait goes through the roster in its order, so
//! that a parent comes before its children, and answers the first selected row that has a stop, or a death where deaths
//! are asked for. Without WNOWAIT the answered row is claimed: its stop stays this caller's until `syscall` or `cont`
//! resumes it, and its death is reaped.
//!
//! - Under their plain names the waits do not block: they act as with WNOHANG. The `_blocking` ones try again.
//! - "No child" for all tracees or for a process group is final: none of them will ever be reported again.
//! - `setregs`, `write` and `store` change a claimed tracee, which runs on with what they left.
//! - `wait_row`, `look`, `claimed_row` and `restart_row` name a tracee by its row of the roster, and search for no pid.
//! - No call but `Calls::new` takes memory.
//!
//! Which of several tracees is answered when all of them stop at once, and when a blocking wait returns, is not said.
#![tactic(auto)]

mod blocking;
mod by_pid;
mod by_row;
mod calls;
mod handle;
mod patience;
mod row_status;
mod scan;
mod settle;
mod writes;

pub use calls::Calls;
pub use patience::Patience;
pub use row_status::RowStatus;
pub use stop_history::Id;
