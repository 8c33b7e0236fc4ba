//! The tracees' side of a trace: case files, and the machine that runs a scripted tracee from stop to stop.
#![tactic(auto)]

mod calls;
mod case;
mod cause;
pub mod laws;
mod limits;
mod machine;
mod reading;
mod script;
mod setting;
mod step;

pub use calls::{CLONE, CLONE_THREAD_FLAGS, EXECVE, EXIT, FORK};
pub use case::Case;
pub use case::row_words::{id, row_of_words};
pub use cause::{CaseError, Cause};
pub use limits::{MOST_BYTES, MOST_STEPS};
pub use machine::Machine;
pub use machine::next::Next;
pub use reading::{TakesLines, read_file};
pub use script::{Call, Fill, Image, Script, Step};
pub use setting::Setting;
