//! What a tracer learns of its tracee, and gives it: its stops, its restarts and its death.
#![tactic(auto)]

mod death;
pub mod laws;
mod resume;
mod stop;
mod stop_record;

pub use death::Death;
pub use resume::{Kind, Resume};
pub use stop::Stop;
pub use stop_record::{AUDIT_ARCH_X86_64, StopRecord};

#[cfg(test)]
mod tests;
