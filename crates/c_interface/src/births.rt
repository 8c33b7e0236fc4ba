//! The end of a machine.

use std::alloc::Global;
use trace_script::Machine;

/// Whether births are traced (ptrace(2), `PTRACE_O_TRACEFORK`, `PTRACE_O_TRACECLONE`).
#[derive(Clone, Copy, Debug, PartialEq, Eq)]
pub enum Births {
    /// They are.
    Traced,
    /// They are not. So many births were left at the opening, or when they were last turned off.
    Untraced(u32),
}

/// The machine of a script, and whether births are traced.
#[derive(Drop)]
pub struct MachineEnd {
    pub machine: Machine<Global>,
    pub births: Births,
}
