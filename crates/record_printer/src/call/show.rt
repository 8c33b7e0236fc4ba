//! What is printed of a trace.

use trace_options::CallSet;

/// What is printed of a trace, as strace(1)'s options `-s` and `-e` say.
#[derive(Clone, Copy, Debug, PartialEq, Eq, Hash)]
pub struct Show {
    /// How many bytes of a string or of a buffer, and how many entries of an array, are printed at most; dots stand for
    /// the rest.
    pub limit: u32,
    /// The system calls whose calls are printed. Signals and deaths always are.
    pub calls: CallSet,
}
