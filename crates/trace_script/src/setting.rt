//! Who is traced, and how.

ghost use Rattle.std.specs.Prelude.{◌≡◌};
ghost use Rattle.trace_script.specs.StepStops.{has_option};

use trace_options::{Filter, Options};

/// A tracee's thread id, and what its tracer asked for (ptrace(2), `PTRACE_SETOPTIONS`; seccomp(2)).
#[derive(Clone, Copy, Debug, PartialEq, Eq)]
pub struct Setting {
    pub tid: u32,
    pub options: Options,
    pub filter: Filter,
}

/// Whether an option is set.
pub(crate) fn has_option(setting: &Setting, option: Options) -> bool
    ensures { result ≡ has_option setting.now option }
{
    setting.options.contains(option)
}
