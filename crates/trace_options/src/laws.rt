//! Laws of the tables: each function is its contract alone.

ghost use Rattle.std.specs.Prelude.{◌≡◌, ℕ, List, IfSome, Some, length, map, reverse, slice_get};
ghost use Rattle.std.specs.List.{range_with_len};
ghost use Rattle.std.specs.List.Sorted.{IsStrictlyIncreasing};
ghost use Rattle.trace_options.specs.declared.call_set.TheConstants.{NAMED_CALLS};
ghost use Rattle.trace_options.specs.declared.signal.TheConstants.{LAST_SIGNAL};
ghost use Rattle.trace_options.specs.ErrorNames.{error_table};
ghost use Rattle.trace_options.specs.SignalNames.{signal_table};
ghost use Rattle.trace_options.specs.Syscalls.{syscall_named, syscall_numbered, syscall_table};

/// The numbers of the system calls rise, and no two calls share a name: the look-ups by number and by name are
/// inverse.
pub fn syscalls_are_one_to_one()
    ensures rising { IsStrictlyIncreasing (map (λ call. call.number) syscall_table) }
    ensures by_name { (number : ℕ) →
        IfSome (syscall_numbered number) (λ call. syscall_named call.name ≡ Some call) }
    ensures by_number { (name : List ℕ) →
        IfSome (syscall_named name) (λ call. syscall_numbered call.number ≡ Some call) }
{}

/// The numbers of the errors rise, so each has one name.
pub fn errors_rise()
    ensures { IsStrictlyIncreasing (map (λ row. row.0) error_table) }
{}

/// The signals that have a name are the numbers 1 to 31.
pub fn signals_have_names()
    ensures { map (λ row. row.0) signal_table ≡ range_with_len 1 31 }
{}

/// The numbers that the definitions take from the program's constants: the last signal (signal(7), the last real-time
/// one), how many calls a set names, the numbers of the first and the last call that is known by name
/// (`<asm/unistd_64.h>`), and those of the first and the last error that is (`<asm-generic/errno.h>`).
pub fn numbers_are_fixed()
    ensures signal { LAST_SIGNAL ≡ 64 }
    ensures set { NAMED_CALLS ≡ 128 }
    ensures calls { length syscall_table ≡ 15 }
    ensures first_call { slice_get (map (λ call. call.number) syscall_table) 0 ≡ Some 0 }
    ensures last_call { slice_get (reverse (map (λ call. call.number) syscall_table)) 0 ≡ Some 87 }
    ensures errors { length error_table ≡ 24 }
    ensures first_error { slice_get (map (λ row. row.0) error_table) 0 ≡ Some 1 }
    ensures last_error { slice_get (reverse (map (λ row. row.0) error_table)) 0 ≡ Some 39 }
{}
