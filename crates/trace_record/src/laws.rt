//! Laws of the definitions: each function is its contract alone.

ghost use Rattle.std.specs.Prelude.{◌≡◌, ℕ};
ghost use Rattle.trace_status.specs.WaitStatus.{Encodes};
ghost use Rattle.trace_record.specs.Death.{IsDeath, death_status, death_wait_status};
ghost use Rattle.trace_record.specs.Stop.{IsStop, stop_status, stop_wait_status};
ghost use Rattle.trace_record.specs.declared.death.Death.{Death};
ghost use Rattle.trace_record.specs.declared.stop.Stop.{Stop};
ghost use Rattle.trace_record.specs.declared.stop_record.TheConstants.{AUDIT_ARCH_X86_64};

/// The raw value of each stop and of each death encodes the status that its name says. By what
/// `trace_status::decode` ensures, it decodes to that status.
pub fn statuses_are_encoded()
    ensures stops { (pid : ℕ) (stop : Stop) →
        IsStop stop → Encodes (stop_wait_status pid stop) (stop_status stop) }
    ensures deaths { (pid : ℕ) (death : Death) →
        IsDeath death → Encodes (death_wait_status pid death) (death_status death) }
{}

/// No two deaths that a tracee can have are reported by one raw value.
pub fn a_status_reports_one_death()
    ensures { (a b : Death) → IsDeath a → IsDeath b → death_status a ≡ death_status b → a ≡ b }
{}

/// The architecture that the syscall information of each stop names (`<linux/audit.h>`, AUDIT_ARCH_X86_64: the ELF
/// machine 62, with the bits for 64-bit and for little-endian).
pub fn numbers_are_fixed()
    ensures { AUDIT_ARCH_X86_64 ≡ 0xC000003E }
{}
