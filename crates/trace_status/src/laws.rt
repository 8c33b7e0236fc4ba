//! Laws of the definitions: each function is its contract alone.

ghost use Rattle.std.specs.Prelude.{◌≡◌, ℕ, ◌+◌, length};
ghost use Rattle.trace_status.specs.SyscallInfo.{AreInPlace, info_bytes, layout};
ghost use Rattle.trace_status.specs.declared.syscall_info.SyscallInfo.{SyscallInfo};
ghost use Rattle.trace_status.specs.WaitStatus.{Encodes, pid_of};
ghost use Rattle.trace_status.specs.declared.wait_status.TheConstants.{CORE_DUMPED, SIGTRAP, STOPPED, SYSCALL_TRAP};
ghost use Rattle.trace_status.specs.declared.wait_status.WaitStatus.{WaitStatus};

/// The status relation is one to one: a status has one raw value, and a raw value is that of one status of each
/// tracee.
pub fn one_to_one()
    ensures raw { (status : WaitStatus) (a b : ℕ) → Encodes status a → Encodes status b → a ≡ b }
    ensures status { (a b : WaitStatus) (raw : ℕ) →
        pid_of a ≡ pid_of b → Encodes a raw → Encodes b raw → a ≡ b }
{}

/// The fields of a syscall information's layout lie behind one another from its first byte to its last.
pub fn fields_are_in_place()
    ensures { (info : SyscallInfo) → AreInPlace 0 (layout info) (length (info_bytes info)) }
{}

/// The numbers of a wait status: the low byte of a stop and the bit of a core dump (`<bits/waitstatus.h>`), SIGTRAP
/// (signal(7)), and the signal of a syscall-stop, which is SIGTRAP with bit 7 set (ptrace(2), PTRACE_O_TRACESYSGOOD).
pub fn numbers_are_fixed()
    ensures stopped { STOPPED ≡ 0x7f }
    ensures core { CORE_DUMPED ≡ 0x80 }
    ensures trap { SIGTRAP ≡ 5 }
    ensures call { SYSCALL_TRAP ≡ 5 + 0x80 }
{}
