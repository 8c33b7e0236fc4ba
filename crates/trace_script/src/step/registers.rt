//! The registers of a scripted tracee.

ghost use Rattle.std.specs.Prelude.{◌≡◌};
ghost use Rattle.trace_script.specs.Registers.{first_regs, with_answer, with_call, with_start};

use trace_regs::Regs;

/// `orig_rax` where no call is underway.
const NO_CALL: u64 = u64::MAX;

/// How many bytes the instruction `syscall` has.
const SYSCALL_BYTES: u64 = 2;

/// The negated error that `rax` holds until a call has an answer (errno(3), `ENOSYS`).
const NO_ANSWER: i64 = -38;

/// The registers of a program that has just been loaded.
pub(crate) fn first_regs(rip: u64, rsp: u64) -> Regs
    ensures { result ≡ first_regs rip rsp }
{
    Regs {
        orig_rax: NO_CALL,
        rip,
        rsp,
        ..Regs::default()
    }
}

/// The registers at the entry to a system call (syscall(2)): its number, its arguments, and no answer yet.
pub(crate) fn with_call(nr: u64, args: &[u64; 6], regs: &Regs) -> Regs
    ensures { result ≡ with_call nr args.now regs.now }
{
    Regs {
        orig_rax: nr,
        rdi: args[0],
        rsi: args[1],
        rdx: args[2],
        r10: args[3],
        r8: args[4],
        r9: args[5],
        rax: NO_ANSWER.cast_unsigned(),
        rip: regs.rip.wrapping_add(SYSCALL_BYTES),
        ..*regs
    }
}

/// The registers with the answer of a system call.
pub(crate) fn with_answer(answer: u64, regs: &Regs) -> Regs
    ensures { result ≡ with_answer answer regs.now }
{
    Regs {
        rax: answer,
        ..*regs
    }
}

/// The registers at the start of another program: all but two stay.
pub(crate) fn with_start(rip: u64, rsp: u64, regs: &Regs) -> Regs
    ensures { result ≡ with_start rip rsp regs.now }
{
    Regs { rip, rsp, ..*regs }
}
