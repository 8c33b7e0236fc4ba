//! The registers of x86-64, with the names and the order of the kernel's `user_regs_struct`.

ghost use Rattle.std.specs.Prelude.{◌≡◌};
ghost use Rattle.std.specs.Int.{w64, cast_signed};
ghost use Rattle.trace_regs.specs.Outcome.{Tells};

use crate::layout::{read_words, write_words};
use crate::outcome::Outcome;

/// The general registers of a stopped tracee (ptrace(2), `PTRACE_GETREGS`; `struct user_regs_struct` of
/// `<sys/user.h>`).
#[derive(Clone, Copy, Debug, Default, PartialEq, Eq, Hash)]
pub struct Regs {
    pub r15: u64,
    pub r14: u64,
    pub r13: u64,
    pub r12: u64,
    pub rbp: u64,
    pub rbx: u64,
    pub r11: u64,
    pub r10: u64,
    pub r9: u64,
    pub r8: u64,
    /// The result of a system call, at its syscall-exit-stop.
    pub rax: u64,
    pub rcx: u64,
    pub rdx: u64,
    pub rsi: u64,
    pub rdi: u64,
    /// The number of the system call.
    pub orig_rax: u64,
    /// The instruction pointer.
    pub rip: u64,
    pub cs: u64,
    pub eflags: u64,
    /// The stack pointer.
    pub rsp: u64,
    pub ss: u64,
    pub fs_base: u64,
    pub gs_base: u64,
    pub ds: u64,
    pub es: u64,
    pub fs: u64,
    pub gs: u64,
}

impl Regs {
    ghost use Rattle.trace_regs.specs.Regs.{AreWords, arguments_of, bytes_of, words_of};
    ghost use Rattle.trace_regs.specs.declared.regs.Regs.{Regs};

    /// The number of the system call (syscall(2): `orig_rax` keeps it while `rax` takes the result).
    pub fn nr(&self) -> u64
        ensures { result ≡ self.now.orig_rax }
    {
        self.orig_rax
    }

    /// The arguments of the system call, first to sixth (syscall(2), "Architecture calling conventions").
    pub fn args(&self) -> [u64; 6]
        ensures { result ≡ arguments_of self.now }
    {
        [self.rdi, self.rsi, self.rdx, self.r10, self.r8, self.r9]
    }

    /// The outcome of the system call: `rax` as a signed number is an error's negated number from -4095 to -1, and
    /// else the value.
    pub fn result(&self) -> Outcome
        ensures { Tells (cast_signed w64 self.now.rax) result }
    {
        let value = self.rax.cast_signed();
        if (-4095..0).contains(&value) {
            Outcome::Errno((-value) as u16)
        } else {
            Outcome::Value(value)
        }
    }

    /// The 216 bytes of `user_regs_struct`: the registers in order, each little-endian.
    pub fn to_bytes(&self) -> [u8; 216]
        ensures { result ≡ bytes_of self.now }
    {
        write_words(&self.to_words())
    }

    /// The registers that 216 bytes tell. It undoes `to_bytes`, and `to_bytes` undoes it.
    pub fn from_bytes(bytes: &[u8; 216]) -> Regs
        ensures told { bytes_of result ≡ bytes.now }
        ensures each { (regs : Regs) → AreWords regs → bytes_of regs ≡ bytes.now → result ≡ regs }
    {
        Regs::from_words(&read_words(bytes))
    }

    fn to_words(&self) -> [u64; 27]
        ensures { result ≡ words_of self.now }
    {
        [
            self.r15,
            self.r14,
            self.r13,
            self.r12,
            self.rbp,
            self.rbx,
            self.r11,
            self.r10,
            self.r9,
            self.r8,
            self.rax,
            self.rcx,
            self.rdx,
            self.rsi,
            self.rdi,
            self.orig_rax,
            self.rip,
            self.cs,
            self.eflags,
            self.rsp,
            self.ss,
            self.fs_base,
            self.gs_base,
            self.ds,
            self.es,
            self.fs,
            self.gs,
        ]
    }

    fn from_words(words: &[u64; 27]) -> Regs
        ensures { words_of result ≡ words.now }
    {
        Regs {
            r15: words[0],
            r14: words[1],
            r13: words[2],
            r12: words[3],
            rbp: words[4],
            rbx: words[5],
            r11: words[6],
            r10: words[7],
            r9: words[8],
            r8: words[9],
            rax: words[10],
            rcx: words[11],
            rdx: words[12],
            rsi: words[13],
            rdi: words[14],
            orig_rax: words[15],
            rip: words[16],
            cs: words[17],
            eflags: words[18],
            rsp: words[19],
            ss: words[20],
            fs_base: words[21],
            gs_base: words[22],
            ds: words[23],
            es: words[24],
            fs: words[25],
            gs: words[26],
        }
    }
}
