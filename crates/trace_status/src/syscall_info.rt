//! The information of a stop that `PTRACE_GET_SYSCALL_INFO` gives, and its layout.
//!
//! All numbers are little-endian. The first byte is the op, which says which part follows the head:
//! - the head has the op, three bytes of padding, the architecture, the instruction and the stack pointer;
//! - an entry has the number of the system call and its six arguments, an exit its result and whether that is an
//!   error, a seccomp stop what an entry has and the filter's return data; at any other stop nothing follows.
//!
//! Not here: where the numbers come from, and whether `is_error` fits the result.

ghost use Rattle.std.specs.Prelude.{◌≡◌, ◌+◌, ◌<◌, ◌≤◌, ◌^◌, ℕ, List, [], ◌∷◌, ◌++◌};
ghost use Rattle.std.specs.Prelude.{IfSome, Some, All, length, take, drop, slice_range};
ghost use Rattle.std.specs.Int.{w32, w64, cast_unsigned, to_le_bytes};
ghost use Rattle.std.specs.List.{flat_map};
ghost use Rattle.trace_status.specs.SyscallInfo.{AreArguments, IsInfo, FitsU64, info_bytes};
ghost use Rattle.trace_status.specs.declared.syscall_info.SyscallInfo.{SyscallInfo};

use crate::draft::{InfoDraft, LONGEST};

/// What `PTRACE_GET_SYSCALL_INFO` gives of a stop (ptrace(2), `struct ptrace_syscall_info`).
#[derive(Clone, Copy, Debug, PartialEq, Eq, Hash)]
pub struct SyscallInfo {
    /// The architecture of the tracee (`AUDIT_ARCH_*`).
    pub arch: u32,
    /// The instruction pointer.
    pub ip: u64,
    /// The stack pointer.
    pub sp: u64,
    /// What the kind of the stop adds.
    pub part: Part,
}

/// What the kind of a stop adds to the information.
#[derive(Clone, Copy, Debug, PartialEq, Eq, Hash)]
pub enum Part {
    /// Nothing: a stop at no system call (`PTRACE_SYSCALL_INFO_NONE`).
    Quiet,
    /// The call that is entered (`PTRACE_SYSCALL_INFO_ENTRY`).
    Entry {
        nr: u64,
        args: [u64; 6],
    },
    /// What the call answered, and whether that is an error (`PTRACE_SYSCALL_INFO_EXIT`).
    Exit {
        rval: i64,
        is_error: bool,
    },
    /// The call at which the filter stopped, and the data that it gave (`PTRACE_SYSCALL_INFO_SECCOMP`).
    Seccomp {
        nr: u64,
        args: [u64; 6],
        ret_data: u32,
    },
}

impl SyscallInfo {
    /// Writes the layout, cut to the buffer, and answers its full length. Bytes of the buffer beyond the layout stay.
    pub fn write_to(&self, buffer: &mut [u8]) -> usize
        ensures full { result ≡ length (info_bytes self.now) }
        ensures written { buffer.new ≡
            take (length buffer.old) (info_bytes self.now) ++ drop (length (info_bytes self.now)) buffer.old }
    {
        let draft = self.draft();
        let bytes = draft.as_slice();
        let cut = bytes.len().min(buffer.len());
        buffer[..cut].copy_from_slice(&bytes[..cut]);
        bytes.len()
    }

    /// The information of a whole layout, or None where the bytes are no layout: their length is not that of the op,
    /// the padding is not zero, or `is_error` is neither 0 nor 1.
    pub fn read(bytes: &[u8]) -> Option<SyscallInfo>
        ensures told { IfSome result (λ info. info_bytes info ≡ bytes.now) }
        ensures each { (info : SyscallInfo) → IsInfo info → info_bytes info ≡ bytes.now → result ≡ Some info }
    {
        let info = fields_at(bytes)?;
        if info.draft().as_slice() == bytes {
            Some(info)
        } else {
            None
        }
    }

    /// The bytes of the layout.
    fn draft(&self) -> InfoDraft
        ensures { result ≡ info_bytes self.now }
    {
        let mut draft = InfoDraft::new();
        draft.push(&[self.part.op(), 0, 0, 0]);
        draft.push(&self.arch.to_le_bytes());
        draft.push_word(self.ip);
        draft.push_word(self.sp);
        match &self.part {
            Part::Quiet => {}
            Part::Entry { nr, args } => push_call(&mut draft, *nr, args),
            Part::Exit { rval, is_error } => {
                push_result(&mut draft, rval);
                draft.push(&[u8::from(*is_error)]);
            }
            Part::Seccomp { nr, args, ret_data } => {
                push_call(&mut draft, *nr, args);
                draft.push(&ret_data.to_le_bytes());
            }
        }
        draft
    }
}

impl Part {
    ghost use Rattle.trace_status.specs.SyscallInfo.{op_of};

    /// The op (`PTRACE_SYSCALL_INFO_*`).
    fn op(&self) -> u8
        ensures { result ≡ op_of self.now }
    {
        match self {
            Part::Quiet => 0,
            Part::Entry { .. } => 1,
            Part::Exit { .. } => 2,
            Part::Seccomp { .. } => 3,
        }
    }
}

ghost use Rattle.trace_status.specs.SyscallInfo.{call_layout, field_bytes};

/// Puts the number of a system call and its arguments behind the bytes.
fn push_call(draft: &mut InfoDraft, nr: u64, args: &[u64; 6])
    requires { length draft.old ≡ 24 }
    ensures { draft.new ≡ draft.old ++ flat_map field_bytes (call_layout nr args.now) }
{
    draft.push_word(nr);
    draft.push_word(args[0]);
    draft.push_word(args[1]);
    draft.push_word(args[2]);
    draft.push_word(args[3]);
    draft.push_word(args[4]);
    draft.push_word(args[5]);
}

/// Puts the result of a system call behind the bytes.
fn push_result(draft: &mut InfoDraft, rval: &i64)
    requires { length draft.old + 8 ≤ LONGEST }
    ensures { draft.new ≡ draft.old ++ to_le_bytes w64 (cast_unsigned w64 rval.now) }
{
    draft.push_word(rval.cast_unsigned());
}

/// The information in the fields of bytes that have the length of a layout, whatever their op and padding are.
fn fields_at(bytes: &[u8]) -> Option<SyscallInfo>
    ensures { (info : SyscallInfo) → IsInfo info → info_bytes info ≡ bytes.now → result ≡ Some info }
{
    let part = part_at(bytes)?;
    Some(SyscallInfo {
        arch: half_at(bytes, 4),
        ip: word_at(bytes, 8),
        sp: word_at(bytes, 16),
        part,
    })
}

/// The part in bytes that have the length of a layout: no two parts have one length.
fn part_at(bytes: &[u8]) -> Option<Part>
    ensures long { IfSome result (λ part. 24 ≤ length bytes.now) }
    ensures each { (info : SyscallInfo) → IsInfo info → info_bytes info ≡ bytes.now → result ≡ Some info.part }
{
    match bytes.len() {
        24 => Some(Part::Quiet),
        80 => Some(Part::Entry {
            nr: word_at(bytes, 24),
            args: args_at(bytes),
        }),
        33 => Some(Part::Exit {
            rval: word_at(bytes, 24).cast_signed(),
            is_error: bytes[32] == 1,
        }),
        84 => Some(Part::Seccomp {
            nr: word_at(bytes, 24),
            args: args_at(bytes),
            ret_data: half_at(bytes, 80),
        }),
        _ => None,
    }
}

/// The six arguments of a system call.
fn args_at(bytes: &[u8]) -> [u64; 6]
    requires { 80 ≤ length bytes.now }
    ensures { (args : List ℕ) → AreArguments args →
        flat_map (to_le_bytes w64) args ≡ slice_range bytes.now 32 80 → result ≡ args }
{
    [
        word_at(bytes, 32),
        word_at(bytes, 40),
        word_at(bytes, 48),
        word_at(bytes, 56),
        word_at(bytes, 64),
        word_at(bytes, 72),
    ]
}

/// The word of eight bytes from a place on.
fn word_at(bytes: &[u8], at: usize) -> u64
    requires { at + 8 ≤ length bytes.now }
    ensures { (word : ℕ) → FitsU64 word → to_le_bytes w64 word ≡ slice_range bytes.now at (at + 8) → result ≡ word }
{
    let mut word = [0; 8];
    word.copy_from_slice(&bytes[at..at + 8]);
    u64::from_le_bytes(word)
}

/// The word of four bytes from a place on.
fn half_at(bytes: &[u8], at: usize) -> u32
    requires { at + 4 ≤ length bytes.now }
    ensures { (half : ℕ) → half < 2 ^ 32 → to_le_bytes w32 half ≡ slice_range bytes.now at (at + 4) → result ≡ half }
{
    let mut half = [0; 4];
    half.copy_from_slice(&bytes[at..at + 4]);
    u32::from_le_bytes(half)
}
