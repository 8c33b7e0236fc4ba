//! The kinds of arguments of system calls.

/// How an argument of a system call is printed (strace(1)). It is in its own register, the first in `rdi`, the others
/// in `rsi`, `rdx`, `r10`, `r8` and `r9` (syscall(2)).
#[derive(Clone, Copy, Debug, PartialEq, Eq, Hash)]
pub enum ArgumentKind {
    /// A C `int`: the low 32 bits, in signed decimal.
    Int,
    /// A count or a length: 64 bits, in unsigned decimal.
    Unsigned,
    /// Flags: 64 bits, in hexadecimal.
    Hexadecimal,
    /// An address alone: in hexadecimal, or `NULL`.
    Address,
    /// The permissions of a file, a `mode_t`: the low 16 bits, in octal.
    Mode,
    /// The address of a string that ends before a zero byte: the string, in quotes.
    CString,
    /// The address of bytes that go into the call, as many as the third argument says: the bytes, in quotes.
    InBuffer,
    /// The address of bytes that come out of the call, as many as its result says: the bytes, in quotes.
    OutBuffer,
    /// The address of an array of iovecs, as many as the third argument says, whose bytes go into the call.
    InIovecs,
    /// The address of an array of iovecs, as many as the third argument says, whose bytes come out of the call: as
    /// many in all as its result says.
    OutIovecs,
}
