//! The system calls that are known by name, and how their arguments are printed.

ghost use Rattle.std.specs.Prelude.{◌≡◌, ◌==◌, map, find, option_map, bytes_eq};
ghost use Rattle.trace_options.specs.Syscalls.{row_in, syscall_named, syscall_numbered, syscall_row};

use crate::argument_kind::ArgumentKind;
use crate::argument_kind::ArgumentKind::{
    Address, CString, Hexadecimal, InBuffer, InIovecs, Int, Mode, OutBuffer, OutIovecs, Unsigned,
};

/// A system call that is known by name (syscalls(2)).
#[derive(Clone, Copy, Debug, PartialEq, Eq, Hash)]
pub struct Syscall {
    /// Its number on x86-64 (`<asm/unistd_64.h>`).
    pub number: u64,
    /// Its name, that of its manual page.
    pub name: &'static [u8],
    /// How its arguments are printed, the first argument first.
    pub arguments: &'static [ArgumentKind],
}

/// The system calls in the order of their numbers: the number, the name, and how the arguments are printed.
pub(crate) const SYSCALLS: [(u64, &[u8], &[ArgumentKind]); 15] = [
    (0, b"read", &[Int, OutBuffer, Unsigned]),
    (1, b"write", &[Int, InBuffer, Unsigned]),
    (3, b"close", &[Int]),
    (19, b"readv", &[Int, OutIovecs, Unsigned]),
    (20, b"writev", &[Int, InIovecs, Unsigned]),
    (39, b"getpid", &[]),
    (56, b"clone", &[Hexadecimal]),
    (57, b"fork", &[]),
    (59, b"execve", &[CString, Address, Address]),
    (60, b"exit", &[Int]),
    (80, b"chdir", &[CString]),
    (82, b"rename", &[CString, CString]),
    (83, b"mkdir", &[CString, Mode]),
    (84, b"rmdir", &[CString]),
    (87, b"unlink", &[CString]),
];

impl Syscall {
    /// The system call of a number on x86-64, or None where no call that is known by name has it.
    #[tactic(auto, unfolding(crate::specs::Syscalls::syscall_table))]
    pub fn from_number(number: u64) -> Option<Syscall>
        ensures { option_map syscall_row result ≡ syscall_numbered number }
    {
        first_numbered(&SYSCALLS, number)
    }

    /// The system call of a name, or None where no call that is known has this very name.
    #[tactic(auto, unfolding(crate::specs::Syscalls::syscall_table))]
    pub fn from_name(name: &[u8]) -> Option<Syscall>
        ensures { option_map syscall_row result ≡ syscall_named name.now }
    {
        first_named(&SYSCALLS, name)
    }

    /// The call of a row of the table.
    fn from_row(row: &(u64, &'static [u8], &'static [ArgumentKind])) -> Syscall
        ensures { syscall_row result ≡ row_in row.now }
    {
        let (number, name, arguments) = *row;
        Syscall {
            number,
            name,
            arguments,
        }
    }
}

/// The call of the first row with a number.
fn first_numbered(
    mut rows: &[(u64, &'static [u8], &'static [ArgumentKind])],
    number: u64,
) -> Option<Syscall>
    ensures { option_map syscall_row result ≡ find (λ row. row.number == number) (map row_in rows.entry.now) }
{
    while let [row, rest @ ..] = rows {
        if row.0 == number {
            return Some(Syscall::from_row(row));
        }
        rows = rest;
    }
    None
}

/// The call of the first row with a name.
fn first_named(
    mut rows: &[(u64, &'static [u8], &'static [ArgumentKind])],
    name: &[u8],
) -> Option<Syscall>
    ensures { option_map syscall_row result ≡ find (λ row. bytes_eq row.name name.now) (map row_in rows.entry.now) }
{
    while let [row, rest @ ..] = rows {
        if row.1 == name {
            return Some(Syscall::from_row(row));
        }
        rows = rest;
    }
    None
}
