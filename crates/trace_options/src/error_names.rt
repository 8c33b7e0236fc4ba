//! The errors that are printed by name (errno(3)).

ghost use Rattle.std.specs.Prelude.{◌≡◌};
ghost use Rattle.std.specs.Option.{option_copied};
ghost use Rattle.trace_options.specs.ErrorNames.{error_name};

use crate::names::name_in;

/// The errors by number, with their names (errno(3); the numbers are Linux's, `<asm-generic/errno-base.h>` and
/// `<asm-generic/errno.h>`).
pub(crate) const ERRORS: [(u16, &[u8]); 24] = [
    (1, b"EPERM"),
    (2, b"ENOENT"),
    (3, b"ESRCH"),
    (4, b"EINTR"),
    (5, b"EIO"),
    (7, b"E2BIG"),
    (8, b"ENOEXEC"),
    (9, b"EBADF"),
    (10, b"ECHILD"),
    (11, b"EAGAIN"),
    (12, b"ENOMEM"),
    (13, b"EACCES"),
    (14, b"EFAULT"),
    (16, b"EBUSY"),
    (17, b"EEXIST"),
    (20, b"ENOTDIR"),
    (21, b"EISDIR"),
    (22, b"EINVAL"),
    (24, b"EMFILE"),
    (28, b"ENOSPC"),
    (30, b"EROFS"),
    (32, b"EPIPE"),
    (38, b"ENOSYS"),
    (39, b"ENOTEMPTY"),
];

/// The name of the error of a number (errno(3)), or None where the table has no such row: that error is printed by its
/// number.
#[tactic(auto, unfolding(crate::specs::ErrorNames::error_table))]
pub fn error_name(number: u16) -> Option<&'static [u8]>
    ensures { option_copied result ≡ error_name number }
{
    name_in(&ERRORS, number)
}
