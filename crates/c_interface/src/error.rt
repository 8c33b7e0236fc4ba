//! The errors that a call answers.

ghost use Rattle.std.specs.Prelude.{◌≡◌};
ghost use Rattle.c_interface.specs.Error.{error_number, error_of};

use stop_board::Refused;

/// Why a call refused: the errors of errno(3) that calls for C answer. What each means is said at the calls.
#[derive(Clone, Copy, Debug, PartialEq, Eq, Hash)]
pub enum Error {
    /// Another tracer has claimed the stop.
    EPERM,
    /// Nobody, or not this tracer, has claimed the tracee's stop; the tracee is not in hand.
    ESRCH,
    /// The signal is above 64; a byte is not mapped.
    EIO,
    /// The handle is closed, or of another kind.
    EBADF,
    /// The tracee is not born; there is no child to wait for.
    ECHILD,
    /// There is nothing yet.
    EAGAIN,
    /// A growth was refused.
    ENOMEM,
    /// A script stores to what is not mapped.
    EFAULT,
    /// The handle is open; other rows of a leader's thread group are alive.
    EBUSY,
    /// The page is mapped already.
    EEXIST,
    /// An argument that the call does not take.
    EINVAL,
    /// There is no room for another page.
    ENOSPC,
    /// The tracee has made its last possible stop.
    EOVERFLOW,
    /// The tracee does not run, or is in hand already, or has ended.
    EALREADY,
}

impl Error {
    /// Its number (errno(3), `<asm-generic/errno-base.h>`, `<asm-generic/errno.h>`), 1 to 114.
    pub fn number(self) -> u16
        ensures { result ≡ error_number self }
    {
        match self {
            Error::EPERM => 1,
            Error::ESRCH => 3,
            Error::EIO => 5,
            Error::EBADF => 9,
            Error::ECHILD => 10,
            Error::EAGAIN => 11,
            Error::ENOMEM => 12,
            Error::EFAULT => 14,
            Error::EBUSY => 16,
            Error::EEXIST => 17,
            Error::EINVAL => 22,
            Error::ENOSPC => 28,
            Error::EOVERFLOW => 75,
            Error::EALREADY => 114,
        }
    }
}

/// The error of a refusal of the board.
pub(crate) fn error_of(refused: Refused) -> Error
    ensures { result ≡ error_of refused }
{
    match refused {
        Refused::NoRow | Refused::NotNext => Error::EINVAL,
        Refused::Unborn => Error::ECHILD,
        Refused::NotRunning | Refused::NotTaken => Error::EALREADY,
        Refused::Full => Error::EOVERFLOW,
        Refused::NotWaitable => Error::EAGAIN,
        Refused::NotClaimed => Error::ESRCH,
        Refused::NotHolder => Error::EPERM,
        Refused::GroupAlive(_) => Error::EBUSY,
    }
}
