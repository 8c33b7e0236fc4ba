//! Why a file is refused.

ghost use Rattle.std.specs.Prelude.{◌≡◌};

use std::fmt;
use stop_history::RosterError;
use text_lines::LineFault;

/// What is wrong with a line, in the order in which a line is tested.
#[derive(Clone, Copy, Debug, PartialEq, Eq, Hash)]
pub enum Cause {
    /// The first word is unknown or out of place, a keyword is wrong, there are too few or too many words.
    UnknownWord,
    /// A word is not a number, or the number is out of range.
    BadNumber,
    /// A word is not hexadecimal bytes.
    BadHex,
    /// No tracee has this id.
    NoSuchTracee,
    /// An earlier tracee has this id.
    TwiceTracee,
    /// No earlier tracee is the parent.
    ParentLater,
    /// The groups are not those of a root, or of a child of this parent.
    GroupMismatch,
    /// An exec in a thread group that has other rows.
    SharedExec,
    /// There are too many rows, steps, pages or bytes.
    TooMany,
    /// Bytes at an address without a page.
    Unmapped,
    /// The file ends inside a block.
    NoEnd,
    /// No signal that a tracee of a case can get.
    Signal,
    /// A birth that does not name the next child.
    ChildOrder,
    /// A growth was refused.
    NoMemory,
}

/// The cause that a fault of a line is reported as.
impl From<LineFault> for Cause {
    ghost use Rattle.trace_script.specs.Cause.{line_cause};

    ghost from_gives = { λ fault e. e ≡ line_cause fault };

    fn from(fault: LineFault) -> Cause {
        match fault {
            LineFault::UnknownWord => Cause::UnknownWord,
            LineFault::BadNumber => Cause::BadNumber,
            LineFault::BadHex => Cause::BadHex,
        }
    }
}

/// The cause that a fault of a roster is reported as.
impl From<RosterError> for Cause {
    ghost use Rattle.trace_script.specs.Cause.{cause_of};

    ghost from_gives = { λ fault e. e ≡ cause_of fault };

    fn from(fault: RosterError) -> Cause {
        match fault {
            RosterError::TooMany => Cause::TooMany,
            RosterError::Number(_) => Cause::BadNumber,
            RosterError::Twice(_) => Cause::TwiceTracee,
            RosterError::ParentLater(_) => Cause::ParentLater,
            RosterError::GroupMismatch(_) => Cause::GroupMismatch,
            RosterError::NoMemory => Cause::NoMemory,
        }
    }
}

impl Cause {
    ghost use Rattle.trace_script.specs.Cause.{cause_name};

    /// The cause's name, as it is printed.
    pub fn name(self) -> &'static str
        ensures { result.now ≡ cause_name self }
    {
        match self {
            Cause::UnknownWord => "UnknownWord",
            Cause::BadNumber => "BadNumber",
            Cause::BadHex => "BadHex",
            Cause::NoSuchTracee => "NoSuchTracee",
            Cause::TwiceTracee => "TwiceTracee",
            Cause::ParentLater => "ParentLater",
            Cause::GroupMismatch => "GroupMismatch",
            Cause::SharedExec => "SharedExec",
            Cause::TooMany => "TooMany",
            Cause::Unmapped => "Unmapped",
            Cause::NoEnd => "NoEnd",
            Cause::Signal => "Signal",
            Cause::ChildOrder => "ChildOrder",
            Cause::NoMemory => "NoMemory",
        }
    }
}

impl fmt::Display for Cause {
    ghost use Rattle.std.specs.Prelude.{Some};
    ghost use Rattle.trace_script.specs.Cause.{cause_name};

    ghost output = { λ cause. Some (cause_name cause) };

    fn fmt<W: fmt::Write>(&self, f: &mut fmt::Formatter<W>) -> fmt::Result {
        f.write_str(self.name())
    }
}

/// Why a file is refused, and the line of it, from 1.
#[derive(Clone, Copy, Debug, PartialEq, Eq, Hash)]
pub struct CaseError {
    pub line: u32,
    pub cause: Cause,
}

impl fmt::Display for CaseError {
    ghost use Rattle.std.specs.Prelude.{Some};
    ghost use Rattle.trace_script.specs.CaseError.{case_error_text};

    ghost output = { λ error. Some (case_error_text error) };

    fn fmt<W: fmt::Write>(&self, f: &mut fmt::Formatter<W>) -> fmt::Result {
        let line = self.line;
        let cause = self.cause.name();
        write!(f, "line {line}: {cause}")
    }
}

impl std::error::Error for CaseError {}
