//! The options of a trace.

ghost use Rattle.std.specs.Prelude.{⊤, ◌≡◌, ◌==◌, ◌↔◌, IsSome, IfSome, IsOk, IfErr};
ghost use Rattle.std.specs.Int.RustNames.{bit_and, bit_or};
ghost use Rattle.trace_options.specs.Options.{AreValidOptions, all_options, option_bits, option_table};

use crate::errno::Errno;
use bitflags::{Flag, Flags};

/// A set of options of ptrace(2), `PTRACE_SETOPTIONS`.
#[derive(Clone, Copy, Debug, PartialEq, Eq, Hash)]
pub struct Options(u32);

/// The options with their names.
const FLAGS: &'static [Flag<Options>] = &[
    Flag {
        name: "TRACESYSGOOD",
        value: Options::TRACESYSGOOD,
    },
    Flag {
        name: "TRACEFORK",
        value: Options::TRACEFORK,
    },
    Flag {
        name: "TRACEVFORK",
        value: Options::TRACEVFORK,
    },
    Flag {
        name: "TRACECLONE",
        value: Options::TRACECLONE,
    },
    Flag {
        name: "TRACEEXEC",
        value: Options::TRACEEXEC,
    },
    Flag {
        name: "TRACEVFORKDONE",
        value: Options::TRACEVFORKDONE,
    },
    Flag {
        name: "TRACEEXIT",
        value: Options::TRACEEXIT,
    },
    Flag {
        name: "TRACESECCOMP",
        value: Options::TRACESECCOMP,
    },
];

impl Flags for Options {
    type Bits = u32;

    ghost exact = { ⊤ };

    ghost table = { option_table };

    ghost set_of = { λ options. options.0 };

    fn flags<'a>() -> &'a [Flag<Options>] {
        FLAGS
    }

    fn bits(&self) -> u32 {
        self.0
    }

    fn from_bits_retain(bits: u32) -> Options {
        Options(bits)
    }
}

impl Options {
    /// Syscall-stops are reported apart from those by SIGTRAP.
    pub const TRACESYSGOOD: Options = Options(0x1);
    /// A fork stops its caller, and its child is traced.
    pub const TRACEFORK: Options = Options(0x2);
    /// A vfork stops its caller, and its child is traced.
    pub const TRACEVFORK: Options = Options(0x4);
    /// A clone stops its caller, and its child is traced.
    pub const TRACECLONE: Options = Options(0x8);
    /// An exec stops its caller.
    pub const TRACEEXEC: Options = Options(0x10);
    /// The end of a vfork stops its caller.
    pub const TRACEVFORKDONE: Options = Options(0x20);
    /// An exit stops its caller.
    pub const TRACEEXIT: Options = Options(0x40);
    /// A rule of a seccomp filter stops its caller.
    pub const TRACESECCOMP: Options = Options(0x80);

    /// The options of these bits, or None where a bit has no name.
    pub fn from_bits(bits: u32) -> Option<Options>
        ensures named { IsSome result ↔ (bit_and bits all_options ≡ bits) }
        ensures bits { IfSome result (λ options. option_bits options ≡ bits) }
    {
        <Options as Flags>::from_bits(bits)
    }

    /// The bits of the options.
    pub fn bits(&self) -> u32
        ensures { result ≡ option_bits self.now }
    {
        Flags::bits(self)
    }

    /// Whether each of the other options is among these.
    pub fn contains(&self, other: Options) -> bool
        ensures { result ≡ (bit_and (option_bits self.now) (option_bits other) == option_bits other) }
    {
        Flags::contains(self, other)
    }

    /// Adds the other options to these.
    pub fn insert(&mut self, other: Options)
        ensures { option_bits self.new ≡ bit_or (option_bits self.old) (option_bits other) }
    {
        Flags::insert(self, other);
    }
}

/// Whether a tracer takes these options: TRACESYSGOOD is among them, TRACEFORK and TRACECLONE both or neither, and
/// neither TRACEVFORK nor TRACEVFORKDONE. Otherwise EINVAL.
pub fn check(options: Options) -> Result<(), Errno>
    ensures taken { IsOk result ↔ AreValidOptions (option_bits options) }
    ensures invalid { IfErr result (λ error. error ≡ Errno.EINVAL) }
{
    let follows = options.contains(Options::TRACEFORK) == options.contains(Options::TRACECLONE);
    if options.contains(Options::TRACESYSGOOD)
        && !options.contains(Options::TRACEVFORK)
        && !options.contains(Options::TRACEVFORKDONE)
        && follows
    {
        Ok(())
    } else {
        Err(Errno::EINVAL)
    }
}
