//! The flags of a wait.

ghost use Rattle.std.specs.Prelude.{⊤, ◌≡◌, ◌==◌, ◌↔◌, IsSome, IfSome};
ghost use Rattle.std.specs.Int.RustNames.{bit_and, bit_or};
ghost use Rattle.trace_options.specs.WaitFlags.{all_wait_flags, wait_flag_bits, wait_flag_table};

use bitflags::{Flag, Flags};

/// A set of the flags that waitid(2) and waitpid(2) take.
#[derive(Clone, Copy, Debug, PartialEq, Eq, Hash)]
pub struct WaitFlags(u32);

/// The flags with their names. WUNTRACED and WSTOPPED are one bit.
const FLAGS: &'static [Flag<WaitFlags>] = &[
    Flag {
        name: "WNOHANG",
        value: WaitFlags::WNOHANG,
    },
    Flag {
        name: "WUNTRACED",
        value: WaitFlags::WUNTRACED,
    },
    Flag {
        name: "WSTOPPED",
        value: WaitFlags::WSTOPPED,
    },
    Flag {
        name: "WEXITED",
        value: WaitFlags::WEXITED,
    },
    Flag {
        name: "WCONTINUED",
        value: WaitFlags::WCONTINUED,
    },
    Flag {
        name: "WNOWAIT",
        value: WaitFlags::WNOWAIT,
    },
    Flag {
        name: "WALL",
        value: WaitFlags::WALL,
    },
];

impl Flags for WaitFlags {
    type Bits = u32;

    ghost exact = { ⊤ };

    ghost table = { wait_flag_table };

    ghost set_of = { λ flags. flags.0 };

    fn flags<'a>() -> &'a [Flag<WaitFlags>] {
        FLAGS
    }

    fn bits(&self) -> u32 {
        self.0
    }

    fn from_bits_retain(bits: u32) -> WaitFlags {
        WaitFlags(bits)
    }
}

impl WaitFlags {
    /// Answer at once where there is nothing to report.
    pub const WNOHANG: WaitFlags = WaitFlags(1);
    /// waitpid(2): report stops.
    pub const WUNTRACED: WaitFlags = WaitFlags(2);
    /// waitid(2): report stops. It is the bit of WUNTRACED.
    pub const WSTOPPED: WaitFlags = WaitFlags(2);
    /// waitid(2): report deaths.
    pub const WEXITED: WaitFlags = WaitFlags(4);
    /// Report continued children.
    pub const WCONTINUED: WaitFlags = WaitFlags(8);
    /// Leave what is reported waitable.
    pub const WNOWAIT: WaitFlags = WaitFlags(0x0100_0000);
    /// Wait for children of any kind (Linux).
    pub const WALL: WaitFlags = WaitFlags(0x4000_0000);

    /// The flags of these bits, or None where a bit has no name.
    pub fn from_bits(bits: u32) -> Option<WaitFlags>
        ensures named { IsSome result ↔ (bit_and bits all_wait_flags ≡ bits) }
        ensures bits { IfSome result (λ flags. wait_flag_bits flags ≡ bits) }
    {
        <WaitFlags as Flags>::from_bits(bits)
    }

    /// The bits of the flags.
    pub fn bits(&self) -> u32
        ensures { result ≡ wait_flag_bits self.now }
    {
        Flags::bits(self)
    }

    /// Whether each of the other flags is among these.
    pub fn contains(&self, other: WaitFlags) -> bool
        ensures { result ≡ (bit_and (wait_flag_bits self.now) (wait_flag_bits other) == wait_flag_bits other) }
    {
        Flags::contains(self, other)
    }

    /// Adds the other flags to these.
    pub fn insert(&mut self, other: WaitFlags)
        ensures { wait_flag_bits self.new ≡ bit_or (wait_flag_bits self.old) (wait_flag_bits other) }
    {
        Flags::insert(self, other);
    }
}
