//! What a claim got, in numbers.

ghost use Rattle.std.specs.Prelude.{◌≡◌};
ghost use Rattle.c_interface.specs.Got.{got_numbers};

use stop_board::Got;

/// `struct pukzarn_got`: what a claim got.
#[repr(C)]
#[derive(Clone, Copy, Debug, PartialEq, Eq)]
pub struct CGot {
    /// The number of the stop, for a death that of the last stop.
    pub number: u32,
    /// The raw wait status.
    pub status: u32,
    /// 1: a death, which is reaped; 0: a stop.
    pub death: u32,
}

impl CGot {
    /// The numbers of what a claim got.
    pub fn of(got: Got) -> CGot
        ensures { result ≡ got_numbers got }
    {
        let (number, status, death) = match got {
            Got::Stop(number, status) => (number, status, 0),
            Got::Ended(number, status) => (number, status, 1),
        };
        CGot {
            number,
            status,
            death,
        }
    }
}
