//! How a signal is printed (signal(7)).

ghost use Rattle.std.specs.Prelude.{◌≡◌, ◌++◌, OnOk};
ghost use Rattle.record_printer.specs.SignalText.{signal_text};

use itoa::Buffer;
use std::alloc::Allocator;
use trace_options::{NoMemory, signal_name};

/// Writes a signal by its name, or as `SIG_` and its number where it has none.
pub(crate) fn write_signal<A: Allocator>(text: &mut Vec<u8, A>, signal: u8) -> Result<(), NoMemory>
    ensures { OnOk result (text.new.items ≡ text.old.items ++ signal_text signal) }
{
    match signal_name(signal) {
        Some(name) => text.extend_from_slice(name)?,
        None => {
            let mut buffer = Buffer::new();
            text.extend_from_slice(b"SIG_")?;
            text.extend_from_slice(buffer.format(signal).as_bytes())?;
        }
    }
    Ok(())
}
