//! The line of a death (strace(1)).

ghost use Rattle.std.specs.Prelude.{◌≡◌, ◌++◌, OnOk};
ghost use Rattle.record_printer.specs.DeathLine.{core_text, death_text, end_text};

use crate::text::signal::write_signal;
use itoa::Buffer;
use std::alloc::Allocator;
use trace_options::NoMemory;
use trace_record::Death;

/// Writes the line of the death of a thread, with its line feed.
pub(crate) fn write_death<A: Allocator>(
    text: &mut Vec<u8, A>,
    tid: u32,
    death: Death,
) -> Result<(), NoMemory>
    ensures { OnOk result (text.new.items ≡ text.old.items ++ death_text tid death) }
{
    let mut buffer = Buffer::new();
    text.extend_from_slice(buffer.format(tid).as_bytes())?;
    write_end(text, death)?;
    text.extend_from_slice(b" +++\n")?;
    Ok(())
}

fn write_end<A: Allocator>(text: &mut Vec<u8, A>, death: Death) -> Result<(), NoMemory>
    ensures { OnOk result (text.new.items ≡ text.old.items ++ end_text death) }
{
    match death {
        Death::Exited(code) => write_exit(text, code),
        Death::Signaled { signal, core } => write_kill(text, signal, core),
    }
}

fn write_exit<A: Allocator>(text: &mut Vec<u8, A>, code: u8) -> Result<(), NoMemory>
    ensures { OnOk result (text.new.items ≡ text.old.items ++ end_text (Death.Exited code)) }
{
    let mut buffer = Buffer::new();
    text.extend_from_slice(b" +++ exited with ")?;
    text.extend_from_slice(buffer.format(code).as_bytes())?;
    Ok(())
}

fn write_kill<A: Allocator>(text: &mut Vec<u8, A>, signal: u8, core: bool) -> Result<(), NoMemory>
    ensures { OnOk result (text.new.items ≡ text.old.items ++ end_text (Death.Signaled signal core)) }
{
    text.extend_from_slice(b" +++ killed by ")?;
    write_signal(text, signal)?;
    write_core(text, core)?;
    Ok(())
}

fn write_core<A: Allocator>(text: &mut Vec<u8, A>, core: bool) -> Result<(), NoMemory>
    ensures { OnOk result (text.new.items ≡ text.old.items ++ core_text core) }
{
    if core {
        text.extend_from_slice(b" (core dumped)")?;
    }
    Ok(())
}
