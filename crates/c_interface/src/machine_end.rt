//! The machine of a script, and the calls that change how its tracee is traced.

ghost use Rattle.std.specs.Prelude.{◌≡◌, ◌<◌};
ghost use Rattle.c_interface.specs.MachineEnd.{AreCalls, IsFilterSet, IsNewMachineEnd, IsOptionsSet, has_bit};

use crate::births::{Births, MachineEnd};
use crate::error::Error;
use crate::scripts::machine_open;
use std::alloc::Global;
use trace_options::{CallSet, Filter, Options, check};
use trace_script::Case;

/// The machine of a row's script, as `machine_open` makes it: births are not traced. EINVAL: there is no such row;
/// ENOMEM.
pub fn machine_end_open(alloc: Global, case: &Case, row: u32) -> Result<MachineEnd, Error>
    ensures { IsNewMachineEnd case.now row result }
{
    let machine = machine_open(alloc, case, row)?;
    let left = machine.births_left();
    Ok(MachineEnd {
        machine,
        births: Births::Untraced(left),
    })
}

/// Sets the options that the tracee stops by from its next stop on (ptrace(2), `PTRACE_SETOPTIONS`). EINVAL: bits of no
/// option, options that a tracer does not take (`check`), or births are turned on after one that was not traced: that
/// child can never be born.
pub fn machine_options(end: &mut MachineEnd, options: u32) -> Result<(), Error>
    ensures { IsOptionsSet options end.old end.new result }
{
    let Some(options) = Options::from_bits(options) else {
        return Err(Error::EINVAL);
    };
    if check(options).is_err() {
        return Err(Error::EINVAL);
    }
    let left = end.machine.births_left();
    let births = match (options.contains(Options::TRACEFORK), end.births) {
        (true, Births::Untraced(before)) if left < before => return Err(Error::EINVAL),
        (true, _) => Births::Traced,
        (false, Births::Traced) => Births::Untraced(left),
        (false, Births::Untraced(before)) => Births::Untraced(before),
    };
    end.births = births;
    end.machine.set_options(options);
    Ok(())
}

/// Sets the filter from the tracee's next stop on (seccomp(2)): it stops call n where bit n % 64 of the word n / 64 is
/// 1, for n below 128, and no other call.
pub fn machine_filter(end: &mut MachineEnd, calls: &[u64; 2], ret_data: u16)
    ensures { IsFilterSet calls.now ret_data end.old end.new }
{
    let filter = Filter {
        calls: call_set(calls),
        ret_data,
    };
    end.machine.set_filter(&filter);
}

/// The calls whose bit is 1.
fn call_set(calls: &[u64; 2]) -> CallSet
    ensures { AreCalls calls.now result }
{
    let mut set = CallSet::none();
    for nr in 0..128_u64 {
        if has_bit(calls, nr) {
            set.add(nr);
        }
    }
    set
}

/// Whether a call's bit is 1.
fn has_bit(calls: &[u64; 2], nr: u64) -> bool
    requires { nr < 128 }
    ensures { result ≡ has_bit calls.now nr }
{
    calls[(nr / 64) as usize] >> (nr % 64) & 1 == 1
}
