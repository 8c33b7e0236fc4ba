//! The system calls that `-e` names.

ghost use Rattle.std.specs.Prelude.{◌≡◌, IfErr, IfOk, None, map};
ghost use Rattle.tracer_cli.specs.Shown.{AreShown, IsNamesFailure, NamesCalls, names_in, unknown_name, without_word};

use crate::failure::Failure;
use std::alloc::{AllocError, Global};
use trace_options::{CallSet, Syscall};

/// The calls that are shown: all, or those that a list names (strace(1), `-e trace`). An unknown name is a failure: the
/// first one of the list.
pub(crate) fn shown_calls(alloc: Global, list: Option<&str>) -> Result<CallSet, Failure>
    ensures shown { IfOk result (AreShown list.entry) }
    ensures known { IfOk result (λ calls. unknown_name list.entry ≡ None) }
    ensures failure { IfErr result (IsNamesFailure (unknown_name list.entry)) }
{
    let Some(list) = list else {
        return Ok(CallSet::all());
    };
    let names = names_in(alloc, list)?;
    match named_calls(names.as_slice()) {
        Ok(calls) => Ok(calls),
        Err(name) => Err(Failure::UnknownCall(String::from_str(alloc, name)?)),
    }
}

/// The names of a list.
fn names_in(alloc: Global, list: &str) -> Result<Vec<&str>, AllocError>
    ensures { IfOk result (λ names. map (λ name. name.now) names.items ≡ names_in list.now) }
{
    without_word(list).split(',').collect(alloc)
}

/// A list without the word that may stand before it.
fn without_word(list: &str) -> &str
    ensures { result.now ≡ without_word list.now }
{
    match list.strip_prefix("trace=") {
        Some(names) => names,
        None => list,
    }
}

/// The calls of these names, or the first name that no system call has.
fn named_calls<'a>(names: &[&'a str]) -> Result<CallSet, &'a str>
    ensures { NamesCalls (map (λ name. name.now) names.now) result }
{
    let mut calls = CallSet::none();
    for name in names {
        match Syscall::from_name(name.as_bytes()) {
            Some(call) => calls.add(call.number),
            None => return Err(name),
        }
    }
    Ok(calls)
}
