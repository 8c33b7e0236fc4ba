//! Why a run has no text, as the program says it.

use crate::compare::same;
use std::test::Fail;
use tracer_workers::RunError;

#[test]
fn errors_are_displayed_as_the_program_says_them(rt: HostRuntime) -> Result<(), Fail> {
    let texts = [
        (RunError::NoMemory, "tracer: no memory"),
        (RunError::Lost, "tracer: lost stop"),
        (RunError::Threads, "tracer: cannot start threads"),
    ];
    for (error, text) in texts {
        same(&rt, &format!(in rt.alloc(); "{error}")?.as_str(), &text);
    }
    Ok(())
}
