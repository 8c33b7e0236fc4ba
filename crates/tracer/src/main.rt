//! The program `tracer`. All that it does is in the library `tracer_cli`.
#![tactic(auto)]

#[cfg(test)]
mod tests;

use std::process::ExitCode;
use std::{env, io};
use tracer_cli::process;

/// An error that `main` returned would end the program with status 1, which says that the file is refused. So it
/// uses no `?`.
fn main(rt: HostRuntime) -> ExitCode {
    ExitCode::from(process(
        &rt,
        words(&rt),
        &mut rt.stdin(),
        &mut rt.stdout(),
        &mut rt.stderr(),
    ))
}

/// The command line, the program's name first.
fn words(rt: &HostRuntime) -> io::Result<Vec<String>> {
    let words = env::args(rt)?.collect(rt.alloc())?;
    Ok(words)
}
