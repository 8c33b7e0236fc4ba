//! The laws of runs are there for callers.

use std::test::Fail;
use tracer_workers::laws::{
    claimed_pieces_were_made, pieces_of_a_run_are_whole, runs_print_their_case,
    seccomp_changes_no_line, the_mode_changes_no_text, what_is_driven_stays_so,
};

#[test]
fn the_laws_are_there() -> Result<(), Fail> {
    runs_print_their_case();
    pieces_of_a_run_are_whole();
    seccomp_changes_no_line();
    the_mode_changes_no_text();
    claimed_pieces_were_made();
    what_is_driven_stays_so();
    Ok(())
}
