//! `replay_text`, called by itself. What is printed of other files is in tests/cases/replay_files.cases.

mod growth;

use crate::tests::compare::same;
use std::test::Fail;
use tracer_cli::replay_text;

pub(crate) const FILE: &[u8] =
    b"row 100 100 77 0\npublish 100 start\nclaim 100 0\nclaim 100 1\nstate 100\n";

pub(crate) const REPLIES: &[u8] =
    b"published 1\nstop 1 0x80057f\nrefused NotWaitable\nclaimed 1 0\n";

#[test]
fn a_replay_prints_the_boards_answers(rt: HostRuntime) -> Result<(), Fail> {
    let text = replay_text(rt.alloc(), FILE)?;
    same(&rt, &text.as_slice(), &REPLIES);
    Ok(())
}
