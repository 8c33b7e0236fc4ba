//! Tests of the program with streams that fail, and of replays. They are above the library that they are of, because a
//! crate with tests is proved twice.

mod compare;
mod program;
mod replay;
mod run;
