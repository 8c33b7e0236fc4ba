//! The printed records of a trace (strace(1)).
//!
//! What one stop or one death gives to the text is a piece. A folder takes the pieces of a roster's rows in whatever
//! order they come, and makes the text of them: the lines of each row, in the roster's order.
#![tactic(auto)]

mod call;
mod fold;
pub mod laws;
mod piece;
mod text;

pub use call::show::Show;
pub use fold::error::FoldError;
pub use fold::folder::Folder;
pub use piece::stop_piece::piece_of;
pub use piece::{Piece, death_piece};
pub use text::{Text, WriteFault, write_bytes, write_text};

#[cfg(test)]
mod tests;
#[cfg(test)]
mod text_tests;
