//! The folder of pieces, what it keeps of each row, and how a row's stops become its lines.

mod chain;
mod ending;
pub(crate) mod error;
pub(crate) mod folder;
mod kept_row;
pub(crate) mod room;
mod row_fold;
