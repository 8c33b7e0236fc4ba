//! What files of lines have in common, whatever their lines say: a line cut off a text, the words of a line, numbers
//! and keywords as words. It knows no format: which words a line has, and what they mean, is for those that use it.
#![tactic(auto)]

mod fault;
mod keywords;
mod lines;
mod numbers;
mod words;

pub use fault::LineFault;
pub use keywords::keyword;
pub use lines::{cut_line, last_line};
pub use numbers::{integer, number, number_between};
pub use words::Words;

#[cfg(test)]
mod tests;
