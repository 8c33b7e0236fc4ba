//! The cells that threads share beside the explorer (`stop_explorer`): what the threads of a round are answered is one of
//! the outcomes that it finds of the same commands.

mod places;
mod programs;
mod rounds;
mod threads;
mod words;
