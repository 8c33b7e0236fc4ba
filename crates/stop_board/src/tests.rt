//! The board and the World, and the rosters and words of `stop_history` that they keep.

mod board;
mod board_words;
mod compare;
mod definitions;
mod expected_words;
mod families;
mod growth;
mod one_thread;
mod roster;
mod rows;
mod waitable;
mod word;
mod word_steps;
mod world;
