//! Runs of a case: how it is traced, on schedules and on threads, and what is gathered of it.

mod cases;
mod config;
mod counting;
mod family;
mod gate;
mod gathering;
mod growth;
mod laws;
mod overlap;
mod party;
mod run_error;
mod scheduled;
mod start_word;
mod starting_line;
mod stress;
mod threaded;
mod tracee_thread;
mod worker_thread;
