// Logs: a text of calls that is worked on a module line by line, and the reply to it.
#![tactic(auto)]

mod board;
mod calls;
mod lines;
mod numbers;
mod reply;
mod runs;

pub use runs::{LEAST_REPLY, MOST_LOG, run_log};
