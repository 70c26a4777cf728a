//! Examples of what `run_log` answers and writes, proved safe and run.
#![tactic(auto)]

#[cfg(test)]
mod limits;
#[cfg(test)]
mod replies;
