//! Examples of what the chip's vocabulary and the module answer, proved safe and run.
#![tactic(auto)]

#[cfg(test)]
mod modules;
#[cfg(test)]
mod services;
#[cfg(test)]
mod vocabulary;
