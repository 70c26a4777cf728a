// The chip's vocabulary: its calls, wires, slave bytes, pages, registers, locks and refusals, as types, tables and small rules.
#![tactic(auto)]

pub mod bits;
pub mod calls;
pub mod counter;
pub mod locks;
pub mod pages;
pub mod pins;
pub mod places;
pub mod refusals;
pub mod registers;
pub mod slaves;
pub mod status;
pub mod wires;
