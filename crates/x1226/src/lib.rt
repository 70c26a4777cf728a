// The module that stands in for the X1226: clock, registers and array behind two wires, over any memory.
#![tactic(auto)]

mod alarms;
mod board;
mod fit;
mod frame;
mod latches;
mod levels;
mod phase;
mod reads;
mod replays;
mod service;
mod staging;
mod state;
mod stop;
mod store;
mod supplies;
mod ticks;
mod timer;

pub use board::Module;
pub use replays::replay;
