// The module, and the calls that a board makes on it.
ghost use Rattle.std.specs.Prelude.{◌≡◌};
ghost use Rattle.chip.specs.declared.calls.Call.TheVariants.{Level, Tick, Supply as SupplyCall};
ghost use Rattle.x1226.specs.Answers.{level_answer};
ghost use Rattle.x1226.specs.Frame.{pulls};
ghost use Rattle.x1226.specs.Service.{pin, show};
ghost use Rattle.x1226.specs.State.{made};
ghost use Rattle.x1226.specs.Step.{worked, told, told_with};
ghost use Rattle.x1226.specs.Store.{verdict};

use crate::fit::Fit;
use crate::state::State;
use chip::calls::{Answer, Call};
use chip::pins::Pin;
use chip::refusals::Refusal;
use chip::wires::Levels;
use memory::Memory;

// A module. The memory that keeps its array and registers is lent to each call.
#[derive(Clone, Copy)]
pub struct Module {
    state: State,
}

impl Module {
    // A module without supply, both levels high, everything volatile at its start.
    pub fn make() -> Module
        ensures { result.state ≡ made }
    {
        Module {
            state: State::unsupplied(Levels {
                scl: true,
                sda: true,
            }),
        }
    }

    // Whether the module pulls SDA.
    pub fn pulls(&self) -> bool
        ensures { result ≡ pulls self.now.state.phase }
    {
        self.state.phase.pulls()
    }

    // Takes a call: an unfit memory is refused first, then numbers out of range.
    fn take<M: Memory>(&mut self, memory: &mut M, call: Call) -> Result<(), Refusal>
        ensures state { self.new.state ≡ (worked call self.old.state (M.holds memory.old)).state }
        ensures mem { M.holds memory.new ≡ (worked call self.old.state (M.holds memory.old)).mem }
        ensures answer { result ≡ verdict (worked call self.old.state (M.holds memory.old)).refusal }
    {
        if !memory.is_fit() {
            return Err(Refusal::Unfit);
        }
        let event = call.accepted()?;
        let mut fit = Fit { memory };
        let answer = self.state.work(&mut fit, event);
        let _memory = fit.memory;
        answer
    }

    // Takes the master's levels, 0 or 1 each, and answers the level that the module leaves on SDA: low where it pulls.
    pub fn level<M: Memory>(&mut self, memory: &mut M, scl: u16, sda: u16) -> Result<bool, Refusal>
        ensures state { self.new.state ≡ (worked (Level scl sda) self.old.state (M.holds memory.old)).state }
        ensures mem { M.holds memory.new ≡ (worked (Level scl sda) self.old.state (M.holds memory.old)).mem }
        ensures answer { result ≡ level_answer (worked (Level scl sda) self.old.state (M.holds memory.old)) }
    {
        self.take(memory, Call::Level { scl, sda })?;
        Ok(!self.pulls())
    }

    // Takes a tick of the 32,768 Hz crystal.
    pub fn tick<M: Memory>(&mut self, memory: &mut M) -> Result<(), Refusal>
        ensures state { self.new.state ≡ (worked Tick self.old.state (M.holds memory.old)).state }
        ensures mem { M.holds memory.new ≡ (worked Tick self.old.state (M.holds memory.old)).mem }
        ensures answer { result ≡ verdict (worked Tick self.old.state (M.holds memory.old)).refusal }
    {
        self.take(memory, Call::Tick)
    }

    // Takes a supply: 0 none, 1 main, 2 battery.
    pub fn supply<M: Memory>(&mut self, memory: &mut M, which: u16) -> Result<(), Refusal>
        ensures state { self.new.state ≡ (worked (SupplyCall which) self.old.state (M.holds memory.old)).state }
        ensures mem { M.holds memory.new ≡ (worked (SupplyCall which) self.old.state (M.holds memory.old)).mem }
        ensures answer { result ≡ verdict (worked (SupplyCall which) self.old.state (M.holds memory.old)).refusal }
    {
        self.take(memory, Call::Supply { which })
    }

    // What a board is told as the module stands: the level on SDA, and why it was refused.
    pub fn told(&self, refusal: Option<Refusal>) -> Answer
        ensures { result ≡ told_with self.now.state refusal }
    {
        Answer {
            sda: !self.pulls(),
            refusal,
        }
    }

    // Works any call, and answers what a board is told after it.
    pub fn work<M: Memory>(&mut self, memory: &mut M, call: Call) -> Answer
        ensures state { self.new.state ≡ (worked call self.old.state (M.holds memory.old)).state }
        ensures mem { M.holds memory.new ≡ (worked call self.old.state (M.holds memory.old)).mem }
        ensures answer { result ≡ told (worked call self.old.state (M.holds memory.old)) }
    {
        let refusal = self.take(memory, call).err();
        self.told(refusal)
    }

    // The byte at a place: the stored ones, then the clock's eight, then status. It clears no flag.
    pub fn show<M: Memory>(&self, memory: &M, place: u16) -> Result<u8, Refusal>
        ensures { result ≡ show self.now.state (M.holds memory.now) place }
    {
        self.state.show(memory, place)
    }

    // What the interrupt pin does.
    pub fn pin<M: Memory>(&self, memory: &M) -> Result<Pin, Refusal>
        ensures { result ≡ pin self.now.state (M.holds memory.now) }
    {
        self.state.pin(memory)
    }
}
