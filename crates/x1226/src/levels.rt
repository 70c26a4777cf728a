// What new levels on the two wires do to the module.
ghost use Rattle.std.specs.Prelude.{◌≡◌};
ghost use Rattle.x1226.specs.Step.{hears, heard, acted, leveled, done};
ghost use Rattle.x1226.specs.Memories.{holding};
ghost use Rattle.x1226.specs.Store.{verdict};

use crate::fit::Fit;
use crate::state::{Phase, State};
use chip::calls::{Event, Supply};
use chip::refusals::Refusal;
use chip::wires::{Edge, Levels, edge_between};
use memory::Memory;

impl State {
    // The bus hears on main supply, outside a write cycle.
    fn hears(&self) -> bool
        ensures { result ≡ hears self.now }
    {
        self.supply == Supply::Main && self.cycle == 0
    }

    // What is heard of new levels.
    fn heard(&self, levels: Levels) -> Edge
        ensures { result ≡ heard self.now levels }
    {
        if self.hears() {
            edge_between(self.levels, self.phase.pulls(), levels)
        } else {
            Edge::Still
        }
    }

    // What the module does depends on its phase and on the edge together; a rule has it a match on both.
    fn act<M: Memory>(&mut self, fit: &mut Fit<M>, edge: Edge) -> Result<(), Refusal>
        ensures state { self.new ≡ (acted edge self.old fit.old.mem).state }
        ensures mem { fit.new ≡ holding (acted edge self.old fit.old.mem).mem fit.old }
        ensures answer { result ≡ verdict (acted edge self.old fit.old.mem).refusal }
    {
        match (self.phase, edge) {
            (_, Edge::Start) => self.start(),
            (_, Edge::Stop) => return self.stop(fit),
            (Phase::Receiving { stage, bits, shift }, Edge::Rise { level }) if bits < 8 => {
                self.phase = Phase::with_bit(stage, bits, shift, level);
            }
            (Phase::Listening, Edge::Rise { level: true }) => self.phase = Phase::Deaf,
            (Phase::Receiving { stage, bits, shift }, Edge::Fall) if bits == 8 => {
                self.answer(stage, shift);
            }
            (Phase::Acknowledging { stage, byte }, Edge::Fall) => {
                self.acknowledged(fit, stage, byte);
            }
            (Phase::Sending { sent, byte }, Edge::Fall) => self.sent_bit(sent, byte),
            (Phase::Listening, Edge::Fall) => self.send(fit),
            (_, Edge::Rise { .. } | Edge::Fall | Edge::Still) => {}
        }
        Ok(())
    }

    // New levels are heard or not, and remembered whatever came of them.
    pub fn give<M: Memory>(&mut self, fit: &mut Fit<M>, levels: Levels) -> Result<(), Refusal>
        ensures state { self.new ≡ (leveled levels self.old fit.old.mem).state }
        ensures mem { fit.new ≡ holding (leveled levels self.old fit.old.mem).mem fit.old }
        ensures answer { result ≡ verdict (leveled levels self.old fit.old.mem).refusal }
    {
        let answer = self.act(fit, self.heard(levels));
        self.levels = levels;
        answer
    }

    // A call that is taken does its work.
    pub fn work<M: Memory>(&mut self, fit: &mut Fit<M>, event: Event) -> Result<(), Refusal>
        ensures state { self.new ≡ (done event self.old fit.old.mem).state }
        ensures mem { fit.new ≡ holding (done event self.old fit.old.mem).mem fit.old }
        ensures answer { result ≡ verdict (done event self.old fit.old.mem).refusal }
    {
        match event {
            Event::Given { levels } => self.give(fit, levels),
            Event::Ticked => {
                self.tick(fit);
                Ok(())
            }
            Event::Supplied { supply } => {
                self.switch(supply);
                Ok(())
            }
        }
    }
}
