//! How a monitor begins, and how a tick takes it on.
ghost use Rattle.std.specs.Prelude.{◌≡◌, ◌<◌, ◌≤◌, length, MatchResult};
ghost use Rattle.std.specs.Result.{result_err};
ghost use Rattle.source.specs.Frames.{answer};
ghost use Rattle.table.specs.Places.{need};
ghost use Rattle.engine.specs.Refusals.{tick_fault};
ghost use Rattle.engine.specs.Represents.{Fresh, Advanced, monitored};
ghost use Rattle.engine.specs.State.{keep_of};

use super::super::ask::ask_all;
use super::super::fault::TickFault;
use super::super::keep::{Keep, keep_of};
use super::super::lay::lay_out;
use super::super::tick::tick_all;
use super::super::ticks::Tick;
use super::Core;
use scale::Scale;
use source::Source;
use table_check::plan::Plan;

/// As many ticks as one monitor accepts.
const MOST_TICKS: usize = 16_777_216;

impl Core {
    /// Of this plan, with no tick accepted.
    pub fn new(plan: Plan) -> Core
        ensures { Fresh plan result }
    {
        let keeps = lay_out(plan.places());
        Core {
            plan,
            ticks: 0,
            keeps,
        }
    }

    /// The plan.
    pub fn plan(&self) -> &Plan
        ensures { result.now ≡ self.now.plan }
    {
        &self.plan
    }

    /// How many ticks are accepted.
    pub fn ticks(&self) -> usize
        ensures value { result ≡ self.now.ticks }
        ensures bound { result ≤ 16777216 }
    {
        self.ticks
    }

    /// The queues, of each node in its order; behind them stand queues that are not there.
    pub fn keeps(&self) -> &[Keep]
        ensures { result.now ≡ self.now.keeps }
    {
        &self.keeps
    }

    /// How many positions node `k` has settled.
    pub fn settled(&self, k: usize) -> usize
        ensures { result ≡ (keep_of self.now.keeps k).count }
    {
        keep_of(&self.keeps, k).count
    }

    /// Why a tick over so much memory is refused, if it is; `cramped` says that there is too little room for its records.
    fn refuse<S: Source>(&self, source: &S, space: usize, cramped: bool) -> Result<(), TickFault>
        ensures { result_err result ≡ tick_fault (monitored self.now) self.now.ticks space cramped (answer S.layer (S.frames source.now) self.now.ticks) }
    {
        if space < self.plan.need() as usize {
            return Err(TickFault::Memory);
        }
        if self.ticks >= MOST_TICKS {
            return Err(TickFault::Ticks);
        }
        if cramped {
            return Err(TickFault::Room);
        }
        ask_all(self.plan.nodes(), source, self.ticks)?;
        Ok(())
    }

    /// Every node, taken on by one tick.
    fn take_on<V: Scale, S: Source<Value = V>>(&mut self, source: &S, memory: &mut [V])
        requires room { need (monitored self.old) ≤ length memory.old }
        requires few { self.old.ticks < 16777216 }
        ensures { Advanced V.Scale.scale (answer S.layer (S.frames source.now) self.old.ticks) self.old self.new memory.old memory.new }
    {
        let tick = Tick { number: self.ticks };
        tick_all(self.plan.nodes(), source, tick, memory, &mut self.keeps);
        self.ticks += 1;
    }

    /// One tick: the samples are asked for first, and then every node is taken on. `cramped` says that there is too little
    /// room for the records of a tick.
    pub fn advance<V: Scale, S: Source<Value = V>>(
        &mut self,
        source: &S,
        memory: &mut [V],
        cramped: bool,
    ) -> Result<(), TickFault>
        ensures fault { result_err result ≡ tick_fault (monitored self.old) self.old.ticks (length memory.old) cramped (answer S.layer (S.frames source.now) self.old.ticks) }
        ensures outcome { MatchResult result (λ _. Advanced V.Scale.scale (answer S.layer (S.frames source.now) self.old.ticks) self.old self.new memory.old memory.new) (λ _. (self.new ≡ self.old) × (memory.new ≡ memory.old)) }
    {
        self.refuse(source, memory.len(), cramped)?;
        self.take_on(source, memory);
        Ok(())
    }
}
