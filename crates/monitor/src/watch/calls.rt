//! Set-up, tick and close.
ghost use Rattle.std.specs.Prelude.{◌≡◌, ℕ, length, IfOk, MatchResult, nat_lt};
ghost use Rattle.std.specs.Result.{result_err};
ghost use Rattle.settling.specs.Totals.{totals};
ghost use Rattle.source.specs.Frames.{answer};
ghost use Rattle.table.specs.Places.{burst};
ghost use Rattle.engine.specs.Refusals.{tick_fault};
ghost use Rattle.engine.specs.Represents.{Represents, monitored};
ghost use Rattle.monitor.specs.Calls.{SetUp, Ticked, ReadEnds, table_in, memory_in, ticks_in, as_totals, totals_of};
ghost use Rattle.monitor.specs.Reading.{read_fault};

use super::super::reading::{ReadFault, read_ends};
use super::super::run::run_tick;
use super::super::totals::{Totals, total_up};
use super::Monitor;
use engine::fault::TickFault;
use engine::state::Core;
use outbox::Outbox;
use scale::Scale;
use source::Source;
use table_check::plan::Plan;

// That the memory's loan stays is said by each call: of old and new, so that no invariant of one monitor can say it.
impl<'m, V: Scale> Monitor<'m, V> {
    /// A monitor of this plan, over this memory, with no tick accepted. The memory stays as it is, may hold anything, and may
    /// be too short: then every tick is refused.
    pub fn set_up(plan: Plan, memory: &'m mut [V]) -> Monitor<'m, V>
        ensures set_up { SetUp V.Scale.scale plan memory.old result }
        ensures lends { result.memory.ghost_name ≡ memory.entry.ghost_name }
    {
        Monitor {
            core: Core::new(plan),
            memory,
        }
    }

    /// One tick. It is refused, and changes nothing, if the memory is below the need, if as many ticks are accepted as can
    /// be, if the outbox has less free than the burst, or if a sample cannot be had. An accepted tick asks the source at
    /// its own number, settles what becomes known, and puts a record for each run of positions that a rule newly settles.
    pub fn tick<S: Source<Value = V>, O: Outbox<V>>(
        &mut self,
        source: &S,
        outbox: &mut O,
    ) -> Result<(), TickFault>
        ensures fault { result_err result ≡ tick_fault (table_in self.old) (ticks_in self.old) (length (memory_in self.old)) (nat_lt (O.free outbox.old) (burst (table_in self.old))) (answer S.layer (S.frames source.now) (ticks_in self.old)) }
        ensures outcome { MatchResult result (λ _. Ticked V.Scale.scale (answer S.layer (S.frames source.now) (ticks_in self.old)) O.waiting O.free self.old self.new outbox.old outbox.new) (λ _. (self.new ≡ self.old) × (outbox.new ≡ outbox.old)) }
        ensures lends { self.new.memory.ghost_name ≡ self.old.memory.ghost_name }
    {
        let Monitor { core, memory } = self;
        run_tick(core, memory, source, outbox)
    }

    /// The early reading of a rule: the lower and the upper end of what it may be at the last tick's own position. It is
    /// refused if there is no such rule, or else if no tick is accepted yet; it changes nothing.
    pub fn read(&self, rule: u8) -> Result<(V, V), ReadFault>
        ensures fault { result_err result ≡ read_fault (table_in self.now) (ticks_in self.now) rule }
        ensures ends { IfOk result (λ e. ReadEnds V.Scale.scale self.now.core (memory_in self.now) rule e) }
    {
        read_ends(&self.core, self.memory, rule)
    }

    /// Ends the monitor, and gives the ticks, and for each rule what is settled and what is open. The memory comes back as
    /// it was.
    pub fn close(self) -> Totals
        ensures totals { as_totals result ≡ totals_of self.entry.core }
        ensures owed { (σ : ℕ → ℕ → V) (m : ℕ) → Represents V.Scale.scale σ m self.entry.core self.entry.memory.now → as_totals result ≡ totals V.Scale.scale σ m (monitored self.entry.core) }
        ensures memory { self.exit.1.0.now ≡ self.entry.memory.now }
    {
        let Monitor { core, memory: _ } = self;
        total_up(&core)
    }
}
