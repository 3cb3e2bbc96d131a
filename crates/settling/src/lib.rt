//! What a monitor owes at every moment, and nothing that runs. The files in specs/ define, after any number of ticks, which
//! positions are settled and with which verdict (`Settled`), which wait (`Waiting`), what can be told early (`Early`), which
//! records are issued (`Records`) and what close counts (`Totals`); they read like the subject and assume no program. Each
//! function below has no code of its own: its contract is a theorem about those definitions, proved from greatest lower and
//! least upper bounds alone, so for scales whose values cannot all be compared too. Read `specs/Settled.antt` first.
#![tactic(auto)]

ghost use Rattle.settling.specs.Formulas.{Monotone, Meant};
ghost use Rattle.settling.specs.Keeping.{EnoughWaits, HeldInPlaces, WaitingCounted};
ghost use Rattle.settling.specs.Statements.{Sound, Lasting, Earliest, Bounded, Enclosing, Decided};
ghost use Rattle.settling.specs.Telling.{ToldOnce, AllInTime, RunsApart, BurstBound, Totalled, Unforeseen};

/// Larger operands give a larger value, and for `not` a smaller one.
pub fn larger_operands_give_a_larger_value<V>()
    ensures { Monotone V }
{}

/// Each value is what its formula says, over exactly the positions that it names.
pub fn values_mean_what_they_say<V>()
    ensures { Meant V }
{}

/// A settled verdict is the formula's value, however the samples go on.
pub fn settled_verdicts_are_the_values<V>()
    ensures { Sound V }
{}

/// What is settled stays settled, with the same verdict.
pub fn settled_stays_settled<V>()
    ensures { Lasting V }
{}

/// At the first position that is not settled the two results differ, so no known position is held back.
pub fn nothing_known_is_held_back<V>()
    ensures { Earliest V }
{}

/// Every position is settled no later than its worst lag, and not before its best.
pub fn settled_within_the_lags<V>()
    ensures { Bounded V }
{}

/// All that a tick reads of a node's positions, and all that it tells of them, waits at it.
pub fn what_is_read_waits<V>()
    ensures { EnoughWaits V }
{}

/// All that waits is among the newest settled positions, as many as there are places.
pub fn what_waits_has_a_place<V>()
    ensures { HeldInPlaces V }
{}

/// The list of what waits is exact, and no longer than there are places.
pub fn no_more_wait_than_places<V>()
    ensures { WaitingCounted V }
{}

/// The value at the last tick's position lies between the early ends, however the samples go on.
pub fn early_ends_enclose_the_value<V>()
    ensures { Enclosing V }
{}

/// A position that is settled at its own tick has its verdict as both early ends.
pub fn settled_at_its_own_tick_is_decided<V>()
    ensures { Decided V }
{}

/// The records of a rule tell each settled position once, upward and with its value.
pub fn each_position_is_told_once<V>()
    ensures { ToldOnce V }
{}

/// Each record is issued at the first tick after which its positions and all before them are known.
pub fn told_at_the_first_tick_possible<V>()
    ensures { AllInTime V }
{}

/// Neighbouring records of a tick are of rising rules, or go on in one rule with another verdict.
pub fn neighbouring_records_differ<V>()
    ensures { RunsApart V }
{}

/// No tick settles more positions of its rules, or issues more records, than the burst.
pub fn no_tick_passes_the_burst<V>()
    ensures { BurstBound V }
{}

/// Close counts for each rule what its records told as settled, and every other tick as open.
pub fn close_counts_what_was_told<V>()
    ensures { Totalled V }
{}

/// Nothing that is settled, told, read early or counted depends on later samples.
pub fn later_samples_do_not_matter<V>()
    ensures { Unforeseen V }
{}
