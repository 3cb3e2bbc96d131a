//! The check, which fills a plan, and what can be asked of a plan.
ghost use Rattle.std.specs.Prelude.{◌≡◌, ℕ, ◌<◌, ◌≤◌, [], ◌∷◌, length, take, IfOk, MatchResult, slice_index};
ghost use Rattle.table_check.specs.Drafts.{drafted};
ghost use Rattle.std.specs.Result.{result_err};
ghost use Rattle.table_check.specs.Judging.{of_lists, nodes_meant, found, last_fault, PassedSoFar};
ghost use Rattle.table.specs.Lags.{lags as lags_of};
ghost use Rattle.table.specs.Places.{places as places_of, need as need_of, burst as burst_of};
ghost use Rattle.table_check.specs.Plans.{table_of};
ghost use Rattle.table.specs.Refusals.{checked};
ghost use Rattle.table.specs.Tables.{blank, size as size_of, meant};

use super::super::draft::{Cost, Draft};
use super::super::judge::{BLANK, Judged, judge_nodes};
use super::super::lags::AT_ONCE;
use super::super::rules::{Named, name_nodes};
use super::Plan;
use table::fault::TableFault;
use table::node::{Lag, Node, UncheckedNode, UncheckedTable};

impl Plan {
    /// The plan that is built in: sample 0 alone, as the one rule.
    pub fn of_sample_0() -> Plan
        ensures { table_of result ≡ of_lists (blank ∷ []) (0 ∷ []) }
    {
        let mut places = [0; 64];
        places[0] = 1;
        Plan {
            judged: Judged {
                nodes: [BLANK; 64],
                lags: [AT_ONCE; 64],
                size: 1,
            },
            named: Named {
                rules: [0; 16],
                count: 1,
            },
            places,
            need: 3,
            burst: 1,
        }
    }

    /// The nodes of the table.
    pub fn nodes(&self) -> &[Node]
        ensures { result.now ≡ (table_of self.now).nodes }
    {
        self.judged.nodes()
    }

    /// The rules of the table, each the number of a node.
    pub fn rules(&self) -> &[u8]
        ensures { result.now ≡ (table_of self.now).rules }
    {
        self.named.rules()
    }

    /// A copy of the rules, and how many of its places they fill: the copy needs neither heap nor the plan.
    pub fn copy_rules(&self) -> ([u8; 16], usize)
        ensures rules { take result.1 result.0 ≡ (table_of self.now).rules }
        ensures few { result.1 ≤ 16 }
    {
        (self.named.rules, self.named.count)
    }

    /// The lag of each node.
    pub fn lags(&self) -> &[Lag]
        ensures { result.now ≡ lags_of (table_of self.now).nodes }
    {
        self.judged.lags()
    }

    /// How many of its newest positions each node keeps.
    pub fn places(&self) -> &[u32]
        ensures len { length result.now ≡ size_of (table_of self.now) }
        ensures places { (k : ℕ) → k < length result.now → slice_index result.now k ≡ places_of (table_of self.now) k }
    {
        &self.places[0..self.judged.size]
    }

    /// The queue memory that a monitor of this table needs, in scale values.
    pub fn need(&self) -> u32
        ensures { result ≡ need_of (table_of self.now) }
    {
        self.need
    }

    /// The most records that one tick may issue.
    pub fn burst(&self) -> u32
        ensures { result ≡ burst_of (table_of self.now) }
    {
        self.burst
    }
}

/// Fills the plan with this table, or refuses it by its first fault and leaves the plan as it was.
pub fn check(table: &UncheckedTable, plan: &mut Plan) -> Result<(), TableFault>
    ensures fault { result_err result ≡ checked table.now }
    ensures plan { MatchResult result (λ _. table_of plan.new ≡ meant table.now) (λ _. plan.new ≡ plan.old) }
{
    *plan = plan_of(table.nodes.as_slice(), table.rules.as_slice())?;
    Ok(())
}

/// The plan of these nodes and rules, or their first fault.
fn plan_of(written: &[UncheckedNode], rules: &[u16]) -> Result<Plan, TableFault>
    ensures fault { result_err result ≡ found written.now rules.now }
    ensures plan { IfOk result (λ p. table_of p ≡ of_lists (nodes_meant written.now) rules.now) }
{
    if written.is_empty() || written.len() > 64 {
        return Err(TableFault::NodeCount);
    }
    if rules.is_empty() || rules.len() > 16 {
        return Err(TableFault::RuleCount);
    }
    let judged = judge_nodes(written)?;
    let named = name_nodes(rules, written.len())?;
    finish(judged, named)
}

/// The plan of nodes and rules that passed so far, or what is still wrong with them: an unused node, or too much memory.
fn finish(judged: Judged, named: Named) -> Result<Plan, TableFault>
    requires { PassedSoFar (drafted judged named) }
    ensures fault { result_err result ≡ last_fault (drafted judged named) }
    ensures plan { IfOk result (λ p. table_of p ≡ drafted judged named) }
{
    let draft = Draft {
        nodes: judged.nodes(),
        lags: judged.lags(),
        rules: named.rules(),
    };
    draft.find_unused()?;
    let Cost {
        places,
        need,
        burst,
    } = draft.cost();
    if need > 16384 {
        return Err(TableFault::TooMuchMemory);
    }
    Ok(Plan {
        judged,
        named,
        places,
        need,
        burst,
    })
}
