//! The rules, and which nodes they name.
ghost use Rattle.std.specs.Prelude.{◌≡◌, ◌≤◌, length, take, IfOk};
ghost use Rattle.std.specs.Result.{result_err};
ghost use Rattle.table_check.specs.Judging.{rule_fault};

use table::fault::TableFault;

/// Rules that passed, each the number of a node. They stand first, as many as there are.
// An array and no `ArrayVec`, since a plan is copied; there are at most 16.
#[derive(Clone, Copy)]
pub(crate) struct Named {
    pub rules: [u8; 16],
    pub count: usize,
    ghost few: { count ≤ 16 },
}

impl Named {
    pub(crate) fn rules(&self) -> &[u8]
        ensures { result.now ≡ take self.now.count self.now.rules }
    {
        &self.rules[0..self.count]
    }
}

/// The nodes that the rules name, or the first rule that names none of so many.
pub(crate) fn name_nodes(rules: &[u16], size: usize) -> Result<Named, TableFault>
    requires few { length rules.now ≤ 16 }
    requires size { size ≤ 64 }
    ensures fault { result_err result ≡ rule_fault size rules.now }
    ensures named { IfOk result (λ n. take n.count n.rules ≡ rules.now) }
{
    let mut named = [0; 16];
    // By index, since a zip of places, rules and their numbers is no plainer than `named[r]`.
    for (r, node) in rules.iter().enumerate() {
        if usize::from(*node) >= size {
            return Err(TableFault::NoSuchNode(r as u8));
        }
        named[r] = *node as u8;
    }
    Ok(Named {
        rules: named,
        count: rules.len(),
    })
}
