ghost use Rattle.std.specs.Prelude.{◌≡◌, ◌^◌, ◌≤◌};
ghost use Rattle.golog.specs.Points.{valuation as valued};
ghost use Rattle.golog.specs.Programs.{eval};
ghost use Rattle.tree.specs.Held.{cond_at};

use crate::entry::clause_at;
use locks::facts::holds;
use tree::node::Clause;
use tree::tree::Tree;

// Whether the condition of an entry holds; its parts stand below it.
pub(crate) fn value(tree: &Tree, i: u16, valuation: u32) -> bool
    ensures { result ≡ eval (cond_at tree.now i) (valued valuation) }
{
    match clause_at(tree, i) {
        Clause::True => true,
        Clause::False => false,
        Clause::Fact(fact) => holds(valuation, fact),
        Clause::Not(a) => !value(tree, a, valuation),
        Clause::And(a, b) => value(tree, a, valuation) && value(tree, b, valuation),
        Clause::Or(a, b) => value(tree, a, valuation) || value(tree, b, valuation),
    }
}
