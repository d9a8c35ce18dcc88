ghost use Rattle.std.specs.Prelude.{◌≡◌, true, length, slice_index_or};
ghost use Rattle.tree.specs.Trees.{cond_lower, prog_lower};
ghost use Rattle.tree.specs.Held.{clauses, nodes};

use tree::node::{Clause, Node};
use tree::tree::Tree;

// An entry is a number beside its tree and no type of both: from each one goes on to others of the same tree, by their numbers.

// The condition of an entry; past the last one it is true.
pub(crate) fn clause_at(tree: &Tree, i: u16) -> Clause
    ensures is { result ≡ slice_index_or (clauses tree.now) i Clause.True }
    ensures lower { cond_lower i result ≡ true }
{
    tree.clause(i).unwrap_or(Clause::True)
}

// The program of an entry; past the last one it is an act.
pub(crate) fn node_at(tree: &Tree, i: u16) -> Node
    ensures is { result ≡ slice_index_or (nodes tree.now) i (Node.Act 0) }
    ensures lower { prog_lower (length (clauses tree.now)) i result ≡ true }
{
    tree.node(i).unwrap_or(Node::Act(0))
}
