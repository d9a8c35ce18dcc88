ghost use Rattle.std.specs.Prelude.{length, vec_len};
ghost use Rattle.tree.specs.Trees.{CondFalls, ProgFalls};

use super::node::{Clause, Node};

pub mod growing;

// Conditions and programs in tables.
#[derive(Drop)]
pub struct Tree {
    clauses: Vec<Clause>,
    nodes: Vec<Node>,
    ghost conds: { CondFalls clauses.items },
    ghost progs: { ProgFalls (length clauses.items) nodes.items },
}
