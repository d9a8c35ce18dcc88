ghost use Rattle.std.specs.Prelude.{◌≡◌, ℕ, ◌+◌, ◌<◌, ◌≤◌, true, false, ◌&&◌, [], ◌∷◌, ◌++◌, length, is_ok, if◌then◌else◌, IfOk, IfErr, MatchOption, MatchResult, slice_index_or};
ghost use Rattle.golog.specs.Programs.{eval, Valuation};
ghost use Rattle.golog.specs.Points.{valuation};
ghost use Rattle.tree.specs.Trees.{cond_lower, prog_lower};
ghost use Rattle.tree.specs.Added.{unadded};
ghost use Rattle.tree.specs.declared.tree.growing.Unadded.TheVariants.{Memory};
ghost use Rattle.tree.specs.Held.{clauses, nodes, cond_at, prog_at};

use super::Tree;
use crate::node::{Clause, Node};
use std::alloc::{AllocFailed, Global};

// Why an entry is not added: a part of it is no entry, the table is full, or no memory.
#[derive(Clone, Copy)]
pub enum Unadded {
    Part,
    Full,
    Memory,
}

impl<T: Drop> From<AllocFailed<T>> for Unadded {
    ghost from_gives = { λ _ r. r ≡ Memory };

    fn from(_e: AllocFailed<T>) -> Unadded {
        Unadded::Memory
    }
}

// The most entries of a table.
const MOST: usize = 65_535;

fn clause_is_lower(clause: Clause, n: usize) -> bool
    ensures { result ≡ cond_lower n clause }
{
    match clause {
        Clause::True | Clause::False | Clause::Fact(_) => true,
        Clause::Not(a) => (a as usize) < n,
        Clause::And(a, b) | Clause::Or(a, b) => (a as usize) < n && (b as usize) < n,
    }
}

fn node_is_lower(node: Node, conds: usize, n: usize) -> bool
    ensures { result ≡ prog_lower conds n node }
{
    match node {
        Node::Act(_) => true,
        Node::Test(c) => (c as usize) < conds,
        Node::Seq(a, b) | Node::Alt(a, b) => (a as usize) < n && (b as usize) < n,
        Node::Star(a) => (a as usize) < n,
    }
}

// One entry more, if there is room; its number.
fn push<T: Drop>(table: &mut Vec<T>, entry: T) -> Result<u16, Unadded>
    ensures table { table.new.items ≡ (if is_ok result then table.old.items ++ entry ∷ [] else table.old.items) }
    ensures number { IfOk result (λ i. i ≡ length table.old.items) }
    ensures refusal { IfErr result (λ u. u ≡ unadded true (length table.old.items)) }
{
    let n = table.len();
    if n >= MOST {
        return Err(Unadded::Full);
    }
    table.push(entry)?;
    Ok(n as u16)
}

impl Tree {
    pub fn new(heap: Global) -> Tree
        ensures clauses { clauses result ≡ [] }
        ensures nodes { nodes result ≡ [] }
    {
        Tree {
            clauses: Vec::new(heap),
            nodes: Vec::new(heap),
        }
    }

    // The condition, and below the program, of an entry: each table has its own.
    pub fn clause(&self, i: u16) -> Option<Clause>
        ensures { MatchOption result (length (clauses self.now) ≤ i) (λ c. (i < length (clauses self.now)) × (c ≡ slice_index_or (clauses self.now) i Clause.True)) }
    {
        self.clauses.get(i as usize).copied()
    }

    pub fn node(&self, i: u16) -> Option<Node>
        ensures { MatchOption result (length (nodes self.now) ≤ i) (λ n. (i < length (nodes self.now)) × (n ≡ slice_index_or (nodes self.now) i (Node.Act 0))) }
    {
        self.nodes.get(i as usize).copied()
    }

    // One condition more, of parts that are there; its number.
    pub fn add_clause(&mut self, clause: Clause) -> Result<u16, Unadded>
        ensures nodes { nodes self.new ≡ nodes self.old }
        ensures clauses { MatchResult result (λ i. (i ≡ length (clauses self.old)) × (cond_lower i clause ≡ true) × (clauses self.new ≡ clauses self.old ++ clause ∷ [])) (λ _. clauses self.new ≡ clauses self.old) }
        ensures refusal { IfErr result (λ u. u ≡ unadded (cond_lower (length (clauses self.old)) clause) (length (clauses self.old))) }
    {
        if !clause_is_lower(clause, self.clauses.len()) {
            return Err(Unadded::Part);
        }
        push(&mut self.clauses, clause)
    }

    // One program more, of parts that are there; its number.
    pub fn add_node(&mut self, node: Node) -> Result<u16, Unadded>
        ensures clauses { clauses self.new ≡ clauses self.old }
        ensures nodes { MatchResult result (λ i. (i ≡ length (nodes self.old)) × (prog_lower (length (clauses self.old)) i node ≡ true) × (nodes self.new ≡ nodes self.old ++ node ∷ [])) (λ _. nodes self.new ≡ nodes self.old) }
        ensures refusal { IfErr result (λ u. u ≡ unadded (prog_lower (length (clauses self.old)) (length (nodes self.old)) node) (length (nodes self.old))) }
    {
        if !node_is_lower(node, self.clauses.len(), self.nodes.len()) {
            return Err(Unadded::Part);
        }
        push(&mut self.nodes, node)
    }
}
