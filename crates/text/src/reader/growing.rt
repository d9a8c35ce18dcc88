ghost use Rattle.std.specs.Prelude.{◌≡◌, ◌<◌, length, MatchResult};
ghost use Rattle.std.proofs.Math.Option.{some};
ghost use Rattle.words.specs.Listed.{name_list};
ghost use Rattle.golog.specs.Programs.{if_then_else, while_do};
ghost use Rattle.golog.specs.Programs.Prog.{test, seq};
ghost use Rattle.golog.specs.Grammar.{number_of};
ghost use Rattle.tree.specs.Trees.{cond_node, prog_node};
ghost use Rattle.tree.specs.Held.{clauses, nodes, cond_at, prog_at};
ghost use Rattle.text.specs.declared.fault.TextFault.TheVariants.{Memory};
ghost use Rattle.text.specs.Built.{BuiltCond, Built, Nameless};

use super::Reader;
use crate::fault::TextFault;
use tree::node::{Clause, Node};
use words::names::Names;

// The number of a name. A table has no room for numbers above 255.
pub(super) fn number(names: &Names, word: &[u8], at: usize) -> Result<u8, TextFault>
    ensures { MatchResult result (λ i. number_of (name_list names.now) word.now ≡ some i) (λ f. Nameless (number_of (name_list names.now) word.now) at f) }
{
    let number = names.find(word).ok_or(TextFault::Unknown(at))?;
    u8::try_from(number).map_err(|_| TextFault::Memory)
}

impl Reader<'_> {
    // Conditions and programs stand in tables of their own, each with its call.
    // One condition more.
    pub(super) fn clause(&mut self, clause: Clause) -> Result<u16, TextFault>
        ensures { MatchResult result (λ i. BuiltCond self.old self.new (cond_node (cond_at self.old.tree) clause) i) (λ f. f ≡ Memory) }
    {
        Ok(self.tree.add_clause(clause)?)
    }

    // One program more.
    pub(super) fn node(&mut self, node: Node) -> Result<u16, TextFault>
        ensures { MatchResult result (λ i. Built self.old self.new (prog_node (prog_at self.old.tree) (cond_at self.old.tree) node) i) (λ f. f ≡ Memory) }
    {
        Ok(self.tree.add_node(node)?)
    }

    // Numbers of entries and no type that says that the entry is there: it would have to be made anew whenever the table grows.
    // A program behind a test.
    pub(super) fn guarded(&mut self, c: u16, p: u16) -> Result<u16, TextFault>
        requires { p < length (nodes self.old.tree) }
        ensures { MatchResult result (λ i. Built self.old self.new (seq (test (cond_at self.old.tree c)) (prog_at self.old.tree p)) i) (λ f. f ≡ Memory) }
    {
        let t = self.node(Node::Test(c))?;
        self.node(Node::Seq(t, p))
    }

    // One program where a condition holds, and another where it fails.
    pub(super) fn branch(&mut self, c: u16, p: u16, q: u16) -> Result<u16, TextFault>
        requires c_in_bounds { c < length (clauses self.old.tree) }
        requires p_in_bounds { p < length (nodes self.old.tree) }
        requires q_in_bounds { q < length (nodes self.old.tree) }
        ensures { MatchResult result (λ i. Built self.old self.new (if_then_else (cond_at self.old.tree c) (prog_at self.old.tree p) (prog_at self.old.tree q)) i) (λ f. f ≡ Memory) }
    {
        let first = self.guarded(c, p)?;
        let n = self.clause(Clause::Not(c))?;
        let second = self.guarded(n, q)?;
        self.node(Node::Alt(first, second))
    }

    // A program again and again while a condition holds.
    pub(super) fn repeat(&mut self, c: u16, p: u16) -> Result<u16, TextFault>
        requires c_in_bounds { c < length (clauses self.old.tree) }
        requires p_in_bounds { p < length (nodes self.old.tree) }
        ensures { MatchResult result (λ i. Built self.old self.new (while_do (cond_at self.old.tree c) (prog_at self.old.tree p)) i) (λ f. f ≡ Memory) }
    {
        let body = self.guarded(c, p)?;
        let turns = self.node(Node::Star(body))?;
        let n = self.clause(Clause::Not(c))?;
        let end = self.node(Node::Test(n))?;
        self.node(Node::Seq(turns, end))
    }
}
