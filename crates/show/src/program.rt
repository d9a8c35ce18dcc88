use super::page::Page;
use intake::Failure;
use tree::node::{Clause, Node};
use tree::tree::Tree;

impl Page<'_> {
    // Prints a condition with all its brackets, down to a depth.
    #[cycle(clause_joined_clauses)]
    fn clause(self, tree: &Tree, i: u16, depth: u16) -> Result<(), Failure> {
        let rt = self.rt;
        if depth == 0 {
            return Ok(());
        }
        match tree.clause(i) {
            None => Ok(()),
            Some(Clause::True) => Ok(print!(rt; "true")?),
            Some(Clause::False) => Ok(print!(rt; "false")?),
            Some(Clause::Fact(fact)) => self.fact(fact),
            Some(Clause::Not(a)) => {
                print!(rt; "not ")?;
                self.clause(tree, a, depth - 1)
            }
            Some(Clause::And(a, b)) => self.joined_clauses(tree, a, "and", b, depth - 1),
            Some(Clause::Or(a, b)) => self.joined_clauses(tree, a, "or", b, depth - 1),
        }
    }

    #[cycle(clause_joined_clauses)]
    fn joined_clauses(
        self,
        tree: &Tree,
        a: u16,
        sign: &str,
        b: u16,
        depth: u16,
    ) -> Result<(), Failure> {
        let rt = self.rt;
        print!(rt; "(")?;
        self.clause(tree, a, depth)?;
        print!(rt; " {sign} ")?;
        self.clause(tree, b, depth)?;
        print!(rt; ")")?;
        Ok(())
    }

    // Prints a program with all its brackets, down to a depth.
    #[cycle(joined_nodes_node)]
    fn node(self, tree: &Tree, i: u16, depth: u16) -> Result<(), Failure> {
        let rt = self.rt;
        if depth == 0 {
            return Ok(());
        }
        match tree.node(i) {
            None => Ok(()),
            Some(Node::Act(act)) => self.act(act),
            Some(Node::Test(c)) => {
                print!(rt; "[")?;
                self.clause(tree, c, u16::MAX)?;
                print!(rt; "]")?;
                Ok(())
            }
            Some(Node::Seq(a, b)) => self.joined_nodes(tree, a, ";", b, depth - 1),
            Some(Node::Alt(a, b)) => self.joined_nodes(tree, a, "|", b, depth - 1),
            Some(Node::Star(a)) => {
                self.node(tree, a, depth - 1)?;
                print!(rt; "*")?;
                Ok(())
            }
        }
    }

    // Not one function with joined_clauses: recursion through a closure or a trait's method gets no proof.
    #[cycle(joined_nodes_node)]
    fn joined_nodes(
        self,
        tree: &Tree,
        a: u16,
        sign: &str,
        b: u16,
        depth: u16,
    ) -> Result<(), Failure> {
        let rt = self.rt;
        print!(rt; "(")?;
        self.node(tree, a, depth)?;
        print!(rt; " {sign} ")?;
        self.node(tree, b, depth)?;
        print!(rt; ")")?;
        Ok(())
    }

    // The routine as it was read: its words grouped, with `if`, `while` and `nil` written out.
    pub(crate) fn program(self) -> Result<(), Failure> {
        let rt = self.rt;
        println!(rt; "read as")?;
        match self.job.routine().tree() {
            Some((tree, root)) => self.node(tree, root, u16::MAX)?,
            None => print!(rt; "[true]")?,
        }
        println!(rt; "")?;
        Ok(())
    }
}
