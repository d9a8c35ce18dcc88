ghost use Rattle.std.specs.Prelude.{◌≡◌, Some, MatchResult};
ghost use Rattle.golog.specs.Grammar.CondSort.{disjunction, conjunction, literal};
ghost use Rattle.tree.specs.Trees.{cond_node};
ghost use Rattle.tree.specs.Held.{cond_at};
ghost use Rattle.text.specs.Said.{said};
ghost use Rattle.text.specs.Steps.{OverDone};
ghost use Rattle.text.specs.Conds.{CondRead, CondRefused, CondClosed, CondUnclosed, CondTaken};

use super::growing::number;
use super::{Level, Reader};
use crate::fault::TextFault;
use crate::word::{Mark, Token, Word};
use tree::node::Clause;

impl<'a> Reader<'a> {
    // Conjunctions parted by or.
    // Not one function with conjunction: an enum with a match each for the mark, the part and the clause would stand in for six lines.
    #[cycle(condition_conjunction_disjunction_literal)]
    fn disjunction(&mut self, level: Level<'_>) -> Result<u16, TextFault>
        ensures { MatchResult result (λ i. CondRead disjunction level.entry self.old self.new i) (λ f. CondRefused disjunction level.entry self.old f) }
    {
        let mut left = self.conjunction(level)?;
        while self.takes(Mark::Or)? {
            let right = self.conjunction(level)?;
            left = self.clause(Clause::Or(left, right))?;
        }
        Ok(left)
    }

    // Literals parted by and.
    #[cycle(condition_conjunction_disjunction_literal)]
    fn conjunction(&mut self, level: Level<'_>) -> Result<u16, TextFault>
        ensures { MatchResult result (λ i. CondRead conjunction level.entry self.old self.new i) (λ f. CondRefused conjunction level.entry self.old f) }
    {
        let mut left = self.literal(level)?;
        while self.takes(Mark::And)? {
            let right = self.literal(level)?;
            left = self.clause(Clause::And(left, right))?;
        }
        Ok(left)
    }

    // A fact, true, false, a condition in brackets, or one behind not.
    #[cycle(condition_conjunction_disjunction_literal)]
    fn literal(&mut self, level: Level<'_>) -> Result<u16, TextFault>
        ensures { MatchResult result (λ i. CondRead literal level.entry self.old self.new i) (λ f. CondRefused literal level.entry self.old f) }
    {
        let Some(token) = self.ahead else {
            return Err(self.misplaced(level.end));
        };
        match token.word {
            Word::Name(name) => {
                let fact = number(level.facts, name, token.at)?;
                self.constant(token, Clause::Fact(fact))
            }
            Word::True => self.constant(token, Clause::True),
            Word::False => self.constant(token, Clause::False),
            Word::Not => {
                let inner = self.open(level, token)?;
                let part = self.literal(inner)?;
                self.clause(Clause::Not(part))
            }
            Word::Open => {
                let inner = self.open(level, token)?;
                self.condition(inner, Mark::Close)
            }
            _ => Err(self.misplaced(level.end)),
        }
    }

    // A condition, and the mark that closes it.
    #[cycle(condition_conjunction_disjunction_literal)]
    pub(super) fn condition(&mut self, level: Level<'_>, mark: Mark) -> Result<u16, TextFault>
        ensures { MatchResult result (λ i. CondClosed level.entry self.old self.new mark i) (λ f. CondUnclosed level.entry self.old mark f) }
    {
        let part = self.disjunction(level)?;
        self.close(mark, level.end)?;
        Ok(part)
    }

    // A condition that is the word ahead.
    pub(super) fn constant(&mut self, token: Token<'a>, clause: Clause) -> Result<u16, TextFault>
        requires { self.old.ahead ≡ Some token }
        ensures { MatchResult result (λ i. CondTaken self.old self.new (said token.entry.word) (cond_node (cond_at self.old.tree) clause) i) (λ f. OverDone self.old (said token.entry.word) f) }
    {
        self.take(token)?;
        self.clause(clause)
    }
}
