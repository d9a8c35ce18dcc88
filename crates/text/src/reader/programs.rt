ghost use Rattle.std.specs.Prelude.{◌≡◌, Some, MatchResult};
ghost use Rattle.golog.specs.Grammar.Sort.{choice, sequence, item, atom};
ghost use Rattle.golog.specs.Words.Word.{name as spelt};
ghost use Rattle.text.specs.Said.{said};
ghost use Rattle.text.specs.Progs.{ProgRead, ProgRefused, InsideRead, InsideRefused};

use super::growing::number;
use super::{Level, Reader};
use crate::fault::TextFault;
use crate::word::{Mark, Token, Word};
use tree::node::{Clause, Node};

impl<'a> Reader<'a> {
    // Sequences parted by |.
    // Not one function with sequence: choice, sequence, item and atom are readers of these names, and each calls the next, as in the grammar.
    #[cycle(atom_choice_inside_item_sequence)]
    pub(super) fn choice(&mut self, level: Level<'_>) -> Result<u16, TextFault>
        ensures { MatchResult result (λ i. ProgRead choice level.entry self.old self.new i) (λ f. ProgRefused choice level.entry self.old f) }
    {
        let mut left = self.sequence(level)?;
        while self.takes(Mark::Bar)? {
            let right = self.sequence(level)?;
            left = self.node(Node::Alt(left, right))?;
        }
        Ok(left)
    }

    // Items parted by ;.
    #[cycle(atom_choice_inside_item_sequence)]
    fn sequence(&mut self, level: Level<'_>) -> Result<u16, TextFault>
        ensures { MatchResult result (λ i. ProgRead sequence level.entry self.old self.new i) (λ f. ProgRefused sequence level.entry self.old f) }
    {
        let mut left = self.item(level)?;
        while self.takes(Mark::Semicolon)? {
            let right = self.item(level)?;
            left = self.node(Node::Seq(left, right))?;
        }
        Ok(left)
    }

    // An atom with any number of * behind it.
    #[cycle(atom_choice_inside_item_sequence)]
    fn item(&mut self, level: Level<'_>) -> Result<u16, TextFault>
        ensures { MatchResult result (λ i. ProgRead item level.entry self.old self.new i) (λ f. ProgRefused item level.entry self.old f) }
    {
        let mut part = self.atom(level)?;
        while self.takes(Mark::Star)? {
            part = self.node(Node::Star(part))?;
        }
        Ok(part)
    }

    // An act, a test, nil, a choice in brackets, if or while.
    #[cycle(atom_choice_inside_item_sequence)]
    fn atom(&mut self, level: Level<'_>) -> Result<u16, TextFault>
        ensures { MatchResult result (λ i. ProgRead atom level.entry self.old self.new i) (λ f. ProgRefused atom level.entry self.old f) }
    {
        let Some(token) = self.ahead else {
            return Err(self.misplaced(level.end));
        };
        match token.word {
            Word::Name(name) => self.act(level, token, name),
            Word::Nil => {
                let c = self.constant(token, Clause::True)?;
                self.node(Node::Test(c))
            }
            Word::OpenSquare => {
                let inner = self.open(level, token)?;
                let c = self.condition(inner, Mark::CloseSquare)?;
                self.node(Node::Test(c))
            }
            Word::Open => {
                let inner = self.open(level, token)?;
                self.inside(inner, Mark::Close)
            }
            Word::If => {
                let inner = self.open(level, token)?;
                let c = self.condition(inner, Mark::Then)?;
                let p = self.inside(inner, Mark::Else)?;
                let q = self.inside(inner, Mark::Fi)?;
                self.branch(c, p, q)
            }
            Word::While => {
                let inner = self.open(level, token)?;
                let c = self.condition(inner, Mark::Do)?;
                let p = self.inside(inner, Mark::Od)?;
                self.repeat(c, p)
            }
            _ => Err(self.misplaced(level.end)),
        }
    }

    // Not one function with condition: recursion through a closure or a trait's method gets no proof.
    // A choice, and the mark that closes it.
    #[cycle(atom_choice_inside_item_sequence)]
    fn inside(&mut self, level: Level<'_>, mark: Mark) -> Result<u16, TextFault>
        ensures { MatchResult result (λ i. InsideRead level.entry self.old self.new mark i) (λ f. InsideRefused level.entry self.old mark f) }
    {
        let part = self.choice(level)?;
        self.close(mark, level.end)?;
        Ok(part)
    }

    // An act.
    fn act(&mut self, level: Level<'_>, token: Token<'a>, name: &[u8]) -> Result<u16, TextFault>
        requires ahead_value { self.old.ahead ≡ Some token }
        requires word_value { said token.word ≡ spelt name.now }
        ensures { MatchResult result (λ i. ProgRead atom level.entry self.old self.new i) (λ f. ProgRefused atom level.entry self.old f) }
    {
        let act = number(level.acts, name, token.at)?;
        self.take_act(token)?;
        self.node(Node::Act(act))
    }
}
