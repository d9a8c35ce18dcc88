ghost use Rattle.std.specs.Prelude.{◌≡◌, Some, MatchOption, MatchResult};
ghost use Rattle.golog.specs.Reading.{most_depth};
ghost use Rattle.text.specs.Said.{said, mark_word};
ghost use Rattle.text.specs.Rest.{Deeper};
ghost use Rattle.text.specs.Steps.{Passed, Full, Taken, TakenAct, OverDone, OverDoneAct, OverDeep, Takes, Unclosed, Unplaced};

use super::{Level, Reader};
use crate::fault::{TextFault, WordFault};
use crate::word::{Mark, Token, Word};

// The most words of a text.
const MOST_WORDS: usize = 512;

// The most act words of a text.
const MOST_ACT_WORDS: usize = 63;

// The most parts that are open round another.
const MOST_DEPTH: usize = 32;

impl<'a> Level<'a> {
    // One level deeper, unless that is too deep.
    fn deeper(self) -> Option<Level<'a>>
        ensures { MatchOption result (self.entry.depth ≡ most_depth) (λ v. Deeper self.entry v) }
    {
        if self.depth >= MOST_DEPTH {
            return None;
        }
        // Not `..self`, which a struct with an invariant does not take.
        Some(Level {
            facts: self.facts,
            acts: self.acts,
            end: self.end,
            depth: self.depth + 1,
        })
    }
}

impl<'a> Reader<'a> {
    // Takes the word ahead, unless there are too many.
    // The word is passed in: the caller has found it ahead, and a second look would have a branch for the text's end that never runs.
    pub(super) fn take(&mut self, token: Token<'a>) -> Result<(), TextFault>
        requires { self.old.ahead ≡ Some token }
        ensures { MatchResult result (λ _. Passed self.old self.new token.entry) (λ f. Full self.old token.entry f) }
    {
        if self.taken >= MOST_WORDS {
            return Err(TextFault::OverLimit(token.at));
        }
        self.taken += 1;
        self.ahead = self.words.next();
        Ok(())
    }

    // Takes the word ahead, an act word.
    pub(super) fn take_act(&mut self, token: Token<'a>) -> Result<(), TextFault>
        requires { self.old.ahead ≡ Some token }
        ensures { MatchResult result (λ _. TakenAct self.old self.new (said token.entry.word)) (λ f. OverDoneAct self.old (said token.entry.word) f) }
    {
        if self.acts >= MOST_ACT_WORDS {
            return Err(TextFault::OverLimit(token.at));
        }
        self.take(token)?;
        self.acts += 1;
        Ok(())
    }

    // Takes the word ahead, which opens one level more.
    pub(super) fn open<'n>(
        &mut self,
        level: Level<'n>,
        token: Token<'a>,
    ) -> Result<Level<'n>, TextFault>
        requires { self.old.ahead ≡ Some token }
        ensures { MatchResult result (λ v. Deeper level.entry v × Taken self.old self.new (said token.entry.word)) (λ f. OverDeep self.old (said token.entry.word) level.entry.depth f) }
    {
        let inner = level.deeper().ok_or(TextFault::OverLimit(token.at))?;
        self.take(token)?;
        Ok(inner)
    }

    // Takes the word ahead if it is this mark.
    pub(super) fn takes(&mut self, mark: Mark) -> Result<bool, TextFault>
        ensures { MatchResult result (λ b. Takes b self.old self.new mark) (λ f. OverDone self.old (mark_word mark) f) }
    {
        let Some(token) = self.ahead else {
            return Ok(false);
        };
        if token.word != Word::Behind(mark) {
            return Ok(false);
        }
        self.take(token)?;
        Ok(true)
    }

    // Why the word ahead, or the text's end, has no place here.
    pub(super) fn misplaced(&self, end: usize) -> TextFault
        ensures { Unplaced self.now end result }
    {
        let Some(token) = self.ahead else {
            return TextFault::Misplaced(end);
        };
        match token.word {
            Word::Strange => WordFault::Strange(token.at).into(),
            _ => TextFault::Misplaced(token.at),
        }
    }

    // Takes the mark that closes a part.
    pub(super) fn close(&mut self, mark: Mark, end: usize) -> Result<(), TextFault>
        ensures { MatchResult result (λ _. Taken self.old self.new (mark_word mark)) (λ f. Unclosed self.old mark end f) }
    {
        if self.takes(mark)? {
            Ok(())
        } else {
            Err(self.misplaced(end))
        }
    }
}
