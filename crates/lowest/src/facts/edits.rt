ghost use Rattle.std.specs.Prelude.{◌≡◌, ◌+◌, ◌*◌, ◌≤◌, true, false, ◌&&◌, if◌then◌else◌, is_ok, Some, MatchResult, IfErr, slice_set};
ghost use Rattle.locks.specs.Meaning.{reactions};
ghost use Rattle.lowest.specs.FactViews.{fact_rules, fact_changes, rule_fits, change_fits, rule_within, change_within, SameButRules, SameButChanges, FreshFacts};
ghost use Rattle.lowest.specs.Facts.{rule_in, change_in, fact_range};

use super::{Change, FactLock, Rule};
use crate::counts::counted;
use crate::refused::Refused;
use crate::table::at;
use crate::unmade::Unmade;
use locks::lock::{REACTIONS, reaction_place};
use std::alloc::Global;

impl FactLock {
    // A lock with no rule and no change; refused if a number is out of range, else for want of memory.
    pub fn new(heap: Global, facts: u8, acts: u8, first: u32) -> Result<FactLock, Unmade>
        ensures { MatchResult result (λ l. (fact_range facts acts first ≡ true) × FreshFacts facts acts first l) (λ e. e ≡ (if fact_range facts acts first then Unmade.Memory else Unmade.Range)) }
    {
        let facts = counted(facts, acts).ok_or(Unmade::Range)?;
        if first >= facts.valuations() {
            return Err(Unmade::Range);
        }
        let rules = vec![in heap; None; usize::from(acts)]?;
        let changes = vec![in heap; None; usize::from(acts) * usize::from(REACTIONS)]?;
        Ok(FactLock {
            facts,
            acts,
            first,
            rules,
            changes,
        })
    }

    // The act's rule, if the act is one of the lock's and has one.
    pub fn rule(&self, act: u8) -> Option<Rule>
        ensures { result ≡ rule_in (fact_rules self.now) act }
    {
        at(&self.rules, usize::from(act))
    }

    // The change of the act and the reaction, if there is one.
    pub fn change(&self, act: u8, reaction: u8) -> Option<Change>
        ensures { result ≡ change_in (fact_changes self.now) act reaction }
    {
        if reaction < REACTIONS {
            at(&self.changes, reaction_place(act, reaction))
        } else {
            None
        }
    }

    // Gives the act its rule. Refused, and nothing changed, if there is no such act or a mask is too long, and else if it has one.
    pub fn add_rule(&mut self, act: u8, rule: Rule) -> Result<(), Refused>
        ensures answer { is_ok result ≡ rule_fits self.old act rule }
        ensures ground { IfErr result (λ e. e ≡ (if rule_within self.old act rule then Refused.Taken else Refused.Range)) }
        ensures rules { fact_rules self.new ≡ (if is_ok result then slice_set (fact_rules self.old) act (Some rule) else fact_rules self.old) }
        ensures rest { SameButRules self.old self.new }
        ensures kept { is_ok result ≡ false → self.new ≡ self.old }
    {
        if act >= self.acts || !rule.is_of(self.facts) {
            return Err(Refused::Range);
        }
        if self.rule(act).is_some() {
            return Err(Refused::Taken);
        }
        self.rules[usize::from(act)] = Some(rule);
        Ok(())
    }

    // Gives the act and the reaction their change. Refused, and nothing changed, if they are out of range or a mask
    // is too long, and else if they have one.
    pub fn add_change(&mut self, act: u8, reaction: u8, change: Change) -> Result<(), Refused>
        ensures answer { is_ok result ≡ change_fits self.old act reaction change }
        ensures ground { IfErr result (λ e. e ≡ (if change_within self.old act reaction change then Refused.Taken else Refused.Range)) }
        ensures changes { fact_changes self.new ≡ (if is_ok result then slice_set (fact_changes self.old) (act * reactions + reaction) (Some change) else fact_changes self.old) }
        ensures rest { SameButChanges self.old self.new }
        ensures kept { is_ok result ≡ false → self.new ≡ self.old }
    {
        if act >= self.acts || reaction >= REACTIONS || !change.is_of(self.facts) {
            return Err(Refused::Range);
        }
        if self.change(act, reaction).is_some() {
            return Err(Refused::Taken);
        }
        self.changes[reaction_place(act, reaction)] = Some(change);
        Ok(())
    }
}
