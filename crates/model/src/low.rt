// The lowest lock of a draft, filled record by record.
ghost use Rattle.std.specs.Prelude.{◌≡◌, ℕ, true, false, length, is_some, None, MatchResult};
ghost use Rattle.items.specs.Layout.{said};
ghost use Rattle.items.specs.Layout.Entry.{rule, change, state, move};
ghost use Rattle.items.specs.Ranges.{head_field};
ghost use Rattle.model.specs.Contents.{Contents, silence, with_item, rule_of, change_of, move_of};
ghost use Rattle.lowest.specs.Facts.{rule_in};
ghost use Rattle.lowest.specs.FactViews.{fact_rules};
ghost use Rattle.model.specs.Closing.{all_below, lock_lacking};
ghost use Rattle.model.specs.Stands.{LowestStands, Fit};
ghost use Rattle.items.specs.declared.item.Header.{Header as Head};

use super::fault::ModelFault;
use items::item::{Header, Item};
use items::kind::Form;
use lowest::facts::{Change, FactLock, Rule};
use lowest::listed::ListedLock;
use lowest::lowest::Lowest;
use std::alloc::Global;

// The lock of a head in range, with nothing said of it yet.
pub(crate) fn open(heap: Global, head: &Header) -> Result<Lowest, ModelFault>
    requires { head_field head.now ≡ None }
    ensures { MatchResult result (λ l. LowestStands l head.now silence) (λ f. f ≡ ModelFault.Memory) }
{
    let first = u32::from(head.first);
    if Form::try_from(head.form) == Ok(Form::Facts) {
        let lock = FactLock::new(heap, head.facts, head.acts, first).map_err(
            |_| ModelFault::Memory,
        )?;
        Ok(Lowest::Facts(lock))
    } else {
        let states = u32::from(head.states);
        let lock = ListedLock::new(heap, head.facts, head.acts, first, states).map_err(
            |_| ModelFault::Memory,
        )?;
        Ok(Lowest::Listed(lock))
    }
}

// What a lock holds of what was said. That it stands is a relation and no view of the lock: its tables forget the order of the records.
pub(crate) fn has_rule(lowest: &Lowest, act: u8) -> bool
    ensures { (h : Head) (c : Contents) → LowestStands lowest.now h c → result ≡ is_some (rule_of c.rules act) }
{
    matches!(lowest, Lowest::Facts(lock) if lock.rule(act).is_some())
}

pub(crate) fn has_change(lowest: &Lowest, act: u8, reaction: u8) -> bool
    ensures { (h : Head) (c : Contents) → LowestStands lowest.now h c → result ≡ is_some (change_of c.changes act reaction) }
{
    matches!(lowest, Lowest::Facts(lock) if lock.change(act, reaction).is_some())
}

pub(crate) fn has_move(lowest: &Lowest, from: u16, act: u8, reaction: u8) -> bool
    ensures { (h : Head) (c : Contents) → LowestStands lowest.now h c → result ≡ is_some (move_of c.moves from act reaction) }
{
    matches!(lowest, Lowest::Listed(lock) if lock.move_to(u32::from(from), act, reaction).is_some())
}

// How many states are listed.
pub(crate) fn listed(lowest: &Lowest) -> u32
    ensures { (h : Head) (c : Contents) → LowestStands lowest.now h c → result ≡ length c.valuations }
{
    match lowest {
        Lowest::Listed(lock) => lock.listed(),
        _ => 0,
    }
}

pub(crate) fn add_rule(lowest: &mut Lowest, act: u8, added: Rule)
    ensures { (h : Head) (c : Contents) → LowestStands lowest.old h c → Fit h c (rule act added.need added.lack) → LowestStands lowest.new h (with_item c (rule act added.need added.lack)) }
{
    if let Lowest::Facts(lock) = lowest {
        let _ = lock.add_rule(act, added);
    }
}

pub(crate) fn add_change(lowest: &mut Lowest, act: u8, reaction: u8, added: Change)
    ensures { (h : Head) (c : Contents) → LowestStands lowest.old h c → Fit h c (change act reaction added.need added.lack added.set added.clear) → LowestStands lowest.new h (with_item c (change act reaction added.need added.lack added.set added.clear)) }
{
    if let Lowest::Facts(lock) = lowest {
        let _ = lock.add_change(act, reaction, added);
    }
}

pub(crate) fn add_state(lowest: &mut Lowest, valuation: u16) -> Result<(), ModelFault>
    ensures { MatchResult result (λ _. (h : Head) (c : Contents) → LowestStands lowest.old h c → Fit h c (state valuation) → LowestStands lowest.new h (with_item c (state valuation))) (λ f. f ≡ ModelFault.Memory) }
{
    if let Lowest::Listed(lock) = lowest {
        lock.add_state(valuation).map_err(|_| ModelFault::Memory)?;
    }
    Ok(())
}

pub(crate) fn add_move(lowest: &mut Lowest, from: u16, act: u8, reaction: u8, after: u16)
    ensures { (h : Head) (c : Contents) → LowestStands lowest.old h c → Fit h c (move from act reaction after) → LowestStands lowest.new h (with_item c (move from act reaction after)) }
{
    if let Lowest::Listed(lock) = lowest {
        let _ = lock.add_move(u32::from(from), act, reaction, u32::from(after));
    }
}

// Takes an item that may come next into the lock; what is not of the lock leaves it as it is.
pub(crate) fn enter(lowest: &mut Lowest, item: Item<'_>) -> Result<(), ModelFault>
    ensures { MatchResult result (λ _. (h : Head) (c : Contents) → LowestStands lowest.old h c → Fit h c (said item.entry) → LowestStands lowest.new h (with_item c (said item.entry))) (λ f. f ≡ ModelFault.Memory) }
{
    match item {
        Item::Rule { act, need, lack } => add_rule(lowest, act, Rule { need, lack }),
        Item::Change {
            act,
            reaction,
            need,
            lack,
            set,
            clear,
        } => {
            add_change(
                lowest,
                act,
                reaction,
                Change {
                    need,
                    lack,
                    set,
                    clear,
                },
            )
        }
        Item::State(valuation) => add_state(lowest, valuation)?,
        Item::Move {
            state,
            act,
            reaction,
            after,
        } => add_move(lowest, state, act, reaction, after),
        _ => {}
    }
    Ok(())
}

// Whether each of so many acts has a rule.
fn all_ruled(lock: &FactLock, acts: u8) -> bool
    ensures { result ≡ all_below acts (λ a. is_some (rule_in (fact_rules lock.now) a)) }
{
    (0..acts).all(|act| lock.rule(act).is_some())
}

// Whether a rule of an act, or a state, never came.
pub(crate) fn lacks(lowest: &Lowest, head: &Header) -> bool
    ensures { (c : Contents) → LowestStands lowest.now head.now c → result ≡ lock_lacking head.now c }
{
    match lowest {
        Lowest::Empty => false,
        Lowest::Facts(lock) => !all_ruled(lock, head.acts),
        Lowest::Listed(lock) => lock.listed() < u32::from(head.states),
    }
}
