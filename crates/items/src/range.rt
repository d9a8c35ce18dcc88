ghost use Rattle.std.specs.Prelude.{◌≡◌, ◌^◌, ◌&&◌, ◌||◌, ◌==◌, nat_le, slice_index};
ghost use Rattle.items.specs.Layout.{said};
ghost use Rattle.items.specs.Layout.Entry.{rule, change, state, move, mark, allowance};
ghost use Rattle.items.specs.Ranges.{first_bad, within_facts, right_states, head_field, bad_field};

use super::item::{Header, Item};
use super::kind::Form;
use locks::allowance::MOST_BORNE;
use locks::lock::{MOST_ACTS, MOST_FACTS, REACTIONS};
use lowest::listed::MOST_LISTED;

// The offset of the first field that failed its test. The tests are answers, made before, and no functions to be run.
fn first_bad(tests: &[(usize, bool)]) -> Option<usize>
    ensures { result ≡ first_bad tests.now }
{
    tests.iter().find(|(_, good)| !*good).map(|(at, _)| *at)
}

// Whether no bit at or above the count of facts is set.
fn within_facts(facts: u8, bits: u16) -> bool
    ensures { result ≡ within_facts facts bits }
{
    facts >= 16 || (bits as u32) < 1u32 << facts
}

fn is_power(facts: u8, states: u16) -> bool
    ensures { result ≡ (states == 2 ^ facts) }
{
    facts < 16 && states as u32 == 1u32 << facts
}

fn names_form(number: u8) -> bool
    ensures { result ≡ ((number == 1) || number == 2) }
{
    Form::try_from(number).is_ok()
}

fn is_count(count: u8, most: u8) -> bool
    ensures { result ≡ (nat_le 1 count && nat_le count most) }
{
    (1..=most).contains(&count)
}

fn right_states(head: &Header) -> bool
    ensures { result ≡ right_states head.now }
{
    match Form::try_from(head.form) {
        Ok(Form::Facts) => is_power(head.facts, head.states),
        _ => (1..=MOST_LISTED).contains(&u32::from(head.states)),
    }
}

// The offset of the first field of a head that is out of range.
pub fn head_field(head: &Header) -> Option<usize>
    ensures { result ≡ head_field head.now }
{
    first_bad(&[
        (0, names_form(head.form)),
        (1, is_count(head.facts, MOST_FACTS)),
        (2, is_count(head.acts, MOST_ACTS)),
        (3, right_states(head)),
        (5, head.first < head.states),
    ])
}

fn change_field(head: &Header, act: u8, reaction: u8, masks: [u16; 4]) -> Option<usize>
    ensures { result ≡ bad_field head.now (change act reaction (slice_index masks 0) (slice_index masks 1) (slice_index masks 2) (slice_index masks 3)) }
{
    let facts = head.facts;
    first_bad(&[
        (0, act < head.acts),
        (1, reaction < REACTIONS),
        (2, within_facts(facts, masks[0])),
        (4, within_facts(facts, masks[1])),
        (6, within_facts(facts, masks[2])),
        (8, within_facts(facts, masks[3])),
    ])
}

fn move_field(head: &Header, from: u16, act: u8, reaction: u8, after: u16) -> Option<usize>
    ensures { result ≡ bad_field head.now (move from act reaction after) }
{
    first_bad(&[
        (0, from < head.states),
        (2, act < head.acts),
        (3, reaction < REACTIONS),
        (4, after < head.states),
    ])
}

fn rule_field(head: &Header, act: u8, need: u16, lack: u16) -> Option<usize>
    ensures { result ≡ bad_field head.now (rule act need lack) }
{
    first_bad(&[
        (0, act < head.acts),
        (1, within_facts(head.facts, need)),
        (3, within_facts(head.facts, lack)),
    ])
}

// The offset of the first field of an item that is out of range under this head.
pub fn bad_field(head: &Header, item: Item<'_>) -> Option<usize>
    ensures { result ≡ bad_field head.now (said item.entry) }
{
    match item {
        Item::Head(other) => head_field(&other),
        Item::Fact(_) | Item::Act(_) | Item::Routine(_) => None,
        Item::Rule { act, need, lack } => rule_field(head, act, need, lack),
        Item::Change {
            act,
            reaction,
            need,
            lack,
            set,
            clear,
        } => { change_field(head, act, reaction, [need, lack, set, clear]) }
        Item::State(valuation) => first_bad(&[(0, within_facts(head.facts, valuation))]),
        Item::Move {
            state,
            act,
            reaction,
            after,
        } => move_field(head, state, act, reaction, after),
        Item::Mark { act, reaction } => first_bad(&[
            (0, act < head.acts),
            (1, reaction < REACTIONS),
        ]),
        Item::Allowance(k) => first_bad(&[(0, k <= MOST_BORNE)]),
    }
}
