ghost use Rattle.std.specs.Prelude.{◌≡◌, ℕ, ◌+◌, ◌-◌, ◌^◌, ◌<◌, true, false, ◌⊎◌, length as size, Ok, Err, MatchResult};
ghost use Rattle.words.specs.Listed.{name_list};
ghost use Rattle.std.specs.Option.{option_map};
ghost use Rattle.items.specs.Layout.{Entry, said, text_in};
ghost use Rattle.model.specs.Contents.{Contents, silence, with_item};
ghost use Rattle.model.specs.Weigh.{begin, misnamed, name_fault, too_often, weigh, turn};
ghost use Rattle.model.specs.Stands.{Stands, Fit};

use super::super::fault::ModelFault;
use super::super::low;
use super::{Draft, Taken};
use items::item::Item;
use items::place::{open, place};
use items::range::{bad_field, head_field};
use locks::marks::Marks;
use records::{Record, split};
use std::alloc::Global;
use words::is_name;
use words::names::Names;

// The bytes of a record before its body.
const PREFIX: usize = 4;

// The most moves of a file.
const MOST_MOVES: usize = 2048;

// Refuses bytes that cannot be the next name behind those before it.
fn check_name(at: usize, name: &[u8], before: &Names) -> Result<(), ModelFault>
    requires { at + 4 < 2 ^ 64 }
    ensures { MatchResult result (λ _. misnamed at name.now (name_list before.now) ≡ None) (λ f. misnamed at name.now (name_list before.now) ≡ Some f) }
{
    if !is_name(name) {
        return Err(ModelFault::BadName(at + PREFIX));
    }
    if before.has(name) {
        return Err(ModelFault::SameName(at + PREFIX));
    }
    Ok(())
}

impl<'a> Draft<'a> {
    // Refuses a name that is none, or that has come already.
    fn check_item_name(&self, at: usize, item: Item<'_>) -> Result<(), ModelFault>
        requires { at + 4 < 2 ^ 64 }
        ensures { MatchResult result (λ _. name_fault (name_list self.now.facts) (name_list self.now.acts) at (said item.entry) ≡ None) (λ f. name_fault (name_list self.now.facts) (name_list self.now.acts) at (said item.entry) ≡ Some f) }
    {
        match item {
            Item::Fact(name) => check_name(at, name, &self.facts),
            Item::Act(name) => check_name(at, name, &self.acts),
            _ => Ok(()),
        }
    }

    // Whether there are as many of these already as there may be.
    fn too_often(&self, item: Item<'_>) -> bool
        ensures { (c : Contents) → Stands self.now c → result ≡ too_often self.now.head c (said item.entry) }
    {
        match item {
            Item::Head(_) => true,
            Item::Fact(_) => self.facts.count() >= self.head.facts as usize,
            Item::Act(_) => self.acts.count() >= self.head.acts as usize,
            Item::Rule { act, .. } => low::has_rule(&self.lowest, act),
            Item::Change { act, reaction, .. } => low::has_change(&self.lowest, act, reaction),
            Item::State(_) => low::listed(&self.lowest) >= self.head.states as u32,
            Item::Move {
                state,
                act,
                reaction,
                ..
            } => { low::has_move(&self.lowest, state, act, reaction) || self.moves >= MOST_MOVES }
            Item::Mark { act, reaction } => self.marks.has(act, reaction),
            Item::Allowance(_) => self.allowance.is_some(),
            Item::Routine(_) => self.text.is_some(),
        }
    }

    // What the record says, if it may stand where it stands.
    fn weigh(&self, raw: Record<'a>) -> Result<Item<'a>, ModelFault>
        requires { raw.at + 4 + size raw.body.now < 2 ^ 64 }
        ensures { (c : Contents) → Stands self.now c → MatchResult result (λ i. weigh self.now.head c raw.entry.at raw.entry.kind raw.entry.body.now ≡ Ok (said i)) (λ f. weigh self.now.head c raw.entry.at raw.entry.kind raw.entry.body.now ≡ Err f) }
    {
        let at = raw.at;
        let item = place(self.head.form, self.group, raw)?;
        if let Some(field) = bad_field(&self.head, item) {
            return Err(ModelFault::Field(at + PREFIX + field));
        }
        self.check_item_name(at, item)?;
        if self.too_often(item) {
            return Err(ModelFault::TooOften(at));
        }
        Ok(item)
    }

    // Takes an item that may come next into the tables.
    fn enter(&mut self, heap: Global, item: Item<'a>) -> Result<(), ModelFault>
        ensures head { self.new.head ≡ self.old.head }
        ensures stands { MatchResult result (λ _. (c : Contents) → Stands self.old c → Fit self.old.head c (said item.entry) → Stands self.new (with_item c (said item.entry))) (λ f. f ≡ ModelFault.Memory) }
    {
        self.group = item.kind().group();
        low::enter(&mut self.lowest, item)?;
        match item {
            Item::Fact(name) => self.facts.add(heap, name)?,
            Item::Act(name) => self.acts.add(heap, name)?,
            Item::Move { .. } => self.moves = self.moves.saturating_add(1),
            Item::Mark { act, reaction } => {
                self.marks.add(act, reaction);
            }
            Item::Allowance(k) => self.allowance = Some(k),
            Item::Routine(text) => self.text = Some(text),
            Item::Head(_) | Item::Rule { .. } | Item::Change { .. } | Item::State(_) => {}
        }
        Ok(())
    }

    // The draft of a file that begins with a head, and the bytes behind the head.
    pub fn begin(heap: Global, file: &'a [u8]) -> Result<(Draft<'a>, &'a [u8]), ModelFault>
        ensures { MatchResult result (λ p. (begin file.now ≡ Ok (p.0.head, p.1.now)) × Stands p.0 silence) (λ f. (f ≡ ModelFault.Memory) ⊎ (begin file.now ≡ Err f)) }
    {
        if file.is_empty() {
            return Err(ModelFault::Missing(0));
        }
        let raw = split(file, 0)?;
        let head = open(raw)?;
        if let Some(field) = head_field(&head) {
            return Err(ModelFault::Field(PREFIX + field));
        }
        let lowest = low::open(heap, &head)?;
        let draft = Draft {
            head,
            group: 0,
            facts: Names::new(heap),
            acts: Names::new(heap),
            lowest,
            moves: 0,
            marks: Marks::none(),
            allowance: None,
            text: None,
        };
        Ok((draft, raw.rest))
    }

    // Takes the record at the front of the bytes, which end a file of this length. A refused record ends the draft.
    pub fn next(
        mut self,
        heap: Global,
        length: usize,
        bytes: &'a [u8],
    ) -> Result<(Draft<'a>, Taken<'a>), ModelFault>
        ensures { (c : Contents) → Stands self.entry c → MatchResult result (λ t. (i : Entry) × (turn self.entry.head c (length - size bytes.now) bytes.now ≡ Ok (i, t.1.rest.now)) × (option_map (λ x. x.now) t.1.text ≡ text_in i) × Stands t.0 (with_item c i) × (t.0.head ≡ self.entry.head)) (λ f. (f ≡ ModelFault.Memory) ⊎ (turn self.entry.head c (length - size bytes.now) bytes.now ≡ Err f)) }
    {
        let at = length.saturating_sub(bytes.len());
        let raw = split(bytes, at)?;
        let item = self.weigh(raw)?;
        self.enter(heap, item)?;
        let text = item.text();
        Ok((
            self,
            Taken {
                rest: raw.rest,
                text,
            },
        ))
    }

    // The names of the facts, and of the acts, that have come.
    pub fn facts(&self) -> &Names
        ensures { result.now ≡ self.now.facts }
    {
        &self.facts
    }

    pub fn acts(&self) -> &Names
        ensures { result.now ≡ self.now.acts }
    {
        &self.acts
    }
}
