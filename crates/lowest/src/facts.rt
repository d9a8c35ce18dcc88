ghost use Rattle.std.specs.Prelude.{◌≡◌, ℕ, ◌*◌, ◌^◌, ◌<◌, ◌≤◌, None, vec_len, slice_index_or};
ghost use Rattle.lowest.specs.Bits.{met, rewritten};
ghost use Rattle.lowest.specs.Facts.{set_bits};

use locks::facts::FactCount;

pub mod answers;
mod edits;
mod masks;

// The facts that must hold, and those that must not, for an act to be allowed: a bit for each.
#[derive(Clone, Copy)]
pub struct Rule {
    pub need: u16,
    pub lack: u16,
}

// When a reaction is possible, and what it makes of the facts: clear bits go, then set bits come.
// No Rule inside: a record of a file has the four masks side by side, and is turned into a change field by field.
#[derive(Clone, Copy)]
pub struct Change {
    pub need: u16,
    pub lack: u16,
    pub set: u16,
    pub clear: u16,
}

// The lock whose states are the valuations of its facts. It has a rule or none for each act,
// and a change or none for each act and reaction, eight to an act.
#[derive(Drop)]
pub struct FactLock {
    facts: FactCount,
    acts: u8,
    first: u32,
    // Two tables and no map: each is asked alone, at every question of the lock, and an answer is one look.
    rules: Vec<Option<Rule>>,
    changes: Vec<Option<Change>>,
    ghost ranges: { (1 ≤ facts) × (facts ≤ 12) × (1 ≤ acts) × (acts ≤ 31) × (first < 2 ^ facts) },
    ghost sizes: { (vec_len rules ≡ acts) × (vec_len changes ≡ acts * 8) },
    ghost masks: { (i : ℕ) → set_bits (slice_index_or changes.items i None) < 2 ^ facts },
}
