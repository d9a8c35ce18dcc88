ghost use Rattle.std.specs.Prelude.{◌≡◌, ℕ, ◌*◌, ◌<◌, ◌≤◌, None, vec_len, slice_index_or};
ghost use Rattle.std.specs.Option.{unwrap_or};

use locks::facts::FactCount;

pub mod answers;
mod edits;

// The most states that can be listed.
pub const MOST_LISTED: u32 = 1_024;

// The lock whose states are listed, each by its valuation, and whose moves are: for a state, an act and a reaction
// the state after, or nothing.
#[derive(Drop)]
pub struct ListedLock {
    facts: FactCount,
    acts: u8,
    first: u32,
    states: u32,
    valuations: Vec<u16>,
    // A table and no map: a move is asked for at every question of the lock, and an answer is one look.
    moves: Vec<Option<u16>>,
    ghost ranges: { (1 ≤ facts) × (facts ≤ 12) × (1 ≤ acts) × (acts ≤ 31) },
    ghost counts: { (1 ≤ states) × (states ≤ 1024) × (first < states) },
    ghost sizes: { (vec_len valuations ≤ states) × (vec_len moves ≡ states * acts * 8) },
    ghost ends: { (i : ℕ) → unwrap_or (slice_index_or moves.items i None) 0 < states },
}
