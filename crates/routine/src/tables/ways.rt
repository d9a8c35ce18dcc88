ghost use Rattle.std.specs.Prelude.{◌≡◌, ◌<◌, ◌&&◌, ◌==◌, nat_lt};
ghost use Rattle.golog.specs.Points.{points, word, together, go_on_together, two_ways_at, ways};
ghost use Rattle.routine.specs.Sets.{Holds};
ghost use Rattle.routine.specs.Kept.{tables_prog};
ghost use Rattle.routine.specs.Found.{FoundSecond, FoundPair, found_ways};

use super::Tables;
use crate::set::PointSet;

impl Tables {
    // The points with the same act word before them as this one.
    fn alike(&self, point: u8) -> PointSet
        ensures { Holds result (λ k. nat_lt k (points (tables_prog self.now)) && word (tables_prog self.now) point == word (tables_prog self.now) k) }
    {
        let act = self.word(point as u32);
        let mut set = PointSet::EMPTY;
        // A loop and no fold: its closure would take the set and hand it back, for one test and one union.
        for k in 0..self.points() {
            if act == self.word(k as u32) {
                set = set.union(PointSet::single(k));
            }
        }
        set
    }

    // The points that come next by the same act as `first`, under one valuation with it.
    fn together(&self, from: u8, first: u8) -> PointSet
        requires { first < 64 }
        ensures { Holds result (together self.now.facts (tables_prog self.now) from first) }
    {
        let mut set = PointSet::EMPTY;
        // A loop and no fold, as above.
        for valuation in 0..self.facts.valuations() {
            let next = self.row(from as u32, valuation).next;
            if next.contains(first) {
                set = set.union(next);
            }
        }
        // From most points `first` never comes next; then nothing does with it, and those of its act need not be sought.
        if !set.has_some() {
            return set;
        }
        set.common(self.alike(first))
    }

    // The points that go on under one valuation with `first`.
    fn go_on_together(&self, first: u8) -> PointSet
        requires { first < 64 }
        ensures { Holds result (go_on_together self.now.facts (tables_prog self.now) first) }
    {
        let mut set = PointSet::EMPTY;
        for going in &self.going {
            if going.contains(first) {
                set = set.union(*going);
            }
        }
        set
    }

    // The lowest second of two ways from a point, by the first.
    fn second_way(&self, from: u8, first: u8) -> Option<u8>
        requires { first < points (tables_prog self.now) }
        ensures { FoundSecond (points (tables_prog self.now)) (two_ways_at self.now.facts (tables_prog self.now) from first) result }
    {
        let both = self
            .together(from, first)
            .common(self.go_on_together(first));
        (first + 1..self.points()).find(|second| both.contains(*second))
    }

    // The lowest two ways from a point.
    fn ways_from(&self, from: u8) -> Option<(u8, u8)>
        ensures { FoundPair (points (tables_prog self.now)) (two_ways_at self.now.facts (tables_prog self.now) from) result }
    {
        (0..self.points())
            .filter_map(|first| self.second_way(from, first).map(|second| (first, second)))
            .next()
    }

    // The lowest two ways.
    pub(crate) fn ways(&self) -> Option<(u8, u8, u8)>
        ensures { ways self.now.facts (tables_prog self.now) ≡ found_ways result }
    {
        (0..self.points())
            .filter_map(|from| {
                self.ways_from(from)
                    .map(|(first, second)| (from, first, second))
            })
            .next()
    }
}
