ghost use Rattle.std.specs.Prelude.{◌≡◌, ◌≤◌, true, MatchOption};
ghost use Rattle.locks.specs.Meaning.{any_below};
ghost use Rattle.golog.specs.Programs.{nil, Final};
ghost use Rattle.tree.specs.Held.{prog_at};
ghost use Rattle.golog.specs.Search.{lowest};
ghost use Rattle.golog.specs.Points.{points, word, rem, next, goes_on, OneWay, valuation as valued};
ghost use Rattle.routine.specs.Found.{found};
ghost use Rattle.routine.specs.Rows.{IsRow};
ghost use Rattle.routine.specs.Routines.{routine_prog, next_by, leads_to, StepsAt};

use super::Routine;
use crate::row::Row;
use crate::set::PointSet;
use crate::tables::NO_ACT;
use tree::tree::Tree;

// A question is asked of any point under any valuation, and neither is made from the other: so they are two numbers, and no type of their own.
impl Routine {
    // The row of a point; `nil` may stop at its only point.
    fn row(&self, point: u32, valuation: u32) -> Row
        ensures { IsRow (routine_prog self.now) (valued valuation) point result }
    {
        match &self.tables {
            Some(tables) => tables.row(point, valuation),
            None => Row {
                stop: point == 0,
                next: PointSet::EMPTY,
            },
        }
    }

    // How many points there are: one more than act words, at most 64.
    pub fn points(&self) -> u8
        ensures is { result ≡ points (routine_prog self.now) }
        ensures few { result ≤ 64 }
    {
        match &self.tables {
            Some(tables) => tables.points(),
            None => 1,
        }
    }

    // The act word before a point, or 255 where there is none.
    pub fn word(&self, point: u32) -> u8
        ensures { result ≡ word (routine_prog self.now) point }
    {
        match &self.tables {
            Some(tables) => tables.word(point),
            None => NO_ACT,
        }
    }

    // Whether what remains at a point may stop.
    pub fn may_stop(&self, point: u32, valuation: u32) -> bool
        ensures { result ≡ Final (rem (routine_prog self.now) point) (valued valuation) }
    {
        self.row(point, valuation).stop
    }

    // Whether a point comes next from another.
    pub fn comes_next(&self, from: u32, to: u32, valuation: u32) -> bool
        ensures is { result ≡ next (routine_prog self.now) (valued valuation) from to }
        ensures steps { StepsAt (routine_prog self.now) (valued valuation) from }
    {
        to < 64 && self.row(from, valuation).next.contains(to as u8)
    }

    // Whether a point may stop or some point comes next.
    pub fn goes_on(&self, point: u32, valuation: u32) -> bool
        ensures { result ≡ goes_on (routine_prog self.now) (valued valuation) point }
    {
        self.row(point, valuation).goes_on()
    }

    // Whether some point comes next by the act.
    pub fn has_next(&self, point: u32, act: u8, valuation: u32) -> bool
        ensures { result ≡ any_below (points (routine_prog self.now)) (next_by (routine_prog self.now) (valued valuation) point act) }
    {
        let next = self.row(point, valuation).next;
        (0..self.points()).any(|k| next.contains(k) && self.word(u32::from(k)) == act)
    }

    // The lowest point that comes next by the act under the valuation before and goes on under the valuation after;
    // since the program has one way, it is the only one.
    pub fn leads(&self, point: u32, act: u8, before: u32, after: u32) -> Option<u8>
        ensures is { found result ≡ lowest (points (routine_prog self.now)) (leads_to (routine_prog self.now) (valued before) (valued after) point act) }
        ensures one { OneWay (routine_prog self.now) }
    {
        let next = self.row(point, before).next;
        (0..self.points()).find(|k| {
            next.contains(*k)
                && self.word(u32::from(*k)) == act
                && self.goes_on(u32::from(*k), after)
        })
    }

    // The program in its tables, and its entry; `nil` needs none.
    pub fn tree(&self) -> Option<(&Tree, u16)>
        ensures { MatchOption result (routine_prog self.now ≡ nil) (λ p. prog_at p.0.now p.1 ≡ routine_prog self.now) }
    {
        self.tables.as_ref().map(|tables| tables.tree())
    }
}
