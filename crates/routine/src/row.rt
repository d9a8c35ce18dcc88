ghost use Rattle.std.specs.Prelude.{◌≡◌, ◌&&◌, ◌||◌};
ghost use Rattle.routine.specs.Sets.{has, Holds, moved, some_in};

use crate::set::PointSet;

// Whether a point may stop, and the set of the points that come next.
#[derive(Clone, Copy)]
pub(crate) struct Row {
    pub(crate) stop: bool,
    pub(crate) next: PointSet,
}

// How many act words an entry has, up to 64, and the row of its beginning.
#[derive(Clone, Copy)]
pub(crate) struct Start {
    pub(crate) words: u8,
    pub(crate) row: Row,
}

impl Row {
    pub(crate) fn goes_on(self) -> bool
        ensures { result ≡ (self.stop || some_in self.next) }
    {
        self.stop || self.next.has_some()
    }

    // One after the other, the points of the second so many further on.
    pub(crate) fn then(self, second: Row, by: u8) -> Row
        ensures stop { result.stop ≡ (self.stop && second.stop) }
        ensures next { Holds result.next (λ j. has self.next j || (self.stop && moved by (has second.next) j)) }
    {
        let next = if self.stop {
            self.next.union(second.next.moved_up(by))
        } else {
            self.next
        };
        Row {
            stop: self.stop && second.stop,
            next,
        }
    }

    // A choice of the two, the points of the second so many further on.
    pub(crate) fn or(self, second: Row, by: u8) -> Row
        ensures stop { result.stop ≡ (self.stop || second.stop) }
        ensures next { Holds result.next (λ j. has self.next j || moved by (has second.next) j) }
    {
        Row {
            stop: self.stop || second.stop,
            next: self.next.union(second.next.moved_up(by)),
        }
    }

    pub(crate) fn moved_up(self, by: u8) -> Row
        ensures stop { result.stop ≡ self.stop }
        ensures next { Holds result.next (moved by (has self.next)) }
    {
        Row {
            stop: self.stop,
            next: self.next.moved_up(by),
        }
    }
}
