ghost use Rattle.std.specs.Prelude.{◌≡◌, ◌<◌, ◌&&◌, ◌||◌, nat_eq};
ghost use Rattle.routine.specs.Sets.{has, Holds, moved, some_in};

// A set of points below 64: a point is in it where its bit is set.
#[derive(Clone, Copy)]
pub(crate) struct PointSet {
    bits: u64,
}

impl PointSet {
    pub(crate) const EMPTY: PointSet = PointSet { bits: 0 };

    pub(crate) fn single(point: u8) -> PointSet
        requires { point < 64 }
        ensures { Holds result (λ j. nat_eq j point) }
    {
        PointSet { bits: 1 << point }
    }

    pub(crate) fn contains(self, point: u8) -> bool
        requires { point < 64 }
        ensures { result ≡ has self point }
    {
        (self.bits >> point) % 2 == 1
    }

    pub(crate) fn union(self, other: PointSet) -> PointSet
        ensures { Holds result (λ j. has self j || has other j) }
    {
        PointSet {
            bits: self.bits | other.bits,
        }
    }

    pub(crate) fn common(self, other: PointSet) -> PointSet
        ensures { Holds result (λ j. has self j && has other j) }
    {
        PointSet {
            bits: self.bits & other.bits,
        }
    }

    // The set with each point moved up; what goes past the last is lost.
    pub(crate) fn moved_up(self, by: u8) -> PointSet
        ensures { Holds result (moved by (has self)) }
    {
        if by < 64 {
            PointSet {
                bits: self.bits << by,
            }
        } else {
            PointSet::EMPTY
        }
    }

    pub(crate) fn has_some(self) -> bool
        ensures { result ≡ some_in self }
    {
        self.bits != 0
    }
}
