use super::page::Page;
use intake::Failure;
use locks::facts::FactCount;
use locks::lock::{Lock, MOST_FACTS};
use routine::routine::Routine;

// How many valuations the facts of the lock have.
fn valuations(lock: &impl Lock) -> u32 {
    FactCount::new(lock.facts()).map_or(1 << MOST_FACTS, |facts| facts.valuations())
}

// Points are numbers and no list, and each line that is printed may fail: so loops print them.
impl Page<'_> {
    // How often a point may stop over all valuations.
    fn stops(self, point: u32) -> Result<(), Failure> {
        let (rt, routine) = (self.rt, self.job.routine());
        let all = valuations(self.job.lock());
        let stopping = (0..all).filter(|v| routine.may_stop(point, *v)).count();
        if stopping == all as usize {
            print!(rt; " may stop")?;
        } else if stopping > 0 {
            print!(rt; " may stop under some facts")?;
        }
        Ok(())
    }

    // Whether a point comes next from another under some valuation.
    fn ever_next(self, point: u32, next: u32) -> bool {
        let routine = self.job.routine();
        (0..valuations(self.job.lock())).any(|v| routine.comes_next(point, next, v))
    }

    fn point(self, at: u32) -> Result<(), Failure> {
        let (rt, routine) = (self.rt, self.job.routine());
        print!(rt; "  point {at}:")?;
        self.stops(at)?;
        for next in (0..routine.points() as u32).filter(|next| self.ever_next(at, *next)) {
            print!(rt; " ")?;
            self.act(routine.word(next))?;
            print!(rt; " to {next}")?;
        }
        println!(rt; "")?;
        Ok(())
    }

    // For each point, whether it may stop and which act words may come next.
    pub(crate) fn next_points(self) -> Result<(), Failure> {
        let rt = self.rt;
        let points = self.job.routine().points() as u32;
        println!(rt; "points {points}")?;
        for at in 0..points {
            self.point(at)?;
        }
        Ok(())
    }
}
