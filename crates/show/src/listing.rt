use super::page::Page;
use intake::Failure;
use locks::lock::{Lock, REACTIONS};
use words::names::Names;

// Loops and no chains: each line that is printed may fail, and facts, acts and reactions are numbers and no lists.
impl Page<'_> {
    // How many there are of what, and their names.
    pub(crate) fn names(self, what: &str, names: &Names, count: u8) -> Result<(), Failure> {
        let rt = self.rt;
        print!(rt; "{what} {count}:")?;
        for number in 0..count {
            print!(rt; " ")?;
            self.name(names, number)?;
        }
        println!(rt; "")?;
        Ok(())
    }

    fn has_marks(self) -> bool {
        let marks = self.job.marks();
        (0..self.job.lock().acts()).any(|act| (0..REACTIONS).any(|reaction| marks.has(
            act, reaction,
        )))
    }

    pub(crate) fn marks(self) -> Result<(), Failure> {
        let (rt, job) = (self.rt, self.job);
        print!(rt; "allowance {}, marked:", job.most())?;
        for act in 0..job.lock().acts() {
            for reaction in (0..REACTIONS).filter(|reaction| job.marks().has(act, *reaction)) {
                print!(rt; " ")?;
                self.act(act)?;
                print!(rt; " {reaction}")?;
            }
        }
        println!(rt; "{}", if self.has_marks() { "" } else { " nothing" })?;
        Ok(())
    }

    // The facts that hold in a state.
    fn facts_of(self, state: u32) -> Result<(), Failure> {
        let (rt, lock) = (self.rt, self.job.lock());
        for fact in (0..lock.facts()).filter(|fact| lock.holds(state, *fact)) {
            print!(rt; " ")?;
            self.fact(fact)?;
        }
        let any = (0..lock.facts()).any(|fact| lock.holds(state, fact));
        println!(rt; "{}", if any { "" } else { " no fact" })?;
        Ok(())
    }

    // What changes from one state to another, fact by fact.
    fn changes(self, from: u32, to: u32) -> Result<(), Failure> {
        let (rt, lock) = (self.rt, self.job.lock());
        let changed = |fact: &u8| lock.holds(from, *fact) != lock.holds(to, *fact);
        for fact in (0..lock.facts()).filter(changed) {
            print!(rt; "{}", if lock.holds(to, fact) { " +" } else { " -" })?;
            self.fact(fact)?;
        }
        let any = (0..lock.facts()).any(|fact| changed(&fact));
        print!(rt; "{}", if any { "" } else { " nothing changes" })?;
        Ok(())
    }

    // What an act may bring in a state, a line for each reaction.
    fn reactions(self, state: u32, act: u8) -> Result<(), Failure> {
        let (rt, job) = (self.rt, self.job);
        let lock = job.lock();
        for reaction in (0..REACTIONS).filter(|reaction| lock.possible(state, act, *reaction)) {
            print!(rt; "    {reaction}:")?;
            self.changes(state, lock.after(state, act, reaction))?;
            let marked = job.marks().has(act, reaction);
            println!(rt; "{}", if marked { " (marked)" } else { "" })?;
        }
        Ok(())
    }

    pub(crate) fn first_state(self) -> Result<(), Failure> {
        let (rt, lock) = (self.rt, self.job.lock());
        let first = lock.first();
        print!(rt; "first state {first}:")?;
        self.facts_of(first)?;
        for act in 0..lock.acts() {
            print!(rt; "  ")?;
            self.act(act)?;
            if lock.allowed(first, act) {
                println!(rt; " may bring")?;
                self.reactions(first, act)?;
            } else {
                println!(rt; " is not allowed")?;
            }
        }
        Ok(())
    }
}
