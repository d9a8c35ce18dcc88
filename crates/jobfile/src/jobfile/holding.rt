ghost use Rattle.std.specs.Prelude.{◌≡◌, IfOk, string_bytes};
ghost use Rattle.pile.specs.Pile.{pile_meaning};
ghost use Rattle.golog.specs.Points.{points};
ghost use Rattle.routine.specs.Routines.{routine_prog};
ghost use Rattle.jobfile.specs.Held.{Blank, read_line};

use super::JobFile;
use locks::lock::Lock;
use locks::marks::Marks;
use pile::pile::{Pile, empty_pile};
use routine::routine::Routine;
use std::alloc::{AllocError, Global};
use words::names::Names;

impl JobFile {
    // The job file that holds nothing.
    pub fn empty(heap: Global) -> JobFile
        ensures { Blank result }
    {
        JobFile {
            lock: empty_pile(),
            facts: Names::new(heap),
            acts: Names::new(heap),
            marks: Marks::none(),
            most: 0,
            text: Vec::new(heap),
            routine: Routine::nil(),
        }
    }

    pub fn lock(&self) -> &Pile
        ensures { result.now ≡ self.now.lock }
    {
        &self.lock
    }

    pub fn facts(&self) -> &Names
        ensures { result.now ≡ self.now.facts }
    {
        &self.facts
    }

    pub fn acts(&self) -> &Names
        ensures { result.now ≡ self.now.acts }
    {
        &self.acts
    }

    pub fn marks(&self) -> Marks
        ensures { result ≡ self.now.marks }
    {
        self.marks
    }

    // The allowance.
    pub fn most(&self) -> u8
        ensures { result ≡ self.now.most }
    {
        self.most
    }

    // The routine's text, as it stands in the file.
    pub fn text(&self) -> &[u8]
        ensures { result.now ≡ self.now.text.items }
    {
        self.text.as_slice()
    }

    pub fn routine(&self) -> &Routine
        ensures { result.now ≡ self.now.routine }
    {
        &self.routine
    }

    // The line that tells how many points the routine has, and how many states the lock.
    pub fn line(&self, heap: Global) -> Result<String, AllocError>
        ensures { IfOk result (λ s. string_bytes s ≡ read_line (points (routine_prog self.now.routine)) (pile_meaning self.now.lock).states) }
    {
        let points = self.routine.points();
        let states = self.lock.states();
        format!(in heap; "points {points} states {states}")
    }
}
