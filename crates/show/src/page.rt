use intake::Failure;
use jobfile::jobfile::JobFile;
use locks::lock::Lock;
use words::names::Names;

// A page on standard output about one job file.
#[derive(Clone, Copy)]
pub(crate) struct Page<'a> {
    pub(crate) rt: &'a HostRuntime,
    pub(crate) job: &'a JobFile,
}

impl Page<'_> {
    // Prints the name of a number, which is a word of ASCII letters.
    pub(crate) fn name(self, names: &Names, number: u8) -> Result<(), Failure> {
        if let Some(word) = names.get(number as usize) {
            self.rt.stdout().write_all(word)?;
        }
        Ok(())
    }

    // Facts and acts are named from lists of their own.
    pub(crate) fn fact(self, fact: u8) -> Result<(), Failure> {
        self.name(self.job.facts(), fact)
    }

    pub(crate) fn act(self, act: u8) -> Result<(), Failure> {
        self.name(self.job.acts(), act)
    }

    // The routine's text, as it stands in the file.
    fn text(self) -> Result<(), Failure> {
        let rt = self.rt;
        println!(rt; "routine")?;
        rt.stdout().write_all(self.job.text())?;
        println!(rt; "")?;
        Ok(())
    }

    // Everything that a foreman proof-reads.
    pub(crate) fn print(self) -> Result<(), Failure> {
        let (rt, job) = (self.rt, self.job);
        let lock = job.lock();
        self.names("facts", job.facts(), lock.facts())?;
        self.names("acts", job.acts(), lock.acts())?;
        println!(rt; "states {} with the allowance", lock.states())?;
        self.marks()?;
        self.first_state()?;
        self.text()?;
        self.program()?;
        self.next_points()
    }
}
