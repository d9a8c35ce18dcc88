// For proof-reading a job file: prints by names what it holds, or why it is refused in plain words.
#![tactic(auto)]

use faults::fault::FileFault;
use intake::{Failure, LONGEST, asked};
use jobfile::jobfile::JobFile;
use page::Page;

mod listing;
mod next_points;
mod page;
mod program;

const USAGE: &str = "usage: show [JOBFILE]
Prints by names what a job file, or standard input where none is named, holds:
the counts, the states of its lock, the marks and the allowance, what each act
may bring in the first state, the routine's text, the routine as it was read,
and for each of its points what may come next. A file that is refused gets the
refusal's line and its ground in plain words.
Ends with status 1 if the file is refused or cannot be read.";

fn refuse(rt: &HostRuntime, fault: FileFault) -> Result<(), Failure> {
    println!(rt; "{}", fault.line(rt.alloc())?)?;
    println!(rt; "{fault}")?;
    Err(Failure::Refused)
}

fn show(rt: &HostRuntime, file: &[u8]) -> Result<(), Failure> {
    let heap = rt.alloc();
    let mut job = JobFile::empty(heap);
    match job.read_at_most(heap, file, LONGEST) {
        Ok(()) => Page { rt, job: &job }.print(),
        Err(fault) => refuse(rt, fault),
    }
}

fn main(rt: HostRuntime) -> Result<(), Failure> {
    match asked(&rt, "show", USAGE)? {
        Some(file) => show(&rt, file.as_slice()),
        None => Ok(()),
    }
}
