// The sheet maker's program: reads a job file and prints one line, what it holds or why it is refused.
#![tactic(auto)]

use intake::{Failure, LONGEST, asked};
use jobfile::jobfile::JobFile;

const USAGE: &str = "usage: sheet [JOBFILE]
Reads a job file, or standard input where none is named, of at most 16384 bytes.
Prints one line: the points of its routine and the states of its lock, or the refusal's number, layer and place.
Ends with status 1 if the file is refused or cannot be read.";

// Prints the line of the file.
fn tell(rt: &HostRuntime, file: &[u8]) -> Result<(), Failure> {
    let heap = rt.alloc();
    let mut job = JobFile::empty(heap);
    match job.read_at_most(heap, file, LONGEST) {
        Ok(()) => {
            println!(rt; "{}", job.line(heap)?)?;
            Ok(())
        }
        Err(fault) if fault.is_memory() => {
            eprintln!(rt; "sheet: no memory for what the file says")?;
            Err(Failure::Memory)
        }
        Err(fault) => {
            println!(rt; "{}", fault.line(heap)?)?;
            Err(Failure::Refused)
        }
    }
}

fn main(rt: HostRuntime) -> Result<(), Failure> {
    match asked(&rt, "sheet", USAGE)? {
        Some(file) => tell(&rt, file.as_slice()),
        None => Ok(()),
    }
}
