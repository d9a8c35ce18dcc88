// Taking in the bytes of a job file, from a path or from standard input, and no more of them than are needed to refuse a long one.
#![tactic(auto)]

ghost use Rattle.std.specs.Prelude.{◌≡◌, ◌+◌, ◌<◌, ◌≤◌, IfOk, IfSome, vec_len};
ghost use Rattle.intake.specs.declared.Failure.TheVariants.{Memory, Output};

use std::alloc::{AllocError, Global};
use std::io::Read;
use std::{env, fs, io};

// The longest file that the programs take.
pub const LONGEST: usize = 16_384;

// How much is read at a time.
const PART: usize = 1_024;

// Why a program ends with a failing status.
#[derive(Debug, Drop)]
pub enum Failure {
    Refused,
    Unread,
    Memory,
    Output(io::Error),
}

impl From<AllocError> for Failure {
    ghost from_gives = { λ _ r. r ≡ Memory };

    fn from(_e: AllocError) -> Failure {
        Failure::Memory
    }
}

impl From<io::Error> for Failure {
    ghost from_gives = { λ e r. r ≡ Output e };

    fn from(e: io::Error) -> Failure {
        Failure::Output(e)
    }
}

// The bytes of the input, to its end or until there are more than the programs take.
// The library's reading to the end does not say how many bytes came.
fn start_of<R: Read>(heap: Global, input: &mut R) -> io::Result<Vec<u8>>
    ensures { IfOk result (λ v. vec_len v ≤ 16384 + 1024) }
{
    let mut bytes = Vec::new(heap);
    let mut part = [0u8; PART];
    while bytes.len() <= LONGEST {
        let n = input.read(&mut part)?;
        if n == 0 {
            break;
        }
        bytes.extend_from_slice(&part[0..n])?;
    }
    Ok(bytes)
}

// The bytes of the file at the path, or of standard input where there is no path. A longer file than the programs take is cut,
// and is still longer than they take.
pub fn take_in(rt: &HostRuntime, path: Option<&str>) -> io::Result<Vec<u8>>
    ensures { IfOk result (λ v. vec_len v ≤ 16384 + 1024) }
{
    match path {
        Some(path) => {
            let mut file = fs::open(rt, path)?;
            start_of(rt.alloc(), &mut file)
        }
        None => start_of(rt.alloc(), &mut rt.stdin()),
    }
}

// A program calls it in its own main: a function that took the work as a closure would have to require that it may be called.
// The bytes that the program of this name is to work on: of the file that its first argument names, or of standard input.
// Where the argument asks for help, the usage is printed and there is nothing to work on.
pub fn asked(rt: &HostRuntime, program: &str, usage: &str) -> Result<Option<Vec<u8>>, Failure>
    ensures { IfOk result (λ o. IfSome o (λ v. vec_len v ≤ 16384 + 1024)) }
{
    let path = env::args(rt)?.nth(1);
    let path = path.as_deref();
    if path == Some("--help") {
        println!(rt; "{usage}")?;
        return Ok(None);
    }
    match take_in(rt, path) {
        Ok(bytes) => Ok(Some(bytes)),
        Err(e) => {
            let name = path.unwrap_or("standard input");
            eprintln!(rt; "{program}: cannot read {name}: {e}")?;
            Err(Failure::Unread)
        }
    }
}
