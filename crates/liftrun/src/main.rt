// `liftrun`: commands are read from standard input, and what the run replies and comes to is written to standard output. What fails is told on
// standard error.
#![tactic(auto)]

ghost use Rattle.std.specs.Prelude.{◌≤◌, length, IfOk};

use kernel::width;
use std::io::{self, Read, Write};

// One byte more than the limit decides that an input is too long.
const INPUT: usize = width::INPUT_LIMIT + 1;

fn main(rt: HostRuntime) -> io::Result<()> {
    let mut input = [0u8; INPUT];
    match read_all(&mut rt.stdin(), &mut input) {
        Ok(n) => answer(&rt, &input[..n]),
        Err(_) => eprintln!(rt; "liftrun: standard input could not be read"),
    }
}

// The text for an input is written whole.
fn answer(rt: &(impl Print + Eprint), bytes: &[u8]) -> io::Result<()> {
    let mut out = [0u8; program::TEXT_ROOM];
    let k = program::text(bytes, &mut out);
    match io::writer(rt).write_all(&out[..k]) {
        Ok(()) => Ok(()),
        Err(_) => eprintln!(rt; "liftrun: standard output could not be written"),
    }
}

// Reads until the memory is full or the input ends: a read may give fewer bytes than it is asked for.
fn read_all<R: Read>(input: &mut R, buf: &mut [u8]) -> io::Result<usize>
    ensures { IfOk result (λ n. n ≤ length buf.old) }
{
    let mut done = 0;
    while done < buf.len() {
        let more = input.read(&mut buf[done..])?;
        if more == 0 {
            break;
        }
        done += more;
    }
    Ok(done)
}
