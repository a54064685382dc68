// Reads a lot from standard input and prints its slip. One byte more than a lot may have is read, so that a longer input is seen to be too
// long. An input that cannot be read to its end prints "unreadable"; a read that a signal interrupts is tried again.
#![tactic(auto)]

ghost use Rattle.std.specs.Prelude.{◌≤◌, length, IfSome};

use std::io::{ErrorKind, Read};

// Standard output. It is written to by number: where that fails, the program ends quietly, as it did.
const STDOUT: i32 = 1;

// How often a read is tried. One that signals interrupt so often in a row, without a byte, is taken for a failure.
const MAX_TRIES: u32 = 1000000000;

// Reads, again where a signal interrupts it, and puts what comes at the start of the buffer. How many bytes came, 0 where the input is
// over, or nothing where the read failed.
fn read_through<R: Read>(input: &mut R, buffer: &mut [u8]) -> Option<usize>
    ensures { IfSome result (λ n. n ≤ length buffer.old) }
{
    for _ in 0..MAX_TRIES {
        match input.read(buffer) {
            Ok(n) => {
                return Some(n);
            }
            Err(e) => {
                if e.kind() != ErrorKind::Interrupted {
                    return None;
                }
            }
        }
    }
    None
}

// Reads until the input is over or the buffer is full, which may take any number of reads. How many bytes came, or nothing where a read failed.
fn read_input<R: Read>(input: &mut R, buffer: &mut [u8]) -> Option<usize>
    ensures { IfSome result (λ n. n ≤ length buffer.old) }
{
    let mut n = 0;
    while n < buffer.len() {
        let more = read_through(input, &mut buffer[n..])?;
        if more == 0 {
            break;
        }
        n += more;
    }
    Some(n)
}

// Prints the slip of a file.
fn print(file: &[u8]) {
    let mut out = [0u8; limits::SLIP_BYTES];
    let n = slip_writer::write(file, &mut out);
    io::write_all(STDOUT, &out[..n]);
}

fn main(rt: HostRuntime) {
    let mut buffer = [0u8; limits::MAX_BYTES + 1];
    let mut stdin = rt.stdin();
    match read_input(&mut stdin, &mut buffer) {
        None => {
            io::write_all(STDOUT, b"unreadable\n");
        }
        Some(n) => print(&buffer[..n]),
    }
}
