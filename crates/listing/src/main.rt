// Reads a record from standard input, at most its first 49,162 bytes, and prints it, or the number of its refusal. A read or a write that fails ends the program
// with its error.
#![tactic(auto)]

ghost use Rattle.std.specs.Prelude.{◌≡◌, length, take, IfOk, IfSome};
ghost use Rattle.std.specs.Io.{ReadsAtMost};
ghost use Rattle.format.specs.Format.{HoldsLongest};

use std::io;
use std::io::{Read, Write};

// What is read, at the start of bytes that hold the longest record of every kind: none is cut off.
fn read_record<R: Read>(from: &mut R, bytes: &mut [u8]) -> io::Result<usize>
    requires { HoldsLongest bytes.old }
    ensures within { ReadsAtMost result bytes.new }
    ensures first { IfOk result (λ n. IfSome (R.remaining from.old) (λ xs. take n bytes.new ≡ take (length bytes.new) xs)) }
{
    input::read_full(from, bytes)
}

fn main(rt: HostRuntime) -> io::Result<()> {
    let mut bytes = [0u8; 49162];
    let lent = read_record(&mut rt.stdin(), &mut bytes)?;
    let mut text = [0u8; 159765];
    let length = text::list(&bytes[..lent], &mut text);
    rt.stdout().write_all(&text[..length])
}
