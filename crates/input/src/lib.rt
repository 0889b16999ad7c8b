// What the programs read.
#![tactic(auto)]

ghost use Rattle.std.specs.Prelude.{◌≡◌, ◌≤◌, ℕ, length, take, IfOk, IfSome, OnErr};
ghost use Rattle.std.specs.Io.{ReadsAtMost};
ghost use Rattle.std.specs.Io.KnownBytes.{Consumes};

use std::io;
use std::io::Read;

// Reads until the bytes are full or the input ends, and says how many stand at their start: of an input that is known, as many of its first as there is room for.
// A read that fails is answered as it is, and what was read before it stands at their start.
pub fn read_full<R: Read>(from: &mut R, bytes: &mut [u8]) -> io::Result<usize>
    ensures within { ReadsAtMost result bytes.new }
    ensures first { IfOk result (λ n. IfSome (R.remaining from.old) (λ xs. take n bytes.new ≡ take (length bytes.new) xs)) }
    ensures err { OnErr result ((n : ℕ) × (n ≤ length bytes.new) × Consumes (R.remaining from.old) (R.remaining from.new) (take n bytes.new)) }
{
    let mut done = 0;
    // A read brings as many bytes as it will, so there is no range or iterator to go over.
    while done < bytes.len() {
        let n = from.read(&mut bytes[done..])?;
        if n == 0 {
            break;
        }
        done += n;
    }
    Ok(done)
}
