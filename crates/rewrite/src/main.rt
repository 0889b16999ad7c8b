// Reads a record from standard input, at most its first 49,162 bytes, and writes its fixes as a record anew, marked never; or prints the number of its refusal.
// The fixes go by a list in this program's own memory, which it lends to the writer of their kind. A read or a write that fails ends the program with its error.
#![tactic(auto)]

mod lists;

ghost use Rattle.std.specs.Prelude.{◌≡◌, ℕ, ◌≤◌, length, take, IfOk, IfSome, OnErr};
ghost use Rattle.format.specs.Format.{HoldsLongest};
ghost use Rattle.record.specs.Answers.{gives};
ghost use Rattle.rewrite.specs.Anew.{WrittenAnew};
ghost use Rattle.writing.specs.Answers.{wrote};

use format::Kind;
use lists::{FromFix, write_list};
use record::Refusal;
use std::io;
use std::io::{Read, Write};
use writing::{CentimetreFix, MillimetreFix, SilenceFix};

// The record that the bytes begin with, written anew, in its own kind.
fn write_anew(b: &[u8], out: &mut [u8]) -> Result<u32, Refusal>
    requires { HoldsLongest out.old }
    ensures { WrittenAnew b.now out.old (wrote result) out.new }
{
    let fixes = record::accepted(b)?;
    match fixes.kind {
        Kind::Trail => write_list(fixes, &mut [CentimetreFix::BLANK; 4096], out),
        Kind::MillimetreTrail => write_list(fixes, &mut [MillimetreFix::BLANK; 4096], out),
        Kind::SilenceTrail => write_list(fixes, &mut [SilenceFix::BLANK; 4096], out),
    }
}

// What is read, written anew: of an input that is known, as many of its first bytes as there is room for. Both buffers hold the longest record of every kind: none is
// cut off, and none is turned away for want of room.
fn rewrite<R: Read>(
    from: &mut R,
    bytes: &mut [u8],
    out: &mut [u8],
) -> io::Result<Result<u32, Refusal>>
    requires { HoldsLongest bytes.old × HoldsLongest out.old }
    ensures within { IfOk result (λ w. (n : ℕ) → wrote w ≡ gives n → n ≤ length out.new) }
    ensures anew { IfOk result
        (λ w. IfSome (R.remaining from.old) (λ xs. WrittenAnew (take (length bytes.new) xs) out.old (wrote w) out.new)) }
    ensures err { OnErr result (out.new ≡ out.old) }
{
    let lent = input::read_full(from, bytes)?;
    Ok(write_anew(&bytes[..lent], out))
}

fn main(rt: HostRuntime) -> io::Result<()> {
    let mut bytes = [0u8; 49162];
    let mut out = [0u8; 49162];
    let written = rewrite(&mut rt.stdin(), &mut bytes, &mut out)?;
    let mut to = rt.stdout();
    match written {
        Ok(length) => to.write_all(&out[..length as usize]),
        Err(refusal) => writeln!(to, "{}", refusal),
    }
}
