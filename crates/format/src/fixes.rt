// The fixes of lent bytes.
ghost use Rattle.std.specs.Prelude.{◌≡◌, ◌<◌, ◌≤◌, length};
ghost use Rattle.distance.specs.Fix.{fix_of};
ghost use Rattle.format.specs.Kinds.{layout};
ghost use Rattle.format.specs.Format.{record_length, fix_at};

use crate::{Kind, fix_at};
use distance::Fix;

// The first `count` fixes of lent bytes that are read as a record of a kind; the bytes reach that far.
#[derive(Clone, Copy)]
pub struct Fixes<'a> {
    pub bytes: &'a [u8],
    pub kind: Kind,
    pub count: usize,
    ghost whole: { record_length (layout kind) count ≤ length bytes.now },
}

impl<'a> Fixes<'a> {
    // The fix at position k.
    pub fn at(self, k: usize) -> Fix
        requires { k < self.count }
        ensures { fix_of result ≡ fix_at (layout self.entry.kind) self.entry.bytes.now k }
    {
        fix_at(self.bytes, self.kind, k)
    }

    // The same fixes, their kind called by its name: what is done with them then is compiled for that kind by itself.
    pub fn named(self, kind: Kind) -> Fixes<'a>
        requires { kind ≡ self.kind }
        ensures kind { result.kind ≡ kind }
        ensures count { result.count ≡ self.entry.count }
        ensures bytes { result.bytes.now ≡ self.entry.bytes.now }
    {
        Fixes {
            bytes: self.bytes,
            kind,
            count: self.count,
        }
    }
}
