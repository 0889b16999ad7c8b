// The listing: a record as text.
#![tactic(auto)]

ghost use Rattle.std.specs.Prelude.{◌≡◌, ◌∷◌, [], ◌++◌, ◌+◌, ◌≤◌, ◌<◌, length, drop};
ghost use Rattle.std.proofs.Math.Option.{none};
ghost use Rattle.distance.specs.Fix.{fix_of, Bounded, widest};
ghost use Rattle.text.specs.Text.{decimal, integer, silence_text, fix_line, mark_text, first_line, refusal_line, text};
ghost use Rattle.text.specs.Listing.{HasRoom, Adds, AddsAtMost};
ghost use Rattle.text.specs.Laws.Text.{Stored};
ghost use Rattle.reading.specs.Reading.{begins};
ghost use Rattle.record.specs.Answers.{number_of};
ghost use Rattle.record.specs.Checks.{read_refusal};

use distance::{Coordinate, Fix, silent};
use format::{count_at, mark_at};
use reading::{Reader, read, said};
use record::Refusal;

// The digits of a number from a position on, and where they end: those before the last, by itself, and then the last. No
// method of the listing, so that the position goes from digit to digit by value: kept in the listing, it would be stored
// and read again for each, and a listing would take up to half as long again.
fn put_digits(out: &mut [u8], at: usize, n: u32) -> usize
    requires { at + length (decimal n) ≤ length out.old }
    ensures { Stored out.old at out.new result (decimal n) }
{
    if n < 10 {
        out[at] = b'0' + n as u8;
        return at + 1;
    }
    let end = put_digits(out, at, n / 10);
    out[end] = b'0' + (n % 10) as u8;
    end + 1
}

// The text that is put down: it stands at the start of an output, and ends where the next goes.
#[derive(Drop)]
struct Listing<'a> {
    out: &'a mut [u8],
    end: usize,
}

impl<'a> Listing<'a> {
    // A byte. Each method says that the output stays the same one, since no field can say it of what was before.
    fn put_byte(&mut self, byte: u8)
        requires { HasRoom self.old 1 }
        ensures text { Adds self.old self.new (byte ∷ []) }
        ensures same_output { self.new.out.ghost_name ≡ self.old.out.ghost_name }
    {
        self.out[self.end] = byte;
        self.end += 1;
    }

    // A word.
    fn put_word(&mut self, word: &[u8])
        requires { HasRoom self.old (length word.now) }
        ensures text { Adds self.old self.new word.now }
        ensures same_output { self.new.out.ghost_name ≡ self.old.out.ghost_name }
    {
        let end = self.end + word.len();
        self.out[self.end..end].copy_from_slice(word);
        self.end = end;
    }

    // A number in decimal.
    fn put_decimal(&mut self, n: u32)
        requires { HasRoom self.old (length (decimal n)) }
        ensures text { Adds self.old self.new (decimal n) }
        ensures same_output { self.new.out.ghost_name ≡ self.old.out.ghost_name }
    {
        self.end = put_digits(self.out, self.end, n);
    }

    // A coordinate, with a minus sign before it if it is below 0.
    fn put_integer(&mut self, c: Coordinate)
        requires { HasRoom self.old (length (integer c.0)) }
        ensures text { Adds self.old self.new (integer c.0) }
        ensures same_output { self.new.out.ghost_name ≡ self.old.out.ghost_name }
    {
        if c.0 < 0 {
            self.put_byte(b'-');
        }
        self.put_decimal(c.0.unsigned_abs());
    }

    // The word that ends a fix's line where silence follows.
    fn put_silence(&mut self, fix: Fix)
        requires { HasRoom self.old 8 }
        ensures text { Adds self.old self.new (silence_text (fix_of fix)) }
        ensures short { AddsAtMost 8 self.old self.new }
        ensures same_output { self.new.out.ghost_name ≡ self.old.out.ghost_name }
    {
        if silent(fix) {
            self.put_word(b" silence");
        }
    }

    // The line of a fix of any kind.
    fn put_fix_line(&mut self, fix: Fix)
        requires room { HasRoom self.old 39 }
        requires place { Bounded widest (fix_of fix) }
        ensures text { Adds self.old self.new (fix_line (fix_of fix)) }
        ensures short { AddsAtMost 39 self.old self.new }
        ensures same_output { self.new.out.ghost_name ≡ self.old.out.ghost_name }
    {
        self.put_word(b"fix ");
        self.put_decimal(fix.t.0);
        self.put_word(b" ");
        self.put_integer(fix.x);
        self.put_word(b" ");
        self.put_integer(fix.y);
        self.put_silence(fix);
        self.put_word(b"\n");
    }

    // The mark.
    fn put_mark(&mut self, mark: u32)
        requires room { HasRoom self.old 5 }
        requires mark { mark < 65536 }
        ensures text { Adds self.old self.new (mark_text mark) }
        ensures short { AddsAtMost 5 self.old self.new }
        ensures same_output { self.new.out.ghost_name ≡ self.old.out.ghost_name }
    {
        if mark == 65535 {
            self.put_word(b"never");
        } else {
            self.put_decimal(mark);
        }
    }

    // The first line of a record's text.
    fn put_first_line(&mut self, count: u32, mark: u32)
        requires room { HasRoom self.old 17 }
        requires count { count ≤ 4096 }
        requires mark { mark < 65536 }
        ensures text { Adds self.old self.new (first_line count mark) }
        ensures short { AddsAtMost 17 self.old self.new }
        ensures same_output { self.new.out.ghost_name ≡ self.old.out.ghost_name }
    {
        self.put_word(b"trail ");
        self.put_decimal(count);
        self.put_word(b" ");
        self.put_mark(mark);
        self.put_word(b"\n");
    }

    // The one line of a refusal.
    fn put_refusal(&mut self, refusal: Refusal)
        requires { HasRoom self.old 12 }
        ensures text { Adds self.old self.new (refusal_line (number_of refusal)) }
        ensures short { AddsAtMost 12 self.old self.new }
        ensures same_output { self.new.out.ghost_name ≡ self.old.out.ghost_name }
    {
        self.put_word(b"refused ");
        self.put_decimal(u32::from(refusal.number()));
        self.put_word(b"\n");
    }

    // The lines of a record that the checks accept, its fixes as a reader that has just begun yields them.
    fn put_record(&mut self, b: &[u8], reader: Reader<'_>)
        requires accepted { read_refusal b.now ≡ none }
        requires bytes { reader.bytes.now ≡ b.now }
        requires begun { reader.at ≡ begins b.now }
        requires room { HasRoom self.old 159765 }
        ensures text { Adds self.old self.new (text b.now) }
        ensures short { AddsAtMost 159765 self.old self.new }
        ensures same_output { self.new.out.ghost_name ≡ self.old.out.ghost_name }
    {
        self.put_first_line(count_at(b) as u32, mark_at(b));
        for fix in reader {
            self.put_fix_line(fix);
        }
        self.put_word(b"end\n");
    }

    // The text of lent bytes: of the record, or of its refusal.
    fn put_text(&mut self, b: &[u8])
        requires { HasRoom self.old 159765 }
        ensures text { Adds self.old self.new (text b.now) }
        ensures short { AddsAtMost 159765 self.old self.new }
        ensures same_output { self.new.out.ghost_name ≡ self.old.out.ghost_name }
    {
        let reader = read(b);
        match said(reader) {
            Ok(()) => self.put_record(b, reader),
            Err(refusal) => self.put_refusal(refusal),
        }
    }
}

// The text of lent bytes, at the start of the output, and its length. No record's text takes more than 159,765 bytes (`text_room` of
// specs/Examples.antt).
pub fn list(b: &[u8], out: &mut [u8; 159765]) -> usize
    ensures length { result ≡ length (text b.now) }
    ensures within { result ≤ 159765 }
    ensures text { out.new ≡ text b.now ++ drop result out.old }
{
    let mut listing = Listing { out, end: 0 };
    listing.put_text(b);
    listing.end
}
