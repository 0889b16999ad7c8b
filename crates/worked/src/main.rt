// Document 01's trails worked by hand, run through the calls that a line control makes: each is written as a record, and what is asked of it is asked of
// the record's bytes. One line a row, to be laid beside the paper's table, whose row k document 02's item 1 has changed; below it rows in millimetres and with
// silences. Nothing here knows what the answers should be; specs/Worked.antt of the questions layer proves them of the definitions. A write that fails ends the
// program with its error.
#![tactic(auto)]

mod silences;

ghost use Rattle.std.specs.Prelude.{◌≡◌};
ghost use Rattle.questions.specs.Worked.{aged_all};
ghost use Rattle.worked.specs.Agings.{leaving};

use crossing::{Edges, Window};
use distance::{Coordinate, Fix, Seconds, Silence, Tolerance};
use format::Kind;
use printing::{
    Checked, Crossed, InBox, InWindow, Kept, Moment, Placed, Tolerances, Trail, Written,
};
use record::Refusal;
use std::io;
use std::io::Write;

// ---- the trails, each as its record; the longest has six fixes, which with silences take 64 bytes

// A trail that the writer turned away would leave zeros, which every call refuses.
fn record_with(kind: Kind, ts: &[u32], xs: &[i32], ys: &[i32], silences: &[u8]) -> [u8; 64] {
    let mut bytes = [0u8; 64];
    let _ = writing::write(kind, ts, xs, ys, silences, &mut bytes);
    bytes
}

fn record_of(kind: Kind, ts: &[u32], xs: &[i32], ys: &[i32]) -> [u8; 64] {
    record_with(kind, ts, xs, ys, b"")
}

fn trail_a() -> [u8; 64] {
    record_of(Kind::Trail, &[5], &[1], &[1])
}

fn trail_b() -> [u8; 64] {
    record_of(Kind::Trail, &[0, 10, 20], &[0, 100, 200], &[0, 0, 0])
}

fn trail_c() -> [u8; 64] {
    record_of(Kind::Trail, &[0, 10, 20], &[0, 30, 0], &[0, 40, 0])
}

fn trail_e() -> [u8; 64] {
    record_of(Kind::Trail, &[0, 10, 20], &[0, 90, 100], &[0, 0, 0])
}

fn trail_g() -> [u8; 64] {
    record_of(Kind::Trail, &[0, 1, 3], &[0, 0, 1], &[0, 0, 0])
}

fn trail_h() -> [u8; 64] {
    record_of(
        Kind::Trail,
        &[0, 10, 20, 30],
        &[0, 20, 20, 0],
        &[0, 0, 0, 0],
    )
}

fn trail_k() -> [u8; 64] {
    record_of(Kind::Trail, &[0, 10], &[0, 5], &[0, -5])
}

fn trail_l() -> [u8; 64] {
    record_of(Kind::Trail, &[0, 10], &[0, 100], &[0, 0])
}

// A box as high as box l, from one x to another.
fn box_from(left: i32, right: i32) -> Edges {
    Edges {
        left: Coordinate(left),
        right: Coordinate(right),
        bottom: Coordinate(-5),
        top: Coordinate(5),
    }
}

// ---- a row

// The letter and the trail, which is read from its record.
fn begin<W: Write>(out: &mut W, letter: &str, b: &[u8]) -> io::Result<()> {
    write!(out, "{letter} | {}, ", Trail(b))
}

// Agings one after the other, each on the buffer as the one before left it: the count of the last, or the first refusal.
fn age_all(b: &mut [u8], es: &[u16]) -> Result<u32, Refusal>
    ensures { leaving result b.new ≡ aged_all b.old 0 es.now }
{
    let mut count = 0;
    for e in es {
        count = aging::age(b, Tolerance(*e))?;
    }
    Ok(count)
}

fn aged<W: Write>(out: &mut W, letter: &str, original: [u8; 64], es: &[u16]) -> io::Result<()> {
    let mut left = original;
    begin(out, letter, &original)?;
    write!(out, "{} | ", Tolerances(es))?;
    match age_all(&mut left, es) {
        Err(refusal) => writeln!(out, "{refusal}"),
        Ok(count) => writeln!(
            out,
            "{}",
            Kept {
                original: &original,
                left: &left,
                count,
            }
        ),
    }
}

fn placed<W: Write>(
    out: &mut W,
    letter: &str,
    b: [u8; 64],
    second: u32,
    thousandths: u16,
) -> io::Result<()> {
    let moment = Moment {
        second,
        thousandths,
    };
    let place = Placed(moment::place(&b, Seconds(second), thousandths));
    begin(out, letter, &b)?;
    writeln!(out, "moment {moment} | {place}")
}

// Whether a trail crosses a box in a window.
fn crossed<W: Write>(
    out: &mut W,
    letter: &str,
    b: [u8; 64],
    edges: Edges,
    start: u32,
    end: u32,
) -> io::Result<()> {
    let window = Window {
        start: Seconds(start),
        end: Seconds(end),
    };
    let answer = Crossed(crossing::crosses(&b, window, edges));
    begin(out, letter, &b)?;
    writeln!(out, "{}, {} | {answer}", InBox(edges), InWindow(window))
}

// Two fixes of one place, so many seconds apart: what the writer says of them, and what the reader says of their record. A record that the writer turns away
// is made of one that it took, with the second fix stored over.
fn apart<W: Write>(out: &mut W, label: &str, seconds: u32) -> io::Result<()> {
    let mut bytes = record_of(Kind::Trail, &[0, 1], &[0, 0], &[0, 0]);
    let second = Fix {
        t: Seconds(seconds),
        x: Coordinate(0),
        y: Coordinate(0),
        silence: Silence(0),
    };
    format::put_fix(&mut bytes, Kind::Trail, 18, second);
    let mut output = [0u8; 64];
    let written = Written(writing::write(
        Kind::Trail,
        &[0, seconds],
        &[0, 0],
        &[0, 0],
        b"",
        &mut output,
    ));
    let checked = Checked(record::check(&bytes));
    begin(out, label, &bytes)?;
    writeln!(out, "writer and reader | {written} and {checked}")
}

// A lone fix so far from the middle: what the writer of millimetres says of it.
fn placed_at<W: Write>(out: &mut W, label: &str, x: i32) -> io::Result<()> {
    let mut output = [0u8; 64];
    let written = Written(writing::write(
        Kind::MillimetreTrail,
        &[0],
        &[x],
        &[0],
        b"",
        &mut output,
    ));
    writeln!(out, "{label} | (0,{x},0), writer | {written}")
}

// ---- the table; the line below it, a moment whose thousandths have three different digits, and halves on both sides of 0

fn thinned<W: Write>(out: &mut W) -> io::Result<()> {
    aged(out, "a", trail_a(), &[0])?;
    aged(out, "b", trail_b(), &[0])?;
    aged(out, "c", trail_c(), &[50])?;
    aged(out, "d", trail_c(), &[49])?;
    aged(out, "e", trail_e(), &[39])?;
    aged(out, "f", trail_e(), &[40])?;
    aged(out, "g", trail_g(), &[0])?;
    aged(out, "h", trail_h(), &[12])?;
    aged(out, "i", trail_h(), &[25, 12])?;
    aged(out, "j", trail_h(), &[12, 25])
}

fn beside<W: Write>(out: &mut W) -> io::Result<()> {
    crossed(out, "l", trail_l(), box_from(33, 40), 4, 10)?;
    crossed(out, "l", trail_l(), box_from(33, 40), 5, 10)?;
    aged(out, "tolerance", trail_c(), &[32000])?;
    aged(out, "tolerance", trail_c(), &[32001])?;
    apart(out, "span", 65535)?;
    apart(out, "span", 65536)?;
    apart(out, "equal times", 0)?;
    placed(out, "k", trail_k(), 1, 234)?;
    placed(out, "k", trail_k(), 3, 0)?;
    let image = record_of(Kind::Trail, &[0, 10], &[0, -5], &[0, 5]);
    placed(out, "k mirrored", image, 1, 0)?;
    placed(out, "k mirrored", image, 3, 0)
}

fn c_times_ten() -> [u8; 64] {
    record_of(
        Kind::MillimetreTrail,
        &[0, 10, 20],
        &[0, 300, 0],
        &[0, 400, 0],
    )
}

// Document 02, item 8: trails c and h times ten at ten times the tolerance, ..
fn times_ten<W: Write>(out: &mut W) -> io::Result<()> {
    aged(out, "c times ten", c_times_ten(), &[500])?;
    aged(out, "c times ten", c_times_ten(), &[499])?;
    let h = record_of(
        Kind::MillimetreTrail,
        &[0, 10, 20, 30],
        &[0, 200, 200, 0],
        &[0, 0, 0, 0],
    );
    aged(out, "h times ten", h, &[120])?;
    aged(out, "h times ten", h, &[250, 120])
}

// .. two whose sums of squares take two words, ..
fn two_words<W: Write>(out: &mut W) -> io::Result<()> {
    let corners = record_of(
        Kind::MillimetreTrail,
        &[0, 1, 65535],
        &[-160000, 160000, -160000],
        &[160000, -160000, 160000],
    );
    aged(out, "corners", corners, &[60000])?;
    let words = record_of(
        Kind::MillimetreTrail,
        &[0, 1, 2, 65535],
        &[0, 159983, 160000, 0],
        &[0, 0, 0, 0],
    );
    aged(out, "words apart", words, &[60000])
}

// .. and the limits of tolerances and places.
fn limits_in_millimetres<W: Write>(out: &mut W) -> io::Result<()> {
    aged(out, "tolerance", c_times_ten(), &[60000])?;
    aged(out, "tolerance", c_times_ten(), &[60001])?;
    placed_at(out, "place", 160000)?;
    placed_at(out, "place", 160001)
}

fn main(rt: HostRuntime) -> io::Result<()> {
    let mut out = rt.stdout();
    writeln!(
        out,
        "Document 01, trails worked by hand: fixes (t,x,y), positions from 0."
    )?;
    writeln!(
        out,
        "The count is the last aging's. A told time is in lowest terms, then as it was told."
    )?;
    writeln!(
        out,
        "Places are rounded as document 02's item 1 has it, halves away from 0.\n"
    )?;
    thinned(&mut out)?;
    placed(&mut out, "k", trail_k(), 1, 0)?;
    crossed(&mut out, "l", trail_l(), box_from(33, 40), 0, 10)?;
    writeln!(out)?;
    beside(&mut out)?;
    writeln!(out, "\nDocument 02, item 8, in millimetres:")?;
    times_ten(&mut out)?;
    two_words(&mut out)?;
    limits_in_millimetres(&mut out)?;
    writeln!(out, "\nDocument 02, item 5, with silences:")?;
    silences::rows(&mut out)
}
