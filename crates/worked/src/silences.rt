// Document 02, item 5: trails with silences, in centimetres.
use crate::{aged, begin, box_from, crossed, placed, record_with};
use distance::{Coordinate, Fix, Seconds, Silence};
use format::Kind;
use printing::{Checked, Written};
use std::io;
use std::io::Write;

// A trail as its record, of kind 3.
fn record_of(ts: &[u32], xs: &[i32], ys: &[i32], silences: &[u8]) -> [u8; 64] {
    record_with(Kind::SilenceTrail, ts, xs, ys, silences)
}

// Trails k and l with silence after their first fix.
fn silent_k() -> [u8; 64] {
    record_of(&[0, 10], &[0, 5], &[0, -5], &[1, 0])
}

fn silent_l() -> [u8; 64] {
    record_of(&[0, 10], &[0, 100], &[0, 0], &[1, 0])
}

// The record of two fixes of one place, so many seconds apart, that say so of silence, whether or not the writer would take them: made of one that it took, with
// the second fix and the first silence stored over.
fn record_saying(seconds: u32, first: u8, last: u8) -> [u8; 64] {
    let mut bytes = record_of(&[0, 1], &[0, 0], &[0, 0], &[0, 0]);
    let second = Fix {
        t: Seconds(seconds),
        x: Coordinate(0),
        y: Coordinate(0),
        silence: Silence(last),
    };
    format::put_fix(&mut bytes, Kind::SilenceTrail, 19, second);
    bytes[18] = first;
    bytes
}

// What the writer says of such fixes, and the reader of their record.
fn said<W: Write>(out: &mut W, seconds: u32, first: u8, last: u8) -> io::Result<()> {
    let bytes = record_saying(seconds, first, last);
    let mut output = [0u8; 64];
    let written = Written(writing::write(
        Kind::SilenceTrail,
        &[0, seconds],
        &[0, 0],
        &[0, 0],
        &[first, last],
        &mut output,
    ));
    let checked = Checked(record::check(&bytes));
    begin(out, "silences", &bytes)?;
    writeln!(
        out,
        "{first} and {last}, writer and reader | {written} and {checked}"
    )
}

// Two straight lines with a silence between them.
fn parted() -> [u8; 64] {
    record_of(
        &[0, 10, 20, 30, 40, 50],
        &[0, 100, 200, 0, 100, 200],
        &[0, 0, 0, 0, 0, 0],
        &[0, 0, 1, 0, 0, 0],
    )
}

// Trail h, with silence or without after each of its fixes.
fn trail_h(silences: &[u8]) -> [u8; 64] {
    record_of(&[0, 10, 20, 30], &[0, 20, 20, 0], &[0, 0, 0, 0], silences)
}

// The moments and the crossings of a silent leg.
fn asked<W: Write>(out: &mut W) -> io::Result<()> {
    placed(out, "k", silent_k(), 1, 0)?;
    placed(out, "k", silent_k(), 0, 0)?;
    placed(out, "k", silent_k(), 10, 0)?;
    crossed(out, "l", silent_l(), box_from(33, 40), 0, 10)?;
    crossed(out, "l", silent_l(), box_from(0, 40), 0, 10)?;
    crossed(out, "l", silent_l(), box_from(33, 100), 0, 10)?;
    crossed(out, "l", silent_l(), box_from(0, 100), 1, 9)
}

pub(crate) fn rows<W: Write>(out: &mut W) -> io::Result<()> {
    aged(out, "parted", parted(), &[0])?;
    aged(out, "parted", parted(), &[32000])?;
    aged(out, "h parted", trail_h(&[0, 1, 0, 0]), &[25, 12])?;
    aged(out, "h", trail_h(&[0, 0, 0, 0]), &[25, 12])?;
    asked(out)?;
    said(out, 1, 2, 0)?;
    said(out, 1, 0, 1)?;
    said(out, 65536, 1, 1)?;
    said(out, 65535, 1, 0)
}
