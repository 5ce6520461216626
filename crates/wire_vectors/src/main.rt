// Prints what wire reads in 24 fixed bytes: the numbers at each position, spans, and the tests of byte strings.
// Positions and lengths run to 2 ^ 64 - 1, so that some sums would wrap.
#![tactic(auto)]

use cases::output::{BestEffort, Hex};
use std::{fmt, io};
use wire::number_at;

const BYTES: &[u8; 24] =
    b"\x00\x7f\x80\xff\x01\x00\x00\x7f\x80\xff\xff\xff\xff\xff\xff\xff\xff\x00\x80\x00\x7f\x80\xff\xfe";

const STARTS: [usize; 11] = [
    0,
    1,
    5,
    17,
    22,
    23,
    24,
    25,
    9223372036854775808,
    18446744073709551614,
    18446744073709551615,
];

const LENGTHS: [usize; 14] = [
    0,
    1,
    2,
    7,
    8,
    19,
    23,
    24,
    25,
    9223372036854775808,
    18446744073709551592,
    18446744073709551613,
    18446744073709551614,
    18446744073709551615,
];

// A number that was read, if the bytes did not end before it.
#[derive(Clone, Copy)]
struct Number(Option<u64>);

impl fmt::Display for Number {
    fn fmt<W: fmt::Write>(&self, f: &mut fmt::Formatter<W>) -> fmt::Result {
        match self.0 {
            Some(n) => write!(f, "{n}"),
            None => write!(f, "short"),
        }
    }
}

fn yes_or_no(yes: bool) -> &'static str {
    if yes { "yes" } else { "no" }
}

fn show_numbers(rt: &impl Print, s: &[u8], at: usize) -> io::Result<()> {
    let one = Number(number_at::<1>(s, at));
    let two = Number(number_at::<2>(s, at));
    let four = Number(number_at::<4>(s, at));
    let eight = Number(number_at::<8>(s, at));
    println!(rt; "numbers at {at} {one} {two} {four} {eight}")
}

// The numbers at positions in s, at its end and past it, and at the last positions that there are.
fn show_all_numbers(rt: &impl Print, s: &[u8]) -> io::Result<()> {
    for at in (0..=26).chain(18446744073709551606..=18446744073709551615) {
        show_numbers(rt, s, at)?;
    }
    Ok(())
}

fn show_span(rt: &impl Print, s: &[u8], start: usize, n: usize) -> io::Result<()> {
    let bytes = Hex(wire::span(s, start, n));
    let inside = yes_or_no(wire::inside(s, start, n));
    match wire::span_end(s, start, n) {
        Some(end) => println!(rt; "span of {n} at {start} ends at {end} [{bytes}] {inside}"),
        None => println!(rt; "span of {n} at {start} past the end [{bytes}] {inside}"),
    }
}

fn show_spans_at(rt: &impl Print, s: &[u8], start: usize) -> io::Result<()> {
    for n in LENGTHS {
        show_span(rt, s, start, n)?;
    }
    Ok(())
}

fn show_spans(rt: &impl Print, s: &[u8]) -> io::Result<()> {
    for start in STARTS {
        show_spans_at(rt, s, start)?;
    }
    Ok(())
}

fn show_same(rt: &impl Print, a: &[u8], b: &[u8]) -> io::Result<()> {
    let same = yes_or_no(lists::same_bytes(a, b));
    println!(rt; "same [{}] [{}] {same}", Hex(a), Hex(b))
}

// Each of two strings with each.
fn show_sames(rt: &impl Print, a: &[u8], b: &[u8]) -> io::Result<()> {
    for (first, second) in [(a, a), (a, b), (b, a), (b, b)] {
        show_same(rt, first, second)?;
    }
    Ok(())
}

fn show_holds(rt: &impl Print, s: &[u8], at: usize, t: &[u8]) -> io::Result<()> {
    let holds = yes_or_no(wire::holds_at(s, at, t));
    println!(rt; "holds [{}] at {at} {holds}", Hex(t))
}

// Whether t stands at positions in s, at its end and past it, and at the last positions that there are.
fn show_all_holds(rt: &impl Print, s: &[u8], t: &[u8]) -> io::Result<()> {
    for at in (0..=26).chain(18446744073709551612..=18446744073709551615) {
        show_holds(rt, s, at, t)?;
    }
    Ok(())
}

fn show_all(rt: &impl Print) -> io::Result<()> {
    show_all_numbers(rt, BYTES)?;
    show_spans(rt, BYTES)?;
    show_sames(rt, b"", b"\x00")?;
    show_sames(rt, b"\x00\x7f\x80\xff", b"\x00\x7f\x80")?;
    show_sames(rt, b"\x00\x7f\x80\xff", b"\x01\x7f\x80\xff")?;
    show_sames(rt, b"\x00\x7f\x80\xff", b"\x00\x7f\x80\xfe")?;
    show_all_holds(rt, BYTES, b"")?;
    show_all_holds(rt, BYTES, b"\xfe")?;
    show_all_holds(rt, BYTES, b"\x7f\x80\xff")?;
    show_all_holds(rt, BYTES, b"\x7f\x80\xff\xfe")?;
    show_all_holds(rt, BYTES, b"\x7f\x80\xff\xfe\x00")?;
    show_all_holds(rt, BYTES, BYTES)
}

fn main(rt: HostRuntime) {
    let _ = show_all(&BestEffort(&rt));
}
