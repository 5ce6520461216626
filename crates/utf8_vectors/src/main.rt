// Runs the check on each case of the input and on every text of four families, and writes what it answers.
#![tactic(auto)]

ghost use Rattle.std.specs.Prelude.{◌<◌, ◌≤◌, length};

use cases::input::read_full;
use cases::output::{BestEffort, Hex};
use std::{fmt, io};

// The bytes at which a rule of UTF-8 begins or ends.
const EDGES: &[u8; 24] =
    b"\x00\x7f\x80\x8f\x90\x9f\xa0\xbf\xc0\xc1\xc2\xdf\xe0\xe1\xec\xed\xee\xef\xf0\xf1\xf3\xf4\xf5\xff";

// So many bytes of the input are read.
const INPUT_BYTES: usize = 4096;

// How many texts a family has, how many of them are valid, and the sum of the places of the others.
#[derive(Default, Drop)]
struct Tally {
    texts: u64,
    valid: u64,
    places: u64,
}

impl Tally {
    // One text more, which is bad at a place or nowhere.
    fn count(&mut self, bad: Option<usize>) {
        self.texts = self.texts.wrapping_add(1);
        match bad {
            None => self.valid = self.valid.wrapping_add(1),
            Some(at) => self.places = self.places.wrapping_add(at as u64),
        }
    }
}

impl fmt::Display for Tally {
    fn fmt<W: fmt::Write>(&self, f: &mut fmt::Formatter<W>) -> fmt::Result {
        let Tally {
            texts,
            valid,
            places,
        } = self;
        write!(f, "{texts} texts, {valid} valid, places sum to {places}")
    }
}

// The place at which a text stops being UTF-8, if there is one.
fn bad_place(text: &[u8]) -> Option<usize> {
    utf8::check(text).err().map(|bad| bad.place)
}

fn show_case(rt: &impl Print, text: &[u8]) -> io::Result<()> {
    let bytes = Hex(text);
    match bad_place(text) {
        None => println!(rt; "{bytes} valid"),
        Some(at) => println!(rt; "{bytes} bad at {at}"),
    }
}

// The cases of the input: for each, its length as a byte, and its bytes.
fn show_cases(rt: &impl Print, input: &[u8]) -> io::Result<()> {
    let mut rest = input;
    while let Some((size, after)) = rest.split_first() {
        let Some((text, next)) = after.split_at_checked(usize::from(*size)) else {
            return Ok(());
        };
        show_case(rt, text)?;
        rest = next;
    }
    Ok(())
}

// Text n of a family: the digits of n, where these bytes stand for digits. No family has longer texts than of four bytes.
fn text_at<const LENGTH: usize>(digits: &[u8], n: usize) -> [u8; LENGTH]
    requires { (0 < length digits.now) × (LENGTH ≤ 4) }
{
    let mut text = [0; LENGTH];
    let mut left = n;
    for byte in text.iter_mut().rev() {
        *byte = digits[left % digits.len()];
        left /= digits.len();
    }
    text
}

// So many texts of one length, of these bytes.
fn show_family<const LENGTH: usize>(rt: &impl Print, digits: &[u8], texts: usize) -> io::Result<()>
    requires { (0 < length digits.now) × (LENGTH ≤ 4) }
{
    let mut tally = Tally::default();
    for n in 0..texts {
        let text: [u8; LENGTH] = text_at(digits, n);
        tally.count(bad_place(&text));
    }
    println!(rt; "length {LENGTH}: {tally}")
}

// All texts of length 1 and of length 2, those of edges of length 3 and of length 4.
fn show_families(rt: &impl Print) -> io::Result<()> {
    let bytes: [u8; 256] = std::array::from_fn(|n| (n % 256) as u8);
    show_family::<1>(rt, &bytes, 256)?;
    show_family::<2>(rt, &bytes, 256 * 256)?;
    show_family::<3>(rt, EDGES, 24 * 24 * 24)?;
    show_family::<4>(rt, EDGES, 24 * 24 * 24 * 24)
}

fn show_all(rt: &impl Print, input: &[u8]) -> io::Result<()> {
    show_cases(rt, input)?;
    show_families(rt)
}

fn main(rt: HostRuntime) {
    let mut bytes = [0; INPUT_BYTES];
    let count = read_full(rt.reader(), &mut bytes);
    let _ = show_all(&BestEffort(&rt), &bytes[..count]);
}
