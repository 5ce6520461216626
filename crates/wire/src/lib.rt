// Reads in a slice of bytes: big-endian numbers, spans, fixed strings. What passes the end is an answer. A slice and a position in it
// stay two parameters, here and in the crates that read by this one: an answer is a position in the same slice, and a struct of both
// would hand the slice back with it.
#![tactic(auto)]

ghost use Rattle.std.specs.Prelude.{◌≡◌, ◌+◌, ◌≤◌, length, IfSome, OnSome};
ghost use Rattle.wire.specs.Wire.{big_endian, inside, span_end, span, number_at, holds_at, or_zero};

// A part of a slice: where it starts, and how many bytes it has.
#[derive(Clone, Copy, Debug, PartialEq, Eq)]
pub struct Part {
    pub start: usize,
    pub size: usize,
}

impl Part {
    // Its bytes in s, or the empty part where they pass the end.
    pub fn of(self, s: &[u8]) -> &[u8]
        ensures { result.now ≡ span s.now self.start self.size }
    {
        span(s, self.start, self.size)
    }
}

// The number that bytes stand for, the first byte the highest.
fn big_endian(bytes: &[u8]) -> u64
    requires { length bytes.now ≤ 8 }
    ensures { result ≡ big_endian bytes.now }
{
    let mut n: u64 = 0;
    for b in bytes {
        n = n * 256 + *b as u64;
    }
    n
}

// Whether all of the n bytes from start on are in s.
pub fn inside(s: &[u8], start: usize, n: usize) -> bool
    ensures { result ≡ inside s.now start n }
{
    start <= s.len() && n <= s.len() - start
}

// Where the span of n bytes from start on ends, if it does not pass the end of s.
pub fn span_end(s: &[u8], start: usize, n: usize) -> Option<usize>
    ensures place { result ≡ span_end s.now start n }
    ensures within { IfSome result (λ end. (end ≡ start + n) × (end ≤ length s.now)) }
{
    if inside(s, start, n) {
        return Some(start + n);
    }
    None
}

// The n bytes from start on, or the empty part where they pass the end.
pub fn span(s: &[u8], start: usize, n: usize) -> &[u8]
    ensures { result.now ≡ span s.now start n }
{
    if inside(s, start, n) {
        let end = start + n;
        return &s[start..end];
    }
    &s[..0]
}

// The number of N bytes at a position, the first byte the highest.
pub fn number_at<const N: usize>(s: &[u8], at: usize) -> Option<u64>
    requires { N ≤ 8 }
    ensures value { result ≡ number_at N s.now at }
    ensures within { OnSome result (at + N ≤ length s.now) }
{
    let end = span_end(s, at, N)?;
    Some(big_endian(&s[at..end]))
}

// The number that was read; 0 where there was none.
pub fn or_zero(read: Option<u64>) -> u64
    ensures { result ≡ or_zero read }
{
    read.unwrap_or(0)
}

// Whether the byte string t stands in s from at on.
pub fn holds_at(s: &[u8], at: usize, t: &[u8]) -> bool
    ensures { result ≡ holds_at s.now at t.now }
{
    match span_end(s, at, t.len()) {
        Some(end) => lists::same_bytes(&s[at..end], t),
        None => false,
    }
}
