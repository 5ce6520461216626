// SHA-256 block by block (FIPS 180-4, §6.2.2), and the length that the padding ends with.
#![tactic(auto)]

ghost use Rattle.std.specs.Prelude.{◌≡◌, ◌+◌, ◌<◌, ◌≤◌, length, take};
ghost use Rattle.sha256_block.specs.Fips180.{T1, T2, word_at, mixed, schedule, initial, round, rounds};
ghost use Rattle.sha256_block.specs.Fips180.{combined, compress, hash_all, bytes_of, length_bytes};

mod word;

use crate::word::{big_sigma0, big_sigma1, ch, maj, small_sigma0, small_sigma1};

// §4.2.2.
const CONSTANTS: [u32; 64] = [
    0x428a2f98, 0x71374491, 0xb5c0fbcf, 0xe9b5dba5, 0x3956c25b, 0x59f111f1, 0x923f82a4, 0xab1c5ed5,
    0xd807aa98, 0x12835b01, 0x243185be, 0x550c7dc3, 0x72be5d74, 0x80deb1fe, 0x9bdc06a7, 0xc19bf174,
    0xe49b69c1, 0xefbe4786, 0x0fc19dc6, 0x240ca1cc, 0x2de92c6f, 0x4a7484aa, 0x5cb0a9dc, 0x76f988da,
    0x983e5152, 0xa831c66d, 0xb00327c8, 0xbf597fc7, 0xc6e00bf3, 0xd5a79147, 0x06ca6351, 0x14292967,
    0x27b70a85, 0x2e1b2138, 0x4d2c6dfc, 0x53380d13, 0x650a7354, 0x766a0abb, 0x81c2c92e, 0x92722c85,
    0xa2bfe8a1, 0xa81a664b, 0xc24b8b70, 0xc76c51a3, 0xd192e819, 0xd6990624, 0xf40e3585, 0x106aa070,
    0x19a4c116, 0x1e376c08, 0x2748774c, 0x34b0bcb5, 0x391c0cb3, 0x4ed8aa4a, 0x5b9cca4f, 0x682e6ff3,
    0x748f82ee, 0x78a5636f, 0x84c87814, 0x8cc70208, 0x90befffa, 0xa4506ceb, 0xbef9a3f7, 0xc67178f2,
];

// The working variables a to h.
#[derive(Clone, Copy)]
struct Work {
    a: u32,
    b: u32,
    c: u32,
    d: u32,
    e: u32,
    f: u32,
    g: u32,
    h: u32,
}

// Word t of a block. A block is a slice in all four: `as_array` would hand a reference out as an Option, in a place of the size that
// one has on x86-64.
fn word_at(block: &[u8], t: usize) -> u32
    requires { (length block.now ≡ 64) × (t < 16) }
    ensures { result ≡ word_at block.now t }
{
    let at = 4 * t;
    u32::from_be_bytes([block[at], block[at + 1], block[at + 2], block[at + 3]])
}

// The word that is newest goes into the sum last: the others need not wait for it.
fn mixed(w2: u32, w7: u32, w15: u32, w16: u32) -> u32
    ensures { result ≡ mixed w2 w7 w15 w16 }
{
    small_sigma0(w15)
        .wrapping_add(w16)
        .wrapping_add(w7)
        .wrapping_add(small_sigma1(w2))
}

// The first 16 words of the message schedule, which are the block's.
#[tactic(auto, using(std::proofs::lemmas::Grind::common_steps, crate::proofs::Words::schedule_none, crate::proofs::Words::schedule_first))]
fn message(block: &[u8]) -> [u32; 64]
    requires { length block.now ≡ 64 }
    ensures { take 16 result ≡ schedule block.now 16 }
{
    let mut w = [0u32; 64];
    for t in 0..16 {
        w[t] = word_at(block, t);
    }
    w
}

// The message schedule of a block: after its own 16 words the other 48. Two a turn: x and y are the two newest words, which the
// next two need at once, and so they stay in registers and are not read back from w. One a turn takes 4 in 100 longer.
#[tactic(auto, using(std::proofs::lemmas::Grind::common_steps, crate::proofs::Words::schedule_two))]
fn schedule(block: &[u8]) -> [u32; 64]
    requires { length block.now ≡ 64 }
    ensures { result ≡ schedule block.now 64 }
{
    let mut w = message(block);
    let mut x = w[14];
    let mut y = w[15];
    for t in (16..64).step_by(2) {
        x = mixed(x, w[t - 7], w[t - 15], w[t - 16]);
        w[t] = x;
        y = mixed(y, w[t - 6], w[t - 14], w[t - 15]);
        w[t + 1] = y;
    }
    w
}

fn initial(v: [u32; 8]) -> Work
    ensures { result ≡ initial v }
{
    let [a, b, c, d, e, f, g, h] = v;
    Work {
        a,
        b,
        c,
        d,
        e,
        f,
        g,
        h,
    }
}

fn t1(s: Work, k: u32, w: u32) -> u32
    ensures { result ≡ T1 s k w }
{
    s.h.wrapping_add(big_sigma1(s.e))
        .wrapping_add(ch(s.e, s.f, s.g))
        .wrapping_add(k)
        .wrapping_add(w)
}

fn t2(s: Work) -> u32
    ensures { result ≡ T2 s }
{
    big_sigma0(s.a).wrapping_add(maj(s.a, s.b, s.c))
}

#[tactic(auto, unfolding(crate::specs::Fips180::round))]
fn round(s: Work, k: u32, w: u32) -> Work
    ensures { result ≡ round s k w }
{
    let x = t1(s, k, w);
    let y = t2(s);
    Work {
        a: x.wrapping_add(y),
        b: s.a,
        c: s.b,
        d: s.c,
        e: s.d.wrapping_add(x),
        f: s.e,
        g: s.f,
        h: s.g,
    }
}

// Four rounds from round t on: unrolled, so that the working variables change places in registers. One round a turn takes a
// sixth longer.
#[tactic(auto, unfolding(crate::specs::Fips180::rounds, crate::specs::Fips180::K))]
fn four_rounds(w: &[u32; 64], t: usize, s: Work) -> Work
    requires { t + 4 ≤ 64 }
    ensures { result ≡ rounds w.now t 4 s }
{
    let s1 = round(s, CONSTANTS[t], w[t]);
    let s2 = round(s1, CONSTANTS[t + 1], w[t + 1]);
    let s3 = round(s2, CONSTANTS[t + 2], w[t + 2]);
    round(s3, CONSTANTS[t + 3], w[t + 3])
}

#[tactic(auto, using(crate::proofs::FourRounds::rounds_four), unfolding(crate::specs::Fips180::rounds))]
fn rounds(w: &[u32; 64], start: Work) -> Work
    ensures { result ≡ rounds w.now 0 64 start }
{
    let mut s = start;
    for t in (0..64).step_by(4) {
        s = four_rounds(w, t, s);
    }
    s
}

#[tactic(auto, unfolding(crate::specs::Fips180::combined))]
fn combined(v: [u32; 8], s: Work) -> [u32; 8]
    ensures { result ≡ combined v s }
{
    [
        v[0].wrapping_add(s.a),
        v[1].wrapping_add(s.b),
        v[2].wrapping_add(s.c),
        v[3].wrapping_add(s.d),
        v[4].wrapping_add(s.e),
        v[5].wrapping_add(s.f),
        v[6].wrapping_add(s.g),
        v[7].wrapping_add(s.h),
    ]
}

// One block into a hash value.
#[tactic(auto, unfolding(crate::specs::Fips180::compress))]
pub fn compress(v: [u32; 8], block: &[u8]) -> [u32; 8]
    requires { length block.now ≡ 64 }
    ensures { result ≡ compress v block.now }
{
    let w = schedule(block);
    combined(v, rounds(&w, initial(v)))
}

// The whole blocks of m into a hash value, each straight from m.
#[tactic(auto, using(crate::proofs::Blocks::hash_first, crate::proofs::Blocks::hash_none))]
pub fn hash_all(v: [u32; 8], m: &[u8]) -> [u32; 8]
    ensures { result ≡ hash_all v m.now }
{
    let mut h = v;
    for block in m.chunks_exact(64) {
        let next = compress(h, block);
        h = next;
    }
    h
}

// Bytes over as many others. Not by `copy_from_slice`, which compares where the two lie: no size of a pointer is known here.
#[tactic(auto, using(std::proofs::lemmas::Grind::common_steps))]
pub fn copy_over(to: &mut [u8], bytes: &[u8])
    requires { length to.old ≡ length bytes.now }
    ensures { to.new ≡ bytes.now }
{
    for i in 0..bytes.len() {
        to[i] = bytes[i];
    }
}

// The bytes of a hash value.
#[tactic(auto, using(std::proofs::lemmas::Slice::overwrites, crate::proofs::Digest::digest_word), unfolding(crate::specs::Fips180::bytes_of, crate::specs::Fips180::tabulate))]
pub fn bytes_of(v: [u32; 8]) -> [u8; 32]
    ensures { result ≡ bytes_of v }
{
    let mut out = [0u8; 32];
    for (i, word) in v.iter().enumerate() {
        copy_over(&mut out[4 * i..4 * i + 4], &word.to_be_bytes());
    }
    out
}

// The count of bits in 8 bytes: a function, since the padding of the standard has it.
#[tactic(auto, unfolding(crate::specs::Fips180::length_bytes, crate::specs::Fips180::tabulate))]
pub fn length_bytes(bits: u64) -> [u8; 8]
    ensures { result ≡ length_bytes bits }
{
    bits.to_be_bytes()
}
