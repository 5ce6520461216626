// Writes the digests of published messages, and of every length from 0 to 130: whole, cut in two at every place, and byte
// by byte.
#![tactic(auto)]

ghost use Rattle.std.specs.Prelude.{◌≡◌, ◌≤◌, length};
ghost use Rattle.sha256_block.specs.Fips180.{sha256};

use cases::output::{BestEffort, Hex};
use sha256::Running;
use std::io;

fn show_vector(rt: &impl Print, name: &str, d: [u8; 32]) -> io::Result<()> {
    println!(rt; "{name} {}", Hex(&d))
}

// One million times the letter a, in parts of 1,000.
fn million() -> [u8; 32] {
    let part = [b'a'; 1000];
    let mut s = Running::new();
    for _ in 0..1000 {
        s = s.absorb(&part);
    }
    s.finish()
}

// Bytes that count in steps of 7, modulo 251.
fn counted() -> [u8; 130] {
    std::array::from_fn(|i| ((7 * i + 3) % 251) as u8)
}

// A message cut in two has the digest of the whole.
#[tactic(auto, using(std::proofs::lemmas::Grind::common_steps, sha256::proofs::Clients::parts))]
fn cut(m: &[u8], at: usize) -> [u8; 32]
    requires { at ≤ length m.now }
    ensures { result ≡ sha256 m.now }
{
    let (first, rest) = m.split_at(at);
    Running::new().absorb(first).absorb(rest).finish()
}

// The digest of the digests of m, cut in two at every place, its two ends among them.
fn cuts(m: &[u8]) -> [u8; 32] {
    let mut all = Running::new();
    for at in 0..=m.len() {
        all = all.absorb(&cut(m, at));
    }
    all.finish()
}

#[tactic(auto, using(std::proofs::lemmas::Grind::common_steps, sha256::proofs::Clients::parts))]
fn bytewise(m: &[u8]) -> [u8; 32]
    ensures { result ≡ sha256 m.now }
{
    let mut s = Running::new();
    for byte in m {
        s = s.absorb(&[*byte]);
    }
    s.finish()
}

fn show_line(rt: &impl Print, m: &[u8]) -> io::Result<()> {
    let whole = sha256::digest(m);
    let cuts = cuts(m);
    let bytewise = bytewise(m);
    println!(rt; "{} {} {}", Hex(&whole), Hex(&cuts), Hex(&bytewise))
}

// The starts of m, from the empty one to all of it.
fn show_each_length(rt: &impl Print, m: &[u8]) -> io::Result<()> {
    for n in 0..=m.len() {
        show_line(rt, &m[..n])?;
    }
    Ok(())
}

fn show_all(rt: &impl Print) -> io::Result<()> {
    show_vector(rt, "empty", sha256::digest(b""))?;
    show_vector(rt, "abc", sha256::digest(b"abc"))?;
    show_vector(
        rt,
        "448 bits",
        sha256::digest(b"abcdbcdecdefdefgefghfghighijhijkijkljklmklmnlmnomnopnopq"),
    )?;
    show_vector(
        rt,
        "896 bits",
        sha256::digest(
            b"abcdefghbcdefghicdefghijdefghijkefghijklfghijklmghijklmnhijklmnoijklmnopjklmnopqklmnopqrlmnopqrsmnopqrstnopqrstu",
        ),
    )?;
    show_vector(rt, "million", million())?;
    show_each_length(rt, &counted())
}

fn main(rt: HostRuntime) {
    let _ = show_all(&BestEffort(&rt));
}
