// SHA-256 (FIPS 180-4): a running hash by value, and the digest of a slice.
#![tactic(auto)]

ghost use Rattle.std.specs.Prelude.{◌≡◌, ◌+◌, ◌≤◌, ◌++◌, length, take};
ghost use Rattle.sha256_block.specs.Fips180.{sha256};
ghost use Rattle.sha256.specs.Running.{in_block, buffered, fresh, absorbed, finished_hash};

use sha256_block::copy_over;

// A hash of the bytes so far: the hash value after their whole blocks, the bytes since in the first places of the
// block with zeros after them, and the count of bytes, modulo 2^64, which says how many of the block they are: no heap.
#[derive(Clone, Copy)]
pub struct Running {
    h: [u32; 8],
    block: [u8; 64],
    total: u64,
}

// After fewer bytes than these a block has room for the mark and the count of bits.
const ONE_BLOCK: usize = 56;

// A part goes behind the first bytes of a block, and zeros after it.
#[tactic(auto, unfolding(crate::specs::Running::in_block))]
fn put_in_block(block: &mut [u8; 64], at: usize, part: &[u8])
    requires { at + length part.now ≤ 64 }
    ensures { block.new ≡ in_block (take at block.old ++ part.now) }
{
    let end = at + part.len();
    copy_over(&mut block[at..end], part);
    block[end..].fill(0);
}

// The whole blocks of m are hashed, and the bytes after them are buffered.
#[tactic(auto, unfolding(crate::specs::Running::buffered))]
fn buffered(v: [u32; 8], m: &[u8], total: u64) -> Running
    ensures { result ≡ buffered v m.now total }
{
    let h = sha256_block::hash_all(v, m);
    let mut block = [0; 64];
    put_in_block(&mut block, 0, m.chunks_exact(64).remainder());
    Running { h, block, total }
}

impl Running {
    #[tactic(auto, unfolding(crate::specs::Running::fresh, crate::specs::Running::in_block, sha256_block::specs::Fips180::H0))]
    pub fn new() -> Running
        ensures { result ≡ fresh }
    {
        Running {
            h: [
                0x6a09e667, 0xbb67ae85, 0x3c6ef372, 0xa54ff53a, 0x510e527f, 0x9b05688c, 0x1f83d9ab,
                0x5be0cd19,
            ],
            block: [0; 64],
            total: 0,
        }
    }

    // A part of the message more: it fills the block that was begun, and whole blocks are hashed where they stand.
    #[tactic(auto, using(crate::proofs::Absorbing::absorbing))]
    pub fn absorb(self, part: &[u8]) -> Running
        ensures { result ≡ absorbed self part.now }
    {
        let Running {
            h,
            mut block,
            total,
        } = self;
        let at = (total % 64) as usize;
        let total = total.wrapping_add(part.len() as u64);
        if at == 0 {
            return buffered(h, part, total);
        }
        let Some((first, rest)) = part.split_at_checked(64 - at) else {
            put_in_block(&mut block, at, part);
            return Running { h, block, total };
        };
        put_in_block(&mut block, at, first);
        buffered(sha256_block::compress(h, &block), rest, total)
    }

    // The digest, after the padding.
    pub fn finish(self) -> [u8; 32]
        ensures { result ≡ finished_hash self }
    {
        let Running {
            mut h,
            mut block,
            total,
        } = self;
        let at = (total % 64) as usize;
        put_in_block(&mut block, at, b"\x80");
        if at >= ONE_BLOCK {
            let next = sha256_block::compress(h, &block);
            h = next;
            block = [0; 64];
        }
        copy_over(&mut block[56..], &sha256_block::length_bytes(total << 3));
        sha256_block::bytes_of(sha256_block::compress(h, &block))
    }
}

#[tactic(auto, using(crate::proofs::Clients::parts))]
pub fn digest(bytes: &[u8]) -> [u8; 32]
    ensures { result ≡ sha256 bytes.now }
{
    Running::new().absorb(bytes).finish()
}
