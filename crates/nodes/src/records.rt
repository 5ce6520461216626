// The records of a nodes section: where each ends, and the hash of a node.
ghost use Rattle.std.specs.Prelude.{◌≡◌, ◌+◌, ◌≤◌, length, IfSome};
ghost use Rattle.nodes.specs.Records.{named_hashes, children_of, record_head, payload_end, record_end, records_end, count, shaped, node_hash, domain_state};

use sha256::Running;
use sizes::{HASH, Size};
use wire::{number_at, or_zero, span, span_end};

// Where the first record starts: after the count.
pub(crate) const FIRST_RECORD: usize = 8;

// Bytes of a record before its payload: the hash and the payload's length.
pub(crate) const RECORD_HEAD: usize = HASH + 4;

// Where the payload of n bytes at a position ends, if it has the stated shape.
#[tactic(auto, unfolding(crate::specs::Records::payload_end))]
fn payload_end(s: &[u8], at: usize, n: u64) -> Option<usize>
    ensures place { result ≡ payload_end s.now at n }
    ensures within { IfSome result (λ end. (end ≡ at + n) × (end ≤ length s.now)) }
{
    let tag = number_at::<1>(s, at)?;
    if tag <= 2 && n == HASH as u64 * tag + 1 {
        return span_end(s, at, n as usize);
    }
    None
}

// Where the record at a position ends, if it has the stated shape. Three functions walk by it, and stay loops: the check asks where the
// last record ends, which no item of an iterator says, and for the other two alone an iterator would be longer than they are.
#[tactic(auto, unfolding(crate::specs::Records::record_end))]
pub(crate) fn record_end(s: &[u8], at: usize) -> Option<usize>
    ensures place { result ≡ record_end s.now at }
    ensures within { IfSome result (λ end. (at + record_head ≤ end) × (end ≤ length s.now)) }
{
    let length = span_end(s, at, HASH)?;
    let n = number_at::<4>(s, length)?;
    payload_end(s, length + 4, n)
}

// Where n records from a position on end.
#[tactic(auto, using(crate::proofs::Walks::ends_on, crate::proofs::Walks::ends_past), unfolding(crate::specs::Records::records_end))]
fn records_end(s: &[u8], n: u64, at: usize) -> Option<usize>
    ensures { result ≡ records_end s.now n at }
{
    let mut end = at;
    for _ in 0..n {
        end = record_end(s, end)?;
    }
    Some(end)
}

// How many records the section says it has.
#[tactic(auto, unfolding(crate::specs::Records::count))]
pub fn count(s: &[u8]) -> u64
    ensures { result ≡ count s.now }
{
    or_zero(number_at::<8>(s, 0))
}

// Whether the section has the stated shape, with a count within the size.
#[tactic(auto, unfolding(crate::specs::Records::shaped))]
pub fn shaped(s: &[u8]) -> bool
    ensures { result ≡ shaped s.now }
{
    let Some(n) = number_at::<8>(s, 0) else {
        return false;
    };
    Size::NODES.allows(n) && records_end(s, n, FIRST_RECORD) == Some(s.len())
}

// The hashes of its children that a payload names: a leaf's none, a stem's one, a fork's two. A node of the table has slots in their
// place; no function takes both, so that nothing would be written over a type of the two.
pub(crate) enum Children<'a> {
    Leaf,
    Stem(&'a [u8]),
    Fork(&'a [u8], &'a [u8]),
}

// A payload of one of the three lengths names what stands after its tag, and any other names none.
#[tactic(auto, unfolding(crate::specs::Records::children_of))]
pub(crate) fn children_of(payload: &[u8]) -> Children<'_>
    ensures { named_hashes result ≡ children_of payload.now }
{
    match payload.len() {
        33 => Children::Stem(span(payload, 1, HASH)),
        65 => Children::Fork(span(payload, 1, HASH), span(payload, 33, HASH)),
        _ => Children::Leaf,
    }
}

// The running hash after the domain and a zero byte, which every node's hash starts with.
pub(crate) fn domain() -> Running
    ensures { result ≡ domain_state }
{
    Running::new()
        .absorb(b"arboricx.merkle.node.v1")
        .absorb(b"\0")
}

// SHA-256 of the domain, a zero byte and the payload.
#[tactic(auto, using(sha256::proofs::Clients::absorbed_after, sha256::proofs::Clients::finished_after), unfolding(crate::specs::Records::node_hash, crate::specs::Records::domain_state))]
pub(crate) fn node_hash(domain: Running, payload: &[u8]) -> [u8; HASH]
    requires { domain ≡ domain_state }
    ensures { result ≡ node_hash payload.now }
{
    domain.absorb(payload).finish()
}
