// Finding a record by its hash.
ghost use Rattle.std.specs.Prelude.{◌≡◌, ◌<◌, drop, is_some, IfSome};
ghost use Rattle.lists.specs.Lists.{index_of};
ghost use Rattle.nodes.specs.Records.{records, nodes_of, hashes};

use crate::records::{FIRST_RECORD, count, record_end};
use crate::starts::Records;
use lists::same_bytes;
use sizes::HASH;
use wire::span;

// The index of the first of the n records from a position on that has the hash.
#[tactic(auto, using(crate::proofs::Searches::find_past, crate::proofs::Searches::find_hit, crate::proofs::Searches::find_on, crate::proofs::Searches::find_none))]
pub fn find(s: &[u8], h: &[u8], n: u64, at: usize) -> Option<usize>
    ensures { result ≡ index_of h.now 0 (hashes (records s.now n at)) }
{
    let mut p = at;
    for i in 0..n {
        let next = record_end(s, p)?;
        if same_bytes(span(s, p, HASH), h) {
            return Some(i as usize);
        }
        p = next;
    }
    None
}

// The number of the record of the section that has the hash.
#[tactic(auto, unfolding(crate::specs::Records::nodes_of))]
pub fn find_record(s: &[u8], h: &[u8]) -> Option<usize>
    ensures { result ≡ index_of h.now 0 (hashes (nodes_of s.now)) }
{
    find(s, h, count(s), FIRST_RECORD)
}

// Whether a record of the section has the hash.
pub fn has_record(s: &[u8], h: &[u8]) -> bool
    ensures { result ≡ is_some (index_of h.now 0 (hashes (nodes_of s.now))) }
{
    find_record(s, h).is_some()
}

impl Records<'_> {
    // The number of the first record, from record `from` on, that has the hash. Looks only where the records start.
    pub(crate) fn find_from(&self, from: usize, h: &[u8]) -> Option<usize>
        ensures first { result ≡ index_of h.now from (hashes (drop from (nodes_of self.now.section.now))) }
        ensures within { IfSome result (λ k. k < self.now.n) }
    {
        (from..self.n).find(|k| same_bytes(self.hash(*k), h))
    }

    // Whether one of them has the hash.
    #[tactic(auto, using(crate::proofs::Searches::found_counted))]
    pub(crate) fn has_from(&self, from: usize, h: &[u8]) -> bool
        ensures { result ≡ is_some (index_of h.now 0 (hashes (drop from (nodes_of self.now.section.now)))) }
    {
        self.find_from(from, h).is_some()
    }
}
