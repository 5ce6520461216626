// Where the records of a section start, which a search goes by.
ghost use Rattle.std.specs.Prelude.{◌≡◌, ◌++◌, ◌≤◌, ◌<◌, length, drop};
ghost use Rattle.nodes.specs.Links.{Sized};
ghost use Rattle.nodes.specs.Starts.{starts, Starts, nth_record};
ghost use Rattle.nodes.specs.Records.{first_record, count, nodes_of};

use crate::records::{FIRST_RECORD, RECORD_HEAD, count, record_end};
use sizes::HASH;

// A word for as many records as there may be.
pub const START_WORDS: usize = 512;

// Writes where each of the n records starts. A record has at most 101 bytes, so that a word holds its position.
#[tactic(auto, using(crate::proofs::StartsFilling::started_none, crate::proofs::StartsFilling::started_some, crate::proofs::StartsFilling::started_all))]
pub fn fill_starts(s: &[u8], n: u64, out: &mut [u32])
    requires { Sized s.now n × (n ≤ length out.old) }
    ensures { out.new ≡ starts s.now n first_record ++ drop n out.old }
{
    let mut p = FIRST_RECORD;
    for k in 0..n as usize {
        out[k] = p as u32;
        p = record_end(s, p).unwrap();
    }
}

// A nodes section with as many records as it says, which is within the size, and where each of them starts: the first n words of a fixed
// table.
#[derive(Clone, Copy)]
pub struct Records<'a> {
    pub section: &'a [u8],
    pub(crate) starts: &'a [u32],
    pub(crate) n: usize,
    ghost counted: { n ≡ count section.now },
    ghost started: { Starts section.now (count section.now) starts.now },
}

impl<'a> Records<'a> {
    pub fn new(section: &'a [u8], starts: &'a [u32]) -> Self
        requires { Starts section.now (count section.now) starts.now }
        ensures { result.section.now ≡ section.now }
    {
        let n = count(section) as usize;
        Records { section, starts, n }
    }

    // The hash of record k. That k is below n is asked: it comes from a range up to n, and a type for it would ask the same once more.
    #[tactic(auto, using(crate::proofs::StartTable::starts_space, crate::proofs::StartTable::start_in_lem, crate::proofs::StartTable::start_hash, wire::proofs::Spans::span_lent))]
    pub(crate) fn hash(&self, k: usize) -> &[u8]
        requires { k < self.now.n }
        ensures { result.now ≡ (nth_record (nodes_of self.now.section.now) k).hash }
    {
        let p = self.starts[k] as usize;
        &self.section[p..p + HASH]
    }

    // The payload of record k.
    #[tactic(auto, using(crate::proofs::StartTable::starts_space, crate::proofs::StartTable::start_some, crate::proofs::StartTable::start_payload, wire::proofs::Spans::span_in))]
    pub(crate) fn payload(&self, k: usize) -> &[u8]
        requires { k < self.now.n }
        ensures { result.now ≡ (nth_record (nodes_of self.now.section.now) k).payload }
    {
        let p = self.starts[k] as usize;
        let end = record_end(self.section, p).unwrap();
        &self.section[p + RECORD_HEAD..end]
    }
}
