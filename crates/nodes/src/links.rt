// The children of records by their numbers, and whether a node is its own descendant (19).
ghost use Rattle.std.specs.Prelude.{◌≡◌, ◌++◌, ◌*◌, ◌≤◌, length, drop};
ghost use Rattle.sizes.specs.Sizes.{nodes_size};
ghost use Rattle.nodes.specs.Records.{children_of, nodes_of};
ghost use Rattle.nodes.specs.Links.{link_of, first_link, second_link, links_of, circular, Scratch, PlacedTables};

use crate::records::{Children, children_of};
use crate::starts::Records;

// The words that placing works on: two links and a slot for as many records as there may be.
pub const LINK_WORDS: usize = 1024;

pub const SLOT_WORDS: usize = 512;

impl Records<'_> {
    // The number, plus one, of the record with a hash, and 0 where there is none: an Option would fill two words of the table.
    #[tactic(auto, unfolding(crate::specs::Links::link_of))]
    fn link(&self, h: &[u8]) -> u32
        ensures { result ≡ link_of (nodes_of self.now.section.now) h.now }
    {
        self.find_from(0, h).map_or(0, |k| k as u32 + 1)
    }

    // The links of a payload's first and second child.
    #[tactic(auto, unfolding(crate::specs::Links::first_link, crate::specs::Links::second_link))]
    fn links(&self, payload: &[u8]) -> (u32, u32)
        ensures first { result.0 ≡ first_link (nodes_of self.now.section.now) (children_of payload.now) }
        ensures second { result.1 ≡ second_link (nodes_of self.now.section.now) (children_of payload.now) }
    {
        match children_of(payload) {
            Children::Leaf => (0, 0),
            Children::Stem(a) => (self.link(a), 0),
            Children::Fork(a, b) => (self.link(a), self.link(b)),
        }
    }

    // Writes the links of the records, two to a record.
    #[tactic(auto, using(crate::proofs::Filling::linking_all, crate::proofs::StartTable::nodes_counted))]
    fn fill_links(&self, out: &mut [u32])
        requires { 2 * self.now.n ≤ length out.old }
        ensures { out.new ≡ links_of (nodes_of self.now.section.now) ++ drop (2 * self.now.n) out.old }
    {
        for k in 0..self.n {
            let (first, second) = self.links(self.payload(k));
            out[2 * k] = first;
            out[2 * k + 1] = second;
        }
    }

    // 19: placing stops short. Leaves the links of the records and the slots that they got. They stay two tables: a caller has them
    // as arrays of its own, and a struct of the two would say no more of them than `Scratch` does.
    pub fn circular(&self, links: &mut [u32], slots: &mut [u32]) -> bool
        requires { Scratch links.old slots.old }
        ensures { (result ≡ circular (nodes_of self.now.section.now))
            × PlacedTables (nodes_of self.now.section.now) links.new slots.new }
    {
        self.fill_links(links);
        placing::place(&links[..2 * self.n], self.n, slots) < self.n
    }
}
