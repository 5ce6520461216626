// What can be wrong with a record: 16, 17 and 18.
ghost use Rattle.std.specs.Prelude.{◌≡◌, ◌<◌};
ghost use Rattle.nodes.specs.declared.faults.RecordFault.TheVariants.{Hash, Twice, Child};
ghost use Rattle.nodes.specs.Records.{nodes_of, domain_state, some_record};
ghost use Rattle.nodes.specs.Starts.{nth_faulty};

use crate::records::{Children, children_of, domain, node_hash};
use crate::starts::Records;
use lists::same_bytes;
use sha256::Running;

// An enum, since the definitions and the promises name the faults.
#[derive(Clone, Copy, Debug, PartialEq, Eq)]
pub enum RecordFault {
    // The hash is wrong.
    Hash,
    // A record after it carries the same hash.
    Twice,
    // A child has no record.
    Child,
}

impl Records<'_> {
    // Whether record k's hash is wrong. The running hash after the domain is the same for all records.
    #[tactic(auto, unfolding(crate::specs::Records::record_faulty))]
    fn wrong_hash(&self, domain: Running, k: usize) -> bool
        requires { (k < self.now.n) × (domain ≡ domain_state) }
        ensures { result ≡ nth_faulty Hash (nodes_of self.now.section.now) k }
    {
        !same_bytes(self.hash(k), &node_hash(domain, self.payload(k)))
    }

    // Whether a record after record k carries the same hash.
    #[tactic(auto, unfolding(crate::specs::Records::record_faulty))]
    fn comes_again(&self, k: usize) -> bool
        requires { k < self.now.n }
        ensures { result ≡ nth_faulty Twice (nodes_of self.now.section.now) k }
    {
        self.has_from(k + 1, self.hash(k))
    }

    // Whether a child that record k's payload names has no record.
    #[tactic(auto, unfolding(crate::specs::Records::record_faulty, crate::specs::Records::lacks))]
    fn lacks_child(&self, k: usize) -> bool
        requires { k < self.now.n }
        ensures { result ≡ nth_faulty Child (nodes_of self.now.section.now) k }
    {
        match children_of(self.payload(k)) {
            Children::Leaf => false,
            Children::Stem(a) => !self.has_from(0, a),
            Children::Fork(a, b) => !(self.has_from(0, a) && self.has_from(0, b)),
        }
    }

    // Whether a record of the section has the fault.
    pub fn some_record(&self, fault: RecordFault) -> bool
        ensures { result ≡ some_record fault (nodes_of self.now.section.now) (nodes_of self.now.section.now) }
    {
        match fault {
            RecordFault::Hash => {
                let domain = domain();
                (0..self.n).any(|k| self.wrong_hash(domain, k))
            }
            RecordFault::Twice => (0..self.n).any(|k| self.comes_again(k)),
            RecordFault::Child => (0..self.n).any(|k| self.lacks_child(k)),
        }
    }
}
