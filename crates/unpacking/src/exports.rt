// Writes the slots of the exports.
ghost use Rattle.std.specs.Prelude.{◌≡◌, ◌++◌, ◌≤◌, length, drop, Some};
ghost use Rattle.manifest_shape.specs.Shape.{manifest_of};
ghost use Rattle.nodes.specs.Records.{nodes_of};
ghost use Rattle.references.specs.References.{hashes_from};
ghost use Rattle.unpacking.specs.Written.{slot_named, slots_named};
ghost use Rattle.unpacking.specs.Ready.{Slotted, ListedIn};

use crate::records::slot_at;
use manifest::content::count_at;
use manifest_shape::Layout;
use nodes::find::find_record;
use references::{Reference, reference_end, reference_hash};

// How many exports a manifest section lists, and where they stand: after their count.
#[derive(Clone, Copy, Debug, PartialEq, Eq)]
pub struct ExportList {
    pub count: u64,
    pub at: usize,
}

// By the section's layout.
pub fn list_exports(m: &[u8], l: Layout) -> ExportList
    requires { manifest_of m.now ≡ Some l }
    ensures { ListedIn m.now result }
{
    let at = l.exports;
    ExportList {
        count: count_at(m, at),
        at: at + 4,
    }
}

// The slot of the record with a hash, as a word.
fn slot_named(s: &[u8], slots: &[u32], h: &[u8]) -> u32
    requires { Slotted (nodes_of s.now) slots.now }
    ensures { result ≡ (slot_named (nodes_of s.now) h.now).0 }
{
    match find_record(s, h) {
        Some(i) => slot_at(slots, i).0 as u32,
        None => 0,
    }
}

// Writes the slots of the n exports from a position on, in their order. A loop, and not over `Places` of the crate `manifest`, which
// begins at the count and would read it again: the load has it in hand, with its proof that so many exports are there.
pub fn put_exports(m: &[u8], n: usize, at: usize, s: &[u8], slots: &[u32], out: &mut [u32])
    requires { Slotted (nodes_of s.now) slots.now × (n ≤ length out.old)
        × (length (hashes_from m.now Reference.Export n at) ≡ n) }
    ensures { out.new
        ≡ slots_named (nodes_of s.now) (hashes_from m.now Reference.Export n at)
        ++ drop n out.old }
{
    let mut p = at;
    for j in 0..n {
        let Some(next) = reference_end(m, Reference::Export, p) else {
            return;
        };
        out[j] = slot_named(s, slots, reference_hash(m, Reference::Export, p));
        p = next;
    }
}
