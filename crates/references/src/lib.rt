// The hashes that roots and exports name: 20.
#![tactic(auto)]

ghost use Rattle.std.specs.Prelude.{◌≡◌, Some};
ghost use Rattle.manifest_shape.specs.Shape.{manifest_of};
ghost use Rattle.nodes.specs.Records.{lacks, nodes_of};
ghost use Rattle.references.specs.References.{hashes_at, unresolved};

use manifest::listed::Places;
pub use manifest::listed::{Reference, reference_end, reference_hash};
use manifest_shape::Layout;
use nodes::find::has_record;

// Whether one of the hashes after their count at a position has no record in the nodes section s.
fn lost(m: &[u8], kind: Reference, at: usize, s: &[u8]) -> bool
    ensures { result ≡ lacks (nodes_of s.now) (hashes_at m.now kind at) }
{
    Places::after(m, kind, at).any(|p| !has_record(s, reference_hash(m, kind, p)))
}

// 20: a root's or export's hash has no record. The layout is the manifest's.
#[tactic(auto, using(crate::proofs::Hashes::listing), unfolding(crate::specs::References::unresolved, manifest::specs::Judged::roots_of, manifest::specs::Judged::exports_of, lists::specs::Lists::any_of))]
pub fn unresolved(m: &[u8], l: Layout, s: &[u8]) -> bool
    requires { manifest_of m.now ≡ Some l }
    ensures { result ≡ unresolved m.now s.now }
{
    lost(m, Reference::Root, l.roots, s) || lost(m, Reference::Export, l.exports, s)
}
