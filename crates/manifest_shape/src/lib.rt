// The shape of a manifest (12), and where its parts start.
#![tactic(auto)]

ghost use Rattle.std.specs.Prelude.{◌≡◌};
ghost use Rattle.manifest_shape.specs.Shape.{head_end, manifest_of};

pub mod parts;

use crate::parts::{Kind, closure_end, counted_end, items_end};
use sizes::Size;
use wire::{holds_at, number_at, span_end};

// Where parts of a manifest start.
#[derive(Clone, Copy, Debug, PartialEq, Eq)]
pub struct Layout {
    pub strings: usize,
    pub capabilities: usize,
    pub closure: usize,
    pub roots: usize,
    pub exports: usize,
}

// The magic, major 1, any minor.
#[tactic(auto, unfolding(crate::specs::Shape::head_end))]
fn head_end(s: &[u8]) -> Option<usize>
    ensures { result ≡ head_end s.now }
{
    if !holds_at(s, 0, b"ARBMNFST") {
        return None;
    }
    if number_at::<2>(s, 8)? != 1 {
        return None;
    }
    span_end(s, 10, 2)
}

// Where the parts of the manifest start, if it has the stated shape; no byte is left over.
#[tactic(auto, unfolding(crate::specs::Shape::manifest_of))]
pub fn read(s: &[u8]) -> Option<Layout>
    ensures { result ≡ manifest_of s.now }
{
    let strings = head_end(s)?;
    let capabilities = items_end(s, Kind::Text, 9, strings)?;
    let closure = counted_end(s, Kind::Text, Size::ANY_COUNT, capabilities)?;
    let roots = closure_end(s, closure)?;
    let exports = counted_end(s, Kind::Root, Size::ROOTS, roots)?;
    let metadata = counted_end(s, Kind::Export, Size::EXPORTS, exports)?;
    let extensions = counted_end(s, Kind::Field, Size::FIELDS, metadata)?;
    let end = counted_end(s, Kind::Field, Size::FIELDS, extensions)?;
    if end != s.len() {
        return None;
    }
    Some(Layout {
        strings,
        capabilities,
        closure,
        roots,
        exports,
    })
}
