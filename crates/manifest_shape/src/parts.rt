// The parts that a manifest is made of: where each ends, or None if it does not have the stated shape.
ghost use Rattle.std.specs.Prelude.{◌≡◌};
ghost use Rattle.manifest_shape.specs.Shape.{text_end, string_end, root_end, export_end, sized_end, field_end, item_end, items_end, counted_end, closure_end};

use sizes::{HASH, Size};
use wire::{number_at, span, span_end};

// What stands after a count: an enum and no closures, since the definition of the shape names each kind.
#[derive(Clone, Copy, Debug, PartialEq, Eq)]
pub enum Kind {
    Text,
    Root,
    Export,
    Field,
}

// n bytes of UTF-8.
#[tactic(auto, unfolding(crate::specs::Shape::text_end))]
fn text_end(s: &[u8], at: usize, n: usize) -> Option<usize>
    ensures { result ≡ text_end s.now at n }
{
    let end = span_end(s, at, n)?;
    utf8::check(span(s, at, n)).ok()?;
    Some(end)
}

// A string: a u32 byte length and that many bytes of UTF-8.
#[tactic(auto, unfolding(crate::specs::Shape::string_end))]
fn string_end(s: &[u8], at: usize) -> Option<usize>
    ensures { result ≡ string_end s.now at }
{
    let n = number_at::<4>(s, at)?;
    text_end(s, at + 4, n as usize)
}

// A root: 32 raw hash bytes and a role string.
#[tactic(auto, unfolding(crate::specs::Shape::root_end))]
fn root_end(s: &[u8], at: usize) -> Option<usize>
    ensures { result ≡ root_end s.now at }
{
    let role = span_end(s, at, HASH)?;
    string_end(s, role)
}

// An export: a name string, 32 raw hash bytes, a kind string, an abi string.
#[tactic(auto, unfolding(crate::specs::Shape::export_end))]
fn export_end(s: &[u8], at: usize) -> Option<usize>
    ensures { result ≡ export_end s.now at }
{
    let hash = string_end(s, at)?;
    let abi = root_end(s, hash)?;
    string_end(s, abi)
}

// A u32 length and that many bytes.
#[tactic(auto, unfolding(crate::specs::Shape::sized_end))]
pub fn sized_end(s: &[u8], at: usize) -> Option<usize>
    ensures { result ≡ sized_end s.now at }
{
    let n = number_at::<4>(s, at)?;
    span_end(s, at + 4, n as usize)
}

// A field: a u16 tag, a u32 length, that many bytes.
#[tactic(auto, unfolding(crate::specs::Shape::field_end))]
fn field_end(s: &[u8], at: usize) -> Option<usize>
    ensures { result ≡ field_end s.now at }
{
    let length = span_end(s, at, 2)?;
    sized_end(s, length)
}

#[tactic(auto, unfolding(crate::specs::Shape::item_end))]
fn item_end(s: &[u8], kind: Kind, at: usize) -> Option<usize>
    ensures { result ≡ item_end s.now kind at }
{
    match kind {
        Kind::Text => string_end(s, at),
        Kind::Root => root_end(s, at),
        Kind::Export => export_end(s, at),
        Kind::Field => field_end(s, at),
    }
}

// n items, one after the other. A loop, since it is asked for where the last one ends.
#[tactic(auto, unfolding(crate::specs::Shape::items_end))]
pub(crate) fn items_end(s: &[u8], kind: Kind, n: u64, at: usize) -> Option<usize>
    ensures { result ≡ items_end s.now kind n at }
{
    let mut end = at;
    for _ in 0..n {
        end = item_end(s, kind, end)?;
    }
    Some(end)
}

// A u32 count within its size, and as many items.
#[tactic(auto, unfolding(crate::specs::Shape::counted_end))]
pub(crate) fn counted_end(s: &[u8], kind: Kind, size: Size, at: usize) -> Option<usize>
    ensures { result ≡ counted_end s.now kind size at }
{
    let n = number_at::<4>(s, at)?;
    if !size.allows(n) {
        return None;
    }
    items_end(s, kind, n, at + 4)
}

// One closure byte, 0 complete, 1 partial.
#[tactic(auto, unfolding(crate::specs::Shape::closure_end))]
pub(crate) fn closure_end(s: &[u8], at: usize) -> Option<usize>
    ensures { result ≡ closure_end s.now at }
{
    let b = number_at::<1>(s, at)?;
    if b <= 1 { Some(at + 1) } else { None }
}
