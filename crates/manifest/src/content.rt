// What stands in a manifest, as parts of the section.
ghost use Rattle.std.specs.Prelude.{◌≡◌};
ghost use Rattle.manifest.specs.Content.{root_past, export_past, text_at, hash_at, count_at};

use manifest_shape::parts::sized_end;
use sizes::HASH;
use wire::{number_at, or_zero, span, span_end};

// After the root at a position, by its lengths alone: its text was judged once, by the shape (12), and is not judged again.
#[tactic(auto, unfolding(crate::specs::Content::root_past))]
pub fn root_past(s: &[u8], at: usize) -> Option<usize>
    ensures { result ≡ root_past s.now at }
{
    let role = span_end(s, at, HASH)?;
    sized_end(s, role)
}

// After the export at a position, by its lengths alone.
#[tactic(auto, unfolding(crate::specs::Content::export_past))]
pub fn export_past(s: &[u8], at: usize) -> Option<usize>
    ensures { result ≡ export_past s.now at }
{
    let hash = sized_end(s, at)?;
    let abi = root_past(s, hash)?;
    sized_end(s, abi)
}

// The text of the string that stands at a position.
#[tactic(auto, unfolding(crate::specs::Content::text_at))]
pub(crate) fn text_at(s: &[u8], p: Option<usize>) -> &[u8]
    ensures { result.now ≡ text_at s.now p }
{
    if let Some(at) = p
        && let Some(n) = number_at::<4>(s, at)
    {
        return span(s, at + 4, n as usize);
    }
    &s[..0]
}

// The bytes of a hash that stand at a position.
#[tactic(auto, unfolding(crate::specs::Content::hash_at))]
pub fn hash_at(s: &[u8], p: Option<usize>) -> &[u8]
    ensures { result.now ≡ hash_at s.now p }
{
    p.map_or(&s[..0], |at| span(s, at, HASH))
}

// The count that stands at a position.
#[tactic(auto, unfolding(crate::specs::Content::count_at))]
pub fn count_at(s: &[u8], at: usize) -> u64
    ensures { result ≡ count_at s.now at }
{
    or_zero(number_at::<4>(s, at))
}
