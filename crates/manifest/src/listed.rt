// Where the roots and the exports of a manifest stand, one after the other.
ghost use Rattle.std.specs.Prelude.{◌≡◌};
ghost use Rattle.std.specs.Iterator.{YieldsFirst, item_count};
ghost use Rattle.manifest.specs.Content.{reference_end, reference_hash, places_at, left_places};

use crate::content::{export_past, hash_at, root_past};
use manifest_shape::parts::sized_end;
use wire::number_at;

// What names a hash: an enum and no closures, since definitions and promises name both kinds.
#[derive(Clone, Copy, Debug, PartialEq, Eq)]
pub enum Reference {
    Root,
    Export,
}

// Where the root or export at a position ends.
#[tactic(auto, unfolding(crate::specs::Content::reference_end))]
pub fn reference_end(m: &[u8], kind: Reference, at: usize) -> Option<usize>
    ensures { result ≡ reference_end m.now kind at }
{
    match kind {
        Reference::Root => root_past(m, at),
        Reference::Export => export_past(m, at),
    }
}

// The hash that it names.
#[tactic(auto, unfolding(crate::specs::Content::reference_hash))]
pub fn reference_hash(m: &[u8], kind: Reference, at: usize) -> &[u8]
    ensures { result.now ≡ reference_hash m.now kind at }
{
    match kind {
        Reference::Root => hash_at(m, Some(at)),
        Reference::Export => hash_at(m, sized_end(m, at)),
    }
}

// The roots or exports that are left to read, by where each stands.
#[derive(Clone, Copy, Debug)]
pub struct Places<'a> {
    section: &'a [u8],
    kind: Reference,
    left: u64,
    at: usize,
}

impl<'a> Places<'a> {
    // Those after their count at a position; where no count stands, none are left.
    #[tactic(auto, unfolding(crate::specs::Content::places_at, crate::specs::Content::list_from))]
    pub fn after(section: &'a [u8], kind: Reference, at: usize) -> Places<'a>
        ensures { left_places result ≡ places_at section.now kind at }
    {
        let (left, at) = number_at::<4>(section, at).map_or((0, at), |n| (n, at + 4));
        Places {
            section,
            kind,
            left,
            at,
        }
    }
}

impl<'a> Iterator for Places<'a> {
    type Item = usize;

    ghost next_gives = { YieldsFirst left_places };

    ghost remaining = { item_count left_places };

    #[tactic(auto, using(crate::proofs::Lists::walking))]
    fn next(&mut self) -> Option<usize> {
        self.left = self.left.checked_sub(1)?;
        let at = self.at;
        self.at = reference_end(self.section, self.kind, at)?;
        Some(at)
    }
}
