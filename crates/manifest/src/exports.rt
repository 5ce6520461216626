// The exports of a manifest: their faults, one by its name, and where one stands.
ghost use Rattle.std.specs.Prelude.{◌≡◌, map};
ghost use Rattle.std.specs.List.{slice_get};
ghost use Rattle.lists.specs.Lists.{index_of};
ghost use Rattle.manifest.specs.Content.{export_at, exports_at, places_at, names, left_places};
ghost use Rattle.manifest.specs.Judged.{export_faulty, some_export};

use crate::content::{root_past, text_at};
use crate::listed::{Places, Reference};
use lists::same_bytes;
use manifest_shape::parts::sized_end;
use sizes::Size;

// What can be wrong with an export: an enum and no closures, since definitions and promises name each fault.
#[derive(Clone, Copy, Debug, PartialEq, Eq)]
pub enum ExportFault {
    Abi,
    NameSize,
    NameTwice,
}

// The index of the first that has the name.
#[tactic(auto, using(crate::proofs::Lists::list_length))]
fn first_named(s: &[u8], name: &[u8], mut places: Places<'_>) -> Option<usize>
    ensures { result ≡ index_of name.now 0 (names (map (export_at s.now) (left_places places.entry))) }
{
    places.position(|p| same_bytes(text_at(s, Some(p)), name))
}

// The abi string of the export at a position.
fn abi_at(s: &[u8], at: usize) -> &[u8]
    ensures { result.now ≡ (export_at s.now at).abi }
{
    text_at(s, sized_end(s, at).and_then(|hash| root_past(s, hash)))
}

// Whether the export at p has the fault; the rest stand after it.
#[tactic(auto, unfolding(crate::specs::Judged::export_faulty))]
fn export_faulty(s: &[u8], fault: ExportFault, p: usize, rest: Places<'_>) -> bool
    ensures { result
        ≡ export_faulty fault (export_at s.now p) (map (export_at s.now) (left_places rest.entry)) }
{
    match fault {
        ExportFault::Abi => !same_bytes(abi_at(s, p), b"arboricx.abi.tree.v1"),
        ExportFault::NameSize => !Size::NAME.allows(text_at(s, Some(p)).len() as u64),
        ExportFault::NameTwice => first_named(s, text_at(s, Some(p)), rest).is_some(),
    }
}

// Whether one of the exports after their count at a position has the fault. A `while let`, since those after each one are looked at, too.
#[tactic(auto, using(crate::proofs::ExportLists::looking))]
pub(crate) fn some_export(s: &[u8], fault: ExportFault, at: usize) -> bool
    ensures { result ≡ some_export fault (exports_at s.now at) }
{
    let mut places = Places::after(s, Reference::Export, at);
    while let Some(p) = places.next() {
        if export_faulty(s, fault, p, places) {
            return true;
        }
    }
    false
}

// The index of the export with the name.
#[tactic(auto, using(crate::proofs::ExportLists::exports_there))]
pub fn find(s: &[u8], name: &[u8], at: usize) -> Option<usize>
    ensures { result ≡ index_of name.now 0 (names (exports_at s.now at)) }
{
    first_named(s, name, Places::after(s, Reference::Export, at))
}

// Where the i-th of the exports after their count at a position stands.
pub fn place_at(s: &[u8], at: usize, i: u64) -> Option<usize>
    ensures { result ≡ slice_get (places_at s.now Reference.Export at) i }
{
    Places::after(s, Reference::Export, at).nth(i as usize)
}
