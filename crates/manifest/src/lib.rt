// What stands in a manifest: its strings, its exports; what is refused of it (13 and 14).
#![tactic(auto)]

ghost use Rattle.std.specs.Prelude.{◌≡◌};
ghost use Rattle.manifest.specs.Judged.{unsupported_at, misnamed_at};

use crate::content::count_at;
use crate::exports::{ExportFault, some_export};
use crate::strings::strings_agree;
use manifest_shape::Layout;
use sizes::Size;
use wire::{number_at, or_zero};

pub mod content;
pub mod exports;
pub mod listed;
pub mod strings;

// 13: a fixed string or export abi differs, a capability is listed, or closure is 1.
#[tactic(auto, unfolding(crate::specs::Judged::unsupported_at, lists::specs::Lists::any_of))]
pub fn unsupported(s: &[u8], l: Layout) -> bool
    ensures { result ≡ unsupported_at s.now l }
{
    !strings_agree(s, l.strings)
        || some_export(s, ExportFault::Abi, l.exports)
        || !Size::CAPABILITIES.allows(count_at(s, l.capabilities))
        || or_zero(number_at::<1>(s, l.closure)) == 1
}

// 14: an export name is empty, over 64 bytes, or used twice.
#[tactic(auto, unfolding(crate::specs::Judged::misnamed_at, lists::specs::Lists::any_of))]
pub fn misnamed(s: &[u8], l: Layout) -> bool
    ensures { result ≡ misnamed_at s.now l }
{
    some_export(s, ExportFault::NameSize, l.exports)
        || some_export(s, ExportFault::NameTwice, l.exports)
}
