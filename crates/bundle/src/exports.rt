// The two calls on exports: name by index, index by name.
ghost use Rattle.std.specs.Prelude.{◌≡◌, Some, Ok};
ghost use Rattle.refusals.specs.Numbers.{by_number};
ghost use Rattle.manifest_shape.specs.Shape.{manifest_of};
ghost use Rattle.manifest.specs.Judged.{export_place};
ghost use Rattle.container.specs.Directory.{manifest_section};
ghost use Rattle.bundle.specs.Verdict.{described};
ghost use Rattle.bundle.specs.Exports.{name_at, index_asked, name_part, name_call, index_call};

use crate::{Outline, describe};
use manifest::content::count_at;
use manifest::exports::{find, place_at};
use manifest_shape::Layout;
use refusals::Refusal;
use wire::Part;

// No name.
const EMPTY: Part = Part { start: 0, size: 0 };

// The part of the file that is the name of the export with an index; the empty part if there is no such index. What the file
// has is known.
pub fn name_of(file: &[u8], c: Outline, index: u32) -> Part
    requires { described file.now ≡ Ok c }
    ensures { result ≡ name_at file.now (export_place (manifest_section file.now) index) }
{
    let manifest = c.manifest;
    let layout = c.layout;
    let m = manifest.of(file);
    match place_at(m, layout.exports, index as u64) {
        Some(at) => Part {
            start: manifest.start + (at + 4),
            size: count_at(m, at) as usize,
        },
        None => EMPTY,
    }
}

// The part of the file that is the name of the export with an index; the empty part if any of 1 to 14 holds or there is no
// such index.
pub fn name_part(file: &[u8], index: u32) -> Part
    ensures { result ≡ name_part file.now index }
{
    match describe(file) {
        Ok(c) => name_of(file, c, index),
        Err(_) => EMPTY,
    }
}

// The same part, as a slice of the file.
#[tactic(auto, unfolding(crate::specs::Exports::name_call))]
pub fn export_name(file: &[u8], index: u32) -> &[u8]
    ensures { result.now ≡ name_call file.now index }
{
    name_part(file, index).of(file)
}

// The index that a name means in a manifest section with its layout; the empty name is the first export's.
fn index_asked(m: &[u8], l: Layout, name: &[u8]) -> Option<usize>
    requires { manifest_of m.now ≡ Some l }
    ensures { result ≡ index_asked m.now name.now }
{
    if name.len() == 0 {
        return Some(0);
    }
    find(m, name, l.exports)
}

// The index of the export with a name. Refused by 1 to 14, or 25.
pub fn export_index(file: &[u8], name: &[u8]) -> Result<usize, Refusal>
    ensures { by_number result ≡ index_call file.now name.now }
{
    let c = describe(file)?;
    let manifest = c.manifest;
    index_asked(manifest.of(file), c.layout, name).ok_or(Refusal::NoExport)
}
