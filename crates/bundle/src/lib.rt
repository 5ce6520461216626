// Checks a bundle: the refusals 1 to 20 of document 01, in their order, and the two calls on exports.
#![tactic(auto)]

ghost use Rattle.std.specs.Prelude.{◌≡◌, true, Some, OnOk};
ghost use Rattle.refusals.specs.Refusals.{answer};
ghost use Rattle.refusals.specs.Numbers.{by_number, answer_of};
ghost use Rattle.manifest_shape.specs.Shape.{manifest_of};
ghost use Rattle.nodes.specs.Records.{nodes_of, shaped};
ghost use Rattle.nodes.specs.Links.{Scratch, PlacedTables};
ghost use Rattle.container.specs.Directory.{nodes_section};
ghost use Rattle.bundle.specs.Checks.{node_checks, refusal};
ghost use Rattle.bundle.specs.Verdict.{checked_manifest, described, judged};

use container::locate;
use manifest_shape::Layout;
use nodes::faults::RecordFault;
use nodes::links::{LINK_WORDS, SLOT_WORDS};
use nodes::starts::{Records, START_WORDS};
use references::unresolved;
use refusals::Refusal;
use wire::Part;

pub mod exports;

// What 1 to 14 find: where the two sections lie in the file, and where the parts of the manifest start in its section. The two parts of
// `Sections` stand here themselves: each is used apart from the other.
#[derive(Clone, Copy, Debug, PartialEq, Eq)]
pub struct Outline {
    pub manifest: Part,
    pub nodes: Part,
    pub layout: Layout,
}

// 12 to 14, of a manifest section.
fn check_manifest(m: &[u8]) -> Result<Layout, Refusal>
    ensures { by_number result ≡ checked_manifest m.now }
{
    let Some(l) = manifest_shape::read(m) else {
        return Err(Refusal::ManifestShape);
    };
    if manifest::unsupported(m, l) {
        return Err(Refusal::Unsupported);
    }
    if manifest::misnamed(m, l) {
        return Err(Refusal::ExportNames);
    }
    Ok(l)
}

// 16 to 20, of a nodes section that has the stated shape: the tests of its records, and of what names them.
fn check_records(
    m: &[u8],
    l: Layout,
    records: &Records<'_>,
    links: &mut [u32],
    slots: &mut [u32],
) -> Result<(), Refusal>
    requires { (manifest_of m.now ≡ Some l) × (shaped records.now.section.now ≡ true)
        × Scratch links.old slots.old }
    ensures answer { answer_of result ≡ answer (node_checks m.now records.now.section.now) }
    ensures placed { OnOk result (PlacedTables (nodes_of records.now.section.now) links.new slots.new) }
{
    if records.some_record(RecordFault::Hash) {
        return Err(Refusal::HashWrong);
    }
    if records.some_record(RecordFault::Twice) {
        return Err(Refusal::HashTwice);
    }
    if records.some_record(RecordFault::Child) {
        return Err(Refusal::ChildMissing);
    }
    if records.circular(links, slots) {
        return Err(Refusal::Circle);
    }
    if unresolved(m, l, records.section) {
        return Err(Refusal::HashUnresolved);
    }
    Ok(())
}

// 15 to 20, of a manifest section with its layout and a nodes section. Where none holds, it leaves the links of the records and
// their slots. A section and its layout stay two values: each caller has the one as a part of a file and the other in an `Outline`,
// and would show for the struct of both what it shows here.
fn check_nodes(
    m: &[u8],
    l: Layout,
    s: &[u8],
    links: &mut [u32],
    slots: &mut [u32],
) -> Result<(), Refusal>
    requires { (manifest_of m.now ≡ Some l) × Scratch links.old slots.old }
    ensures answer { answer_of result ≡ answer (node_checks m.now s.now) }
    ensures placed { OnOk result (PlacedTables (nodes_of s.now) links.new slots.new) }
{
    if !nodes::records::shaped(s) {
        return Err(Refusal::NodesShape);
    }
    let mut starts: [u32; START_WORDS] = [0; START_WORDS];
    nodes::starts::fill_starts(s, nodes::records::count(s), &mut starts);
    check_records(m, l, &Records::new(s, &starts), links, slots)
}

// 1 to 14, or what the file has.
pub fn describe(file: &[u8]) -> Result<Outline, Refusal>
    ensures { by_number result ≡ described file.now }
{
    let s = locate(file)?;
    let manifest = s.manifest;
    let nodes = s.nodes;
    let layout = check_manifest(manifest.of(file))?;
    Ok(Outline {
        manifest,
        nodes,
        layout,
    })
}

// 1 to 20, and for a sound bundle the links of its records and their slots, which the load writes from. The two tables stay two
// parameters: a struct of them would say no more than `Scratch` does.
pub fn check_and_place(
    file: &[u8],
    links: &mut [u32],
    slots: &mut [u32],
) -> Result<Outline, Refusal>
    requires { Scratch links.old slots.old }
    ensures { (by_number result ≡ judged file.now)
        × (refusal file.now ≡ 0
        → PlacedTables (nodes_of (nodes_section file.now)) links.new slots.new) }
{
    let c = describe(file)?;
    let manifest = c.manifest;
    let nodes = c.nodes;
    check_nodes(manifest.of(file), c.layout, nodes.of(file), links, slots)?;
    Ok(c)
}

// 1 to 20: the first check that holds, or nothing for a sound bundle. Two arrays on the stack, since the library has no heap.
pub fn check(file: &[u8]) -> Result<(), Refusal>
    ensures { answer_of result ≡ refusal file.now }
{
    let mut links: [u32; LINK_WORDS] = [0; LINK_WORDS];
    let mut slots: [u32; SLOT_WORDS] = [0; SLOT_WORDS];
    check_and_place(file, &mut links, &mut slots)?;
    Ok(())
}
