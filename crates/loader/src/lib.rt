// The load call: checks a bundle, writes its nodes in their slots and the slots of its exports.
#![tactic(auto)]

ghost use Rattle.std.specs.Prelude.{◌≡◌, Ok};
ghost use Rattle.refusals.specs.Refusals.{answer};
ghost use Rattle.refusals.specs.Numbers.{by_number, answer_of};
ghost use Rattle.nodes.specs.Records.{nodes_of};
ghost use Rattle.manifest.specs.Judged.{exports_of};
ghost use Rattle.loader.specs.Load.{records_in, exports_in, loaded, accept, load};
ghost use Rattle.loader.specs.Admit.{start_of, fit_checks, admitted};
ghost use Rattle.loader.specs.Ready.{Vetted, Writable};

use bundle::{Outline, check_and_place};
use nodes::links::{LINK_WORDS, SLOT_WORDS};
use nodes::records::count;
use refusals::Refusal;
use table::base::base_of;
use table::slots::room;
use unpacking::exports::{ExportList, list_exports, put_exports};
use unpacking::records::put_records;

// What an accepted bundle has: so many nodes, each in a slot, and so many exports.
#[derive(Clone, Copy, Debug, PartialEq, Eq)]
pub struct Accepted {
    pub nodes: u32,
    pub exports: u32,
}

// Where our part of a table of so many words starts. A base outside the table leaves it no words, so that no bundle fits.
fn start(base: i32, len: usize) -> usize
    ensures { result ≡ start_of base len }
{
    base_of(base, len).unwrap_or(len)
}

// 21 and 22, of a bundle with so many nodes and exports: room for fewer nodes, or fewer words for exports.
fn check_fit(most: u32, space: usize, nodes: u64, exports: u64) -> Result<(), Refusal>
    ensures { answer_of result ≡ answer (fit_checks most space nodes exports) }
{
    if (most as u64) < nodes {
        return Err(Refusal::NoRoom);
    }
    if (space as u64) < exports {
        return Err(Refusal::ExportsTooShort);
    }
    Ok(())
}

// Writes what an accepted bundle has: the records of its nodes section s, and the slots of the exports in its manifest section m.
fn write(
    m: &[u8],
    asked: ExportList,
    s: &[u8],
    links: &[u32],
    slots: &[u32],
    words: &mut [u32],
    exports: &mut [u32],
) -> Accepted
    requires { Writable m.now asked s.now links.now slots.now words.old exports.old }
    ensures { loaded words.new exports.new (Ok result)
        ≡ accept (nodes_of s.now) (exports_of m.now) words.old exports.old }
{
    put_records(s, links, slots, words);
    put_exports(m, asked.count as usize, asked.at, s, slots, exports);
    Accepted {
        nodes: count(s) as u32,
        exports: asked.count as u32,
    }
}

// Writes a bundle that 1 to 20 let pass, where 21 and 22 let it pass, too.
fn admit(
    file: &[u8],
    c: Outline,
    links: &[u32],
    slots: &[u32],
    words: &mut [u32],
    exports: &mut [u32],
) -> Result<Accepted, Refusal>
    requires { Vetted file.now c links.now slots.now }
    ensures { loaded words.new exports.new (by_number result)
        ≡ admitted (records_in file.now) (exports_in file.now) words.old exports.old }
{
    let manifest = c.manifest;
    let nodes = c.nodes;
    let m = manifest.of(file);
    let s = nodes.of(file);
    let asked = list_exports(m, c.layout);
    check_fit(room(words), exports.len(), count(s), asked.count)?;
    Ok(write(m, asked, s, links, slots, words, exports))
}

// Loads the bundle into the table that starts at word base, and the slots of its exports into the export table. Refused by 1 to 22,
// which changes nothing; specs/Answer.antt gives the paper's numbers for each case. Links and slots are two arrays on the stack, since
// the library has no heap.
pub fn load(
    file: &[u8],
    words: &mut [u32],
    base: i32,
    exports: &mut [u32],
) -> Result<Accepted, Refusal>
    ensures { loaded words.new exports.new (by_number result)
        ≡ load file.now words.old base exports.old }
{
    let mut links: [u32; LINK_WORDS] = [0; LINK_WORDS];
    let mut slots: [u32; SLOT_WORDS] = [0; SLOT_WORDS];
    let c = check_and_place(file, &mut links, &mut slots)?;
    let at = start(base, words.len());
    admit(file, c, &links, &slots, &mut words[at..], exports)
}
