// What document 01's program writes: the answer of a load, and the exports of an accepted bundle.
#![tactic(auto)]

ghost use Rattle.std.specs.Prelude.{◌≡◌, ◌≤◌, length, take, drop};
ghost use Rattle.listing.specs.Listing.{listing};

use report::{put_accepted, put_refused};

// The words of a table with room for the nodes of any bundle, and of one for the slots of its exports. Fixed tables, as C lends them to
// a load: the library has no heap.
const NODE_WORDS: usize = 1024;

const EXPORT_WORDS: usize = 32;
// Bytes enough for the text of any input.
pub const TEXT_BYTES: usize = 4096;

// Puts the text for an input at the start of out, and answers how many bytes it has. The bytes after it stay.
pub fn list(input: &[u8], out: &mut [u8; TEXT_BYTES]) -> usize
    ensures { (result ≤ length out.new) × (take result out.new ≡ listing input.now)
        × (drop result out.new ≡ drop result out.old) }
{
    let mut words: [u32; NODE_WORDS] = [0; NODE_WORDS];
    let mut slots: [u32; EXPORT_WORDS] = [0; EXPORT_WORDS];
    match loader::load(input, &mut words, 0, &mut slots) {
        Ok(found) => put_accepted(input, found.nodes, &slots, found.exports, out),
        Err(refused) => put_refused(out, u32::from(refused)),
    }
}
