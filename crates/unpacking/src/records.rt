// Writes the records in their slots.
ghost use Rattle.std.specs.Prelude.{◌≡◌, ◌+◌, ◌*◌, ◌≤◌, ◌<◌, length, get_or};
ghost use Rattle.table.specs.Slots.{room, put_node};
ghost use Rattle.nodes.specs.Records.{nodes_of};
ghost use Rattle.unpacking.specs.Written.{written};
ghost use Rattle.unpacking.specs.Ready.{RecordsReady, PlacedAt, slot_at, linked};

use nodes::records::count;
use table::slots::{Node, Slot, put_node};

// The slot of a placed record.
pub(crate) fn slot_at(slots: &[u32], i: usize) -> Slot
    requires { (i < length slots.now) × (0 < get_or slots.now i 0) }
    ensures { result ≡ slot_at slots.now i }
{
    Slot(slots[i] as usize - 1)
}

// The node of a record, by its two links.
fn node_at(links: &[u32], slots: &[u32], i: usize) -> Node
    requires { PlacedAt links.now slots.now i }
    ensures { result ≡ linked slots.now (get_or links.now (2 * i) 0)
        (get_or links.now (2 * i + 1) 0) }
{
    match (links[2 * i] as usize, links[2 * i + 1] as usize) {
        (0, _) => Node::Leaf,
        (a, 0) => Node::Stem(slot_at(slots, a - 1)),
        (a, b) => Node::Fork(slot_at(slots, a - 1), slot_at(slots, b - 1)),
    }
}

// Writes all records of a section.
pub fn put_records(s: &[u8], links: &[u32], slots: &[u32], words: &mut [u32])
    requires { RecordsReady s.now links.now slots.now × (length (nodes_of s.now) ≤ room words.old) }
    ensures { words.new
        ≡ written (nodes_of s.now) 0 (nodes_of s.now) words.old }
{
    for i in 0..count(s) as usize {
        put_node(words, slot_at(slots, i), node_at(links, slots, i));
    }
}
