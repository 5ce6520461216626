// Slots of the part of a word table that is ours: their numbers, their nodes, and whether they are sound.
ghost use Rattle.std.specs.Prelude.{◌≡◌, ◌≤◌, ◌<◌, pos, nat_abs};
ghost use Rattle.table.specs.Limits.{max_slots};
ghost use Rattle.table.specs.Slots.{room, is_used, named_slot, put_words, node_at, put_node, Below};
ghost use Rattle.table.specs.Sound.{slot_sound, sound};

use crate::limits::Limit;

// A slot's number, as wide as an index: two narrower ones would share a register in the run's loop.
#[derive(Clone, Copy, Debug, PartialEq, Eq)]
pub struct Slot(pub usize);

// What a slot holds: the slots of a node's children.
#[derive(Clone, Copy, Debug, PartialEq, Eq)]
pub enum Node {
    Leaf,
    Stem(Slot),
    Fork(Slot, Slot),
}

impl Slot {
    // The leaf's slot.
    pub const ZERO: Slot = Slot(0);

    // The words of a slot.
    const WORDS: usize = 2;

    // Whether a number names one of the used slots; a negative one names none. (With try_from a run of few steps is a tenth slower.)
    #[tactic(auto, unfolding(crate::specs::Slots::is_used))]
    pub fn is_used(i: i32, used: u32) -> bool
        ensures { result ≡ is_used i used }
    {
        i >= 0 && (i as u32) < used
    }

    // The slot that a number names. No From, since it asks of its caller that the number is not negative.
    #[tactic(auto, using(crate::proofs::Signed::as_passed, crate::proofs::Signed::cast_natural))]
    pub fn named(i: i32) -> Slot
        requires { i ≡ pos (nat_abs i) }
        ensures { result ≡ named_slot i }
    {
        Slot(i as usize)
    }

    // The number again, as the calls have it. No From, since it asks of its caller that the slot is below the limit; nor does the type
    // say so, since each word that is read as a slot would have to be shown to be below it.
    pub fn number(self) -> i32
        requires { self.0 < max_slots }
        ensures { result ≡ pos self.0 }
    {
        self.0 as i32
    }
}

// How many slots the table has room for. That a slot lies in it is asked where it is read or written: a slot knows no table.
#[tactic(auto, unfolding(crate::specs::Slots::room))]
pub fn room(words: &[u32]) -> u32
    ensures { result ≡ room words.now }
{
    Limit::SLOTS.of(words.len() / Slot::WORDS)
}

// What slot i holds.
#[tactic(auto, using(crate::proofs::SlotWays::node_leaf, crate::proofs::SlotWays::node_stem, crate::proofs::SlotWays::node_fork), unfolding(crate::specs::Slots::room, crate::specs::Slots::first_at, crate::specs::Slots::second_at))]
pub fn node_at(words: &[u32], i: Slot) -> Node
    requires { i.0 < room words.now }
    ensures { result ≡ node_at words.now i.0 }
{
    let at = Slot::WORDS * i.0;
    let first = words[at];
    if first == 0 {
        return Node::Leaf;
    }
    let second = words[at + 1];
    if second == 0 {
        return Node::Stem(Slot(first as usize - 1));
    }
    Node::Fork(Slot(first as usize - 1), Slot(second as usize - 1))
}

// Writes the two words of slot i.
#[tactic(auto, unfolding(crate::specs::Slots::room, crate::specs::Slots::put_words))]
fn put_words(words: &mut [u32], i: Slot, first: u32, second: u32)
    requires { i.0 < room words.old }
    ensures { words.new ≡ put_words words.old i.0 first second }
{
    let at = Slot::WORDS * i.0;
    words[at] = first;
    words[at + 1] = second;
}

// Writes a node whose children have lower slots.
#[tactic(auto, unfolding(crate::specs::Slots::room, crate::specs::Slots::put_node))]
pub fn put_node(words: &mut [u32], i: Slot, n: Node)
    requires { (i.0 < room words.old) × Below i.0 n }
    ensures { words.new ≡ put_node words.old i.0 n }
{
    match n {
        Node::Leaf => put_words(words, i, 0, 0),
        Node::Stem(a) => put_words(words, i, (a.0 + 1) as u32, 0),
        Node::Fork(a, b) => put_words(words, i, (a.0 + 1) as u32, (b.0 + 1) as u32),
    }
}

// Whether slot i may have these words.
#[tactic(auto, using(crate::proofs::SoundTest::slot_tested))]
fn slot_sound(i: u32, first: u32, second: u32) -> bool
    ensures { result ≡ slot_sound i first second }
{
    if i == 0 {
        return first == 0 && second == 0;
    }
    1 <= first && first <= i && second <= i
}

// Whether the first `used` slots are sound.
#[tactic(auto, using(crate::proofs::SoundTest::sound_none, crate::proofs::SoundTest::sound_more, crate::proofs::SoundTest::sound_broken), unfolding(crate::specs::Slots::room, crate::specs::Slots::first_at, crate::specs::Slots::second_at))]
pub fn sound(words: &[u32], used: u32) -> bool
    requires { used ≤ room words.now }
    ensures { result ≡ sound words.now used }
{
    for i in 0..used {
        let at = Slot::WORDS * (i as usize);
        if !slot_sound(i, words[at], words[at + 1]) {
            return false;
        }
    }
    true
}
