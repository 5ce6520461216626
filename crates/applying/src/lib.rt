// One application of the plain engine, by the seven rules: one part applies, the other carries out what the rule left. A job that would
// wait in a table waits on the stack, and is counted.
#![tactic(auto)]

ghost use Rattle.std.specs.Prelude.{◌≡◌, ◌-◌, ◌<◌};
ghost use Rattle.table.specs.Limits.{max_slots};
ghost use Rattle.table.specs.Slots.{room, node_at, Below};
ghost use Rattle.applying.specs.Rules.{rule};
ghost use Rattle.applying.specs.Apply.{came, spend, grow, make, carry_out, apply, by_fuel};
ghost use Rattle.applying.specs.Fit.{Fit, Able};

use stepping::stops::Stop;
use table::slots::{Node, Slot, node_at, put_node, room};

// What a rule leaves to be done: an enum and no closures, since the definition of the rules names each.
#[derive(Clone, Copy)]
pub enum Task {
    // 1 and 2: make a node.
    Make(Node),
    // 3 and 5: give a tree that is there.
    Give(Slot),
    // 6: apply the first to the second.
    Go(Slot, Slot),
    // 4: apply the first to the third, then the second to the third, then the one result to the other.
    Both(Slot, Slot, Slot),
    // 7: apply the first to the second, then the result to the third.
    Then(Slot, Slot, Slot),
}

// How far it has come: the fuel left, and the slots used. Not copied: fuel is spent once.
#[derive(Drop)]
pub struct Progress {
    pub left: u32,
    pub used: u32,
}

// Why an application stops before it gives a tree, and how far it has come.
#[derive(Drop)]
pub struct Halt {
    pub why: Stop,
    pub at: Progress,
}

impl Progress {
    // The most fuel, and the most places for jobs, for the stack's sake: each step may go a level deeper.
    pub const MOST: u32 = 1000;

    // A step more.
    fn spend(self) -> Progress
        requires { 0 < self.left }
        ensures { result ≡ spend self }
    {
        Progress {
            left: self.left - 1,
            used: self.used,
        }
    }

    // A slot more.
    fn grow(self) -> Progress
        requires { self.used < max_slots }
        ensures { result ≡ grow self }
    {
        Progress {
            left: self.left,
            used: self.used + 1,
        }
    }
}

// What applying f to x leaves to be done: the seven rules, in their order. They stand here again, since this engine is there to be
// compared with the run call.
#[tactic(auto, unfolding(crate::specs::Rules::rule, crate::specs::Rules::rules))]
fn rule(words: &[u32], f: Slot, x: Slot) -> Task
    requires { (f.0 < room words.now) × (x.0 < room words.now) × Below (room words.now) (node_at words.now f.0) }
    ensures { result ≡ rule words.now f x }
{
    match node_at(words, f) {
        Node::Leaf => Task::Make(Node::Stem(x)),
        Node::Stem(a) => Task::Make(Node::Fork(a, x)),
        Node::Fork(g, c) => match node_at(words, g) {
            Node::Leaf => Task::Give(c),
            Node::Stem(a) => Task::Both(a, c, x),
            Node::Fork(a, b) => match node_at(words, x) {
                Node::Leaf => Task::Give(a),
                Node::Stem(u) => Task::Go(b, u),
                Node::Fork(u, v) => Task::Then(c, u, v),
            },
        },
    }
}

// Rules 1 and 2: a new node takes the next slot.
#[tactic(auto, using(table::proofs::SlotLaws::room_most), unfolding(crate::specs::Apply::make))]
fn make(words: &mut [u32], node: Node, p: Progress) -> Result<(Slot, Progress), Halt>
    requires { (0 < p.left) × Below p.used node }
    ensures { came words.new result ≡ make words.old p node }
{
    let used = p.used;
    if used < room(words) {
        put_node(words, Slot(used as usize), node);
        Ok((Slot(used as usize), p.spend().grow()))
    } else {
        Err(Halt {
            why: Stop::OutOfSlots,
            at: p,
        })
    }
}

// Applies slot f to slot x, while so many jobs wait.
#[tactic(auto, using(crate::proofs::Ways::returns_none, crate::proofs::Ways::returns_some, crate::proofs::Ways::reads_rule, crate::proofs::Ways::rule_able))]
#[cycle(apply_carry_out)]
pub fn apply(
    words: &mut [u32],
    f: Slot,
    x: Slot,
    p: Progress,
    waiting: u32,
    places: u32,
) -> Result<(Slot, Progress), Halt>
    requires { Fit words.old f x p }
    ensures { came words.new result ≡ apply p.left places waiting words.old f x p }
{
    if p.left == 0 {
        return Err(Halt {
            why: Stop::OutOfFuel,
            at: p,
        });
    }
    carry_out(words, rule(words, f, x), p, waiting, places)
}

// Carries out what the rule left: the paper's "continue", which is a keyword here.
#[tactic(auto, using(crate::proofs::Ways::then_gave, crate::proofs::Ways::then_halted), unfolding(crate::specs::Apply::carry_out))]
#[cycle(apply_carry_out)]
fn carry_out(
    words: &mut [u32],
    task: Task,
    p: Progress,
    waiting: u32,
    places: u32,
) -> Result<(Slot, Progress), Halt>
    requires { Able words.old task p }
    ensures { came words.new result ≡ carry_out (by_fuel places) places waiting words.old p task }
{
    match task {
        Task::Make(node) => make(words, node, p),
        Task::Give(t) => Ok((t, p.spend())),
        Task::Go(f, x) => apply(words, f, x, p.spend(), waiting, places),
        Task::Both(a, b, x) => {
            if places <= waiting {
                return Err(Halt {
                    why: Stop::OutOfPlaces,
                    at: p,
                });
            }
            let (u, q) = apply(words, a, x, p.spend(), waiting + 1, places)?;
            let (v, r) = apply(words, b, x, q, waiting + 1, places)?;
            apply(words, u, v, r, waiting, places)
        }
        Task::Then(c, u, v) => {
            if places <= waiting {
                return Err(Halt {
                    why: Stop::OutOfPlaces,
                    at: p,
                });
            }
            let (t, q) = apply(words, c, u, p.spend(), waiting + 1, places)?;
            apply(words, t, v, q, waiting, places)
        }
    }
}
