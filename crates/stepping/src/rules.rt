// The seven rules on slots, each carried out at once.
ghost use Rattle.std.specs.Prelude.{◌≡◌, List, ℕ};
ghost use Rattle.stepping.specs.Rules.{Make, Push, on_argument, on_fork};
ghost use Rattle.stepping.specs.Step.{at, carry};
ghost use Rattle.stepping.specs.Ready.{Runnable, Carries};

use crate::stops::Stop;
use crate::{State, Turn, going, meet};
use frames::{Frame, frame_room, put_frame};
use table::slots::{Node, Slot, node_at, put_node, room};

// Rules 1 and 2: a new node meets the newest frame.
#[tactic(auto, using(crate::proofs::Keeps::waits_more, table::proofs::SlotLaws::room_most), unfolding(crate::specs::Step::carry))]
pub(crate) fn make(words: &mut [u32], jobs: &mut [u32], s: State, node: Node) -> Turn
    requires { Carries jobs.old s (Make node) }
    ensures { at words.new jobs.new result
        ≡ carry words.old jobs.old s (Make node) }
{
    let used = s.used;
    if used < room(words) {
        put_node(words, Slot(used as usize), node);
        meet(jobs, Slot(used as usize), used + 1, s.waiting)
    } else {
        Turn::Stopped(Stop::OutOfSlots)
    }
}

// Rules 4 and 7: an application, while a frame waits. Every word table stays as it is.
#[tactic(auto, using(crate::proofs::Keeps::names_more), unfolding(crate::specs::Step::carry))]
fn push(jobs: &mut [u32], s: State, f: Slot, x: Slot, frame: Frame) -> Turn
    requires { Carries jobs.old s (Push f x frame) }
    ensures { (w : List ℕ) → at w jobs.new result ≡ carry w jobs.old s (Push f x frame) }
{
    let waiting = s.waiting;
    if waiting < frame_room(jobs) {
        put_frame(jobs, waiting, frame);
        going(f, x, s.used, waiting + 1)
    } else {
        Turn::Stopped(Stop::OutOfPlaces)
    }
}

// Rules 5 to 7: f is a fork of a fork of a and b, and of c.
#[tactic(auto, unfolding(crate::specs::Rules::on_argument, crate::specs::Step::carry))]
fn on_argument(jobs: &mut [u32], s: State, a: Slot, b: Slot, c: Slot, x: Node) -> Turn
    requires { Carries jobs.old s (on_argument a b c x) }
    ensures { (w : List ℕ) → at w jobs.new result ≡ carry w jobs.old s (on_argument a b c x) }
{
    match x {
        Node::Leaf => meet(jobs, a, s.used, s.waiting),
        Node::Stem(u) => going(b, u, s.used, s.waiting),
        Node::Fork(u, v) => push(jobs, s, c, u, Frame::Argument(v)),
    }
}

// Rules 3 to 7: f is a fork of g and c.
#[tactic(auto, unfolding(crate::specs::Rules::on_fork, crate::specs::Step::carry))]
pub(crate) fn on_fork(words: &[u32], jobs: &mut [u32], s: State, g: Node, c: Slot) -> Turn
    requires { Runnable words.now s × Carries jobs.old s (on_fork words.now g c s.x) }
    ensures { at words.now jobs.new result
        ≡ carry words.now jobs.old s (on_fork words.now g c s.x) }
{
    match g {
        Node::Leaf => meet(jobs, c, s.used, s.waiting),
        Node::Stem(a) => push(jobs, s, a, s.x, Frame::Operand(c, s.x)),
        Node::Fork(a, b) => on_argument(jobs, s, a, b, c, node_at(words, s.x)),
    }
}
