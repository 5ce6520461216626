// One step of a run: a rule, and the meeting of its tree with the newest frame. Both tables stay the slices that C lends: a struct of
// the two would say no more of them than `Runnable`, `Waits` and `Carries` do.
#![tactic(auto)]

ghost use Rattle.std.specs.Prelude.{◌≡◌, ◌≤◌, ◌<◌};
ghost use Rattle.table.specs.Limits.{max_slots};
ghost use Rattle.stepping.specs.Step.{going, met, meet, at, step};
ghost use Rattle.stepping.specs.Ready.{Runnable, Waits};

use crate::rules::{make, on_fork};
use crate::stops::Stop;
use frames::{Frame, drop_frame, frame_at, put_frame};
use table::slots::{Node, Slot, node_at};

mod rules;
pub mod stops;

// Slot f is to be applied to slot x; so many slots are used, and so many frames wait. In this order, so that in a `Turn` no field
// of another width lies where x does: x then keeps a register of its own in the run's loop.
#[derive(Clone, Copy, Debug, PartialEq, Eq)]
pub struct State {
    pub f: Slot,
    pub used: u32,
    pub x: Slot,
    pub waiting: u32,
}

// What a step came to.
#[derive(Clone, Copy, Debug, PartialEq, Eq)]
pub enum Turn {
    // The run goes on with an application.
    Going(State),
    // It is done, with a slot and so many used.
    Done { slot: Slot, used: u32 },
    // There is no slot or no place for what the rule asks for.
    Stopped(Stop),
}

// The run goes on with slot f applied to slot x.
fn going(f: Slot, x: Slot, used: u32, waiting: u32) -> Turn
    ensures { result ≡ going f x used waiting }
{
    Turn::Going(State {
        f,
        x,
        used,
        waiting,
    })
}

// The tree in slot t meets the newest frame.
#[tactic(auto, using(crate::proofs::StepWays::meet_none, crate::proofs::StepWays::meet_newest), unfolding(crate::specs::Step::meet_frame))]
pub(crate) fn meet(jobs: &mut [u32], t: Slot, used: u32, waiting: u32) -> Turn
    requires { Waits jobs.old used waiting × (t.0 < used) × (used ≤ max_slots) }
    ensures { met jobs.new result ≡ meet jobs.old t used waiting }
{
    if waiting == 0 {
        return Turn::Done { slot: t, used };
    }
    let k = waiting - 1;
    match frame_at(jobs, k) {
        Frame::Operand(b, x) => {
            put_frame(jobs, k, Frame::Function(t));
            going(b, x, used, waiting)
        }
        Frame::Argument(v) => {
            drop_frame(jobs, k);
            going(t, v, used, k)
        }
        Frame::Function(w) => {
            drop_frame(jobs, k);
            going(w, t, used, k)
        }
    }
}

// The body of the run's loop: rules 1 and 2, or the rest by what the fork's first child is.
#[tactic(auto, using(crate::proofs::Keeps::children), unfolding(crate::specs::Step::step, crate::specs::Rules::slot_rule, crate::specs::Rules::on_function))]
pub fn step(words: &mut [u32], jobs: &mut [u32], s: State) -> Turn
    requires { Runnable words.old s × Waits jobs.old s.used s.waiting }
    ensures { at words.new jobs.new result ≡ step words.old jobs.old s }
{
    match node_at(words, s.f) {
        Node::Leaf => make(words, jobs, s, Node::Stem(s.x)),
        Node::Stem(a) => make(words, jobs, s, Node::Fork(a, s.x)),
        Node::Fork(g, c) => on_fork(words, jobs, s, node_at(words, g), c),
    }
}
