// What refuses a run on our part of the table: one test for each row of specs/Admission.antt.
ghost use Rattle.std.specs.Prelude.{◌≡◌, ◌≤◌};
ghost use Rattle.refusals.specs.Numbers.{answer_of};
ghost use Rattle.refusals.specs.Refusals.{answer};
ghost use Rattle.table.specs.Slots.{room};
ghost use Rattle.engine.specs.Admission.{out_of_room, dangling, unsound, slot_rows};
ghost use Rattle.engine.specs.Admission.{frames_unsound, steps_overflow, stop_rows, run_rows};

use crate::{From, Request};
use frames::frames_sound;
use fuel::Fuel;
use refusals::Refusal;
use table::slots::{Slot, room, sound};

// Whether no slot is used, or more than there is room for.
#[tactic(auto, unfolding(crate::specs::Admission::out_of_room, lists::specs::Lists::any_of))]
fn out_of_room(words: &[u32], used: u32) -> bool
    ensures { result ≡ out_of_room words.now used }
{
    used == 0 || room(words) < used
}

// Whether f or x is no used slot.
#[tactic(auto, unfolding(crate::specs::Admission::dangling, lists::specs::Lists::any_of))]
fn dangling(f: i32, x: i32, used: u32) -> bool
    ensures { result ≡ dangling f x used }
{
    !Slot::is_used(f, used) || !Slot::is_used(x, used)
}

// Whether the used slots are damaged.
#[tactic(auto, unfolding(crate::specs::Admission::unsound))]
fn unsound(words: &[u32], used: u32) -> bool
    requires { used ≤ room words.now }
    ensures { result ≡ unsound words.now used }
{
    !sound(words, used)
}

// 21, 23 and 24, in that order.
#[tactic(auto, unfolding(crate::specs::Admission::out_of_room, lists::specs::Lists::any_of, crate::specs::Admission::slot_rows, refusals::specs::Refusals::answer))]
pub fn slot_refusal(words: &[u32], f: i32, x: i32, used: u32) -> Result<(), Refusal>
    ensures { answer_of result ≡ answer (slot_rows words.now f x used) }
{
    if out_of_room(words, used) {
        return Err(Refusal::NoRoom);
    }
    if dangling(f, x, used) {
        return Err(Refusal::NoSlot);
    }
    if unsound(words, used) {
        return Err(Refusal::Damaged);
    }
    Ok(())
}

// Whether the waiting frames are damaged, or a word above them is not 0.
#[tactic(auto, unfolding(crate::specs::Admission::frames_unsound))]
fn frames_unsound(jobs: &[u32], used: u32, waiting: u32) -> bool
    ensures { result ≡ frames_unsound jobs.now used waiting }
{
    !frames_sound(jobs, used, waiting)
}

// Whether earlier steps and fuel are more than an answer can tell.
#[tactic(auto, unfolding(crate::specs::Admission::steps_overflow))]
fn steps_overflow(steps: u32, fuel: u32) -> bool
    ensures { result ≡ steps_overflow steps fuel }
{
    Fuel::MOST - steps < fuel
}

// 24 and 40 of a run that goes on from a stop, in that order.
#[tactic(auto, unfolding(crate::specs::Admission::stop_rows, refusals::specs::Refusals::answer))]
fn stop_refusal(jobs: &[u32], used: u32, waiting: u32, steps: u32, fuel: u32) -> Result<(), Refusal>
    ensures { answer_of result ≡ answer (stop_rows jobs.now used waiting steps fuel) }
{
    if frames_unsound(jobs, used, waiting) {
        return Err(Refusal::Damaged);
    }
    if steps_overflow(steps, fuel) {
        return Err(Refusal::TooManySteps);
    }
    Ok(())
}

// All of them. A function of its own in the archive, for the reason that `drive` is one: its loops over slots and jobs then have registers
// to themselves.
#[inline(never)]
#[tactic(auto, unfolding(crate::specs::Admission::run_rows, crate::specs::Admission::slot_rows, refusals::specs::Refusals::answer))]
pub(crate) fn refusal(words: &[u32], jobs: &[u32], asked: Request) -> Result<(), Refusal>
    ensures { answer_of result
        ≡ answer (run_rows asked.from words.now asked.f asked.x asked.used asked.fuel jobs.now) }
{
    slot_refusal(words, asked.f, asked.x, asked.used)?;
    match asked.from {
        From::Scratch => Ok(()),
        From::Stop { waiting, steps } => stop_refusal(jobs, asked.used, waiting, steps, asked.fuel),
    }
}
