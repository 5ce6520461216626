// The plain engine, to compare the run call with: what refuses a run of it, and one application on the stack.
#![tactic(auto)]

ghost use Rattle.std.specs.Prelude.{◌≡◌};
ghost use Rattle.refusals.specs.Numbers.{answer_of};
ghost use Rattle.refusals.specs.Refusals.{answer};
ghost use Rattle.applying.specs.Fit.{Ends};
ghost use Rattle.plain.specs.Told.{plain_by_number, told_plain};
ghost use Rattle.plain.specs.Run.{played, ended_by, too_deep, plain_rows, plain_tail, plain_run};

use applying::{Halt, Progress, apply};
use engine::admission::slot_refusal;
use refusals::Refusal;
use stepping::stops::Stop;
use table::base::base_of;
use table::slots::Slot;

// How a plain run that was let start ends; specs/Answer.antt gives the paper's numbers for each case. W says why it stopped: C gets a
// number.
#[derive(Clone, Copy, Debug, PartialEq, Eq)]
pub enum PlainEnding<W = Stop> {
    Done { slot: i32, steps: u32, used: u32 },
    Stopped { why: W, steps: u32, used: u32 },
}

impl PlainEnding {
    // The same with a stop by its number.
    pub fn by_number(self) -> PlainEnding<u32>
        ensures { result ≡ plain_by_number self }
    {
        match self {
            PlainEnding::Done { slot, steps, used } => PlainEnding::Done { slot, steps, used },
            PlainEnding::Stopped { why, steps, used } => PlainEnding::Stopped {
                why: u32::from(why),
                steps,
                used,
            },
        }
    }
}

// What is asked of a plain run on our part of the table: f to be applied to x, how many slots are used, an allowance of steps, and
// places for so many jobs.
#[derive(Clone, Copy)]
struct Request {
    f: i32,
    x: i32,
    used: u32,
    fuel: u32,
    places: u32,
}

// By an application that began with so much fuel.
fn ended_by(fuel: u32, end: Result<(Slot, Progress), Halt>) -> PlainEnding
    requires { Ends fuel end }
    ensures { plain_by_number result ≡ ended_by fuel end }
{
    match end {
        Ok((t, p)) => PlainEnding::Done {
            slot: t.number(),
            steps: fuel - p.left,
            used: p.used,
        },
        Err(Halt { why, at }) => PlainEnding::Stopped {
            why,
            steps: fuel - at.left,
            used: at.used,
        },
    }
}

// The most fuel, and the most places for jobs, that the stack is for.
const DEEPEST: u32 = Progress::MOST;

// Whether fuel or places for jobs are more.
#[tactic(auto, unfolding(crate::specs::Run::too_deep, lists::specs::Lists::any_of))]
fn too_deep(fuel: u32, places: u32) -> bool
    ensures { result ≡ too_deep fuel places }
{
    fuel > DEEPEST || places > DEEPEST
}

// What refuses a plain run.
#[tactic(auto, unfolding(crate::specs::Run::plain_rows, engine::specs::Admission::slot_rows, refusals::specs::Refusals::answer))]
fn refusal(words: &[u32], asked: Request) -> Result<(), Refusal>
    ensures { answer_of result ≡ answer (plain_rows words.now asked.f asked.x asked.used asked.fuel asked.places) }
{
    slot_refusal(words, asked.f, asked.x, asked.used)?;
    if too_deep(asked.fuel, asked.places) {
        return Err(Refusal::TooDeep);
    }
    Ok(())
}

// The plain run on the part of the table that is ours.
#[tactic(auto, unfolding(crate::specs::Run::plain_tail))]
fn plain_tail(words: &mut [u32], asked: Request) -> Result<PlainEnding, Refusal>
    ensures { played words.new (told_plain result) ≡ plain_tail words.old asked.f asked.x asked.used asked.fuel asked.places }
{
    refusal(words, asked)?;
    let p = Progress {
        left: asked.fuel,
        used: asked.used,
    };
    let end = apply(
        words,
        Slot::named(asked.f),
        Slot::named(asked.x),
        p,
        0,
        asked.places,
    );
    Ok(ended_by(asked.fuel, end))
}

// Applies slot f to slot x of the table that starts at word base, of which `used` slots are used, with an allowance of steps and
// places for so many jobs. Refused by 21, 23, 24 or 49. What is asked stays single numbers, as the call for C has them.
#[tactic(auto, unfolding(crate::specs::Run::plain_run, table::specs::Base::from_base, table::specs::Base::base_of))]
pub fn run(
    words: &mut [u32],
    base: i32,
    f: i32,
    x: i32,
    used: u32,
    fuel: u32,
    places: u32,
) -> Result<PlainEnding, Refusal>
    ensures { played words.new (told_plain result) ≡ plain_run words.old base f x used fuel places }
{
    let asked = Request {
        f,
        x,
        used,
        fuel,
        places,
    };
    match base_of(base, words.len()) {
        None => Err(Refusal::NoRoom),
        Some(at) => plain_tail(&mut words[at..], asked),
    }
}
