// The run call applies a slot of a lent word table to another, with an allowance of steps; the carry-on call goes on with a run that
// stopped.
#![tactic(auto)]

ghost use Rattle.std.specs.Prelude.{◌≡◌, ◌+◌, ◌<◌, ◌^◌, Ok};
ghost use Rattle.table.specs.Limits.{max_slots};
ghost use Rattle.stepping.specs.Ready.{Runnable, Waits};
ghost use Rattle.stepping.specs.Stops.{stops_with};
ghost use Rattle.engine.specs.declared.From.TheVariants.{Scratch, Stop};
ghost use Rattle.engine.specs.Told.{run_by_number, told_run};
ghost use Rattle.engine.specs.Run.{ran, finished, stopped, drive, steps_of, waiting_of, jobs_from, run_tail, run_from};

use crate::admission::refusal;
use frames::clear;
use fuel::Fuel;
use refusals::Refusal;
use stepping::{State, Turn, step, stops};
use table::base::base_of;
use table::slots::Slot;

pub mod admission;

// How a run that was let start ends; specs/Answer.antt gives the paper's numbers for each case. W says why it stopped: C gets a number.
#[derive(Clone, Copy, Debug, PartialEq, Eq)]
pub enum Ending<W = stops::Stop> {
    Done {
        slot: i32,
        steps: u32,
        used: u32,
    },
    // With the f and x still to be applied and how many frames wait.
    Stopped {
        why: W,
        f: i32,
        x: i32,
        steps: u32,
        used: u32,
        waiting: u32,
    },
}

impl Ending {
    // The same with a stop by its number.
    pub fn by_number(self) -> Ending<u32>
        ensures { result ≡ run_by_number self }
    {
        match self {
            Ending::Done { slot, steps, used } => Ending::Done { slot, steps, used },
            Ending::Stopped {
                why,
                f,
                x,
                steps,
                used,
                waiting,
            } => Ending::Stopped {
                why: u32::from(why),
                f,
                x,
                steps,
                used,
                waiting,
            },
        }
    }
}

// How a run begins. Of an Option, `None` would not say that it is from scratch.
#[derive(Clone, Copy)]
pub enum From {
    Scratch,
    // With the frames that wait and the steps that were taken before.
    Stop { waiting: u32, steps: u32 },
}

impl From {
    // The steps that were taken before.
    fn steps(self) -> u32
        ensures { result ≡ steps_of self }
    {
        match self {
            From::Scratch => 0,
            From::Stop { steps, .. } => steps,
        }
    }
}

// What is asked of a run on our part of the table: how it begins, f to be applied to x, how many slots are used, and an allowance
// of steps.
#[derive(Clone, Copy)]
pub(crate) struct Request {
    from: From,
    f: i32,
    x: i32,
    used: u32,
    fuel: u32,
}

// The answer of a run that is done with a slot.
fn finished(slot: Slot, steps: u32, used: u32) -> Ending
    requires { slot.0 < max_slots }
    ensures { run_by_number result ≡ finished slot steps used }
{
    Ending::Done {
        slot: slot.number(),
        steps,
        used,
    }
}

// The answer of a run that stops before it is done.
fn stopped(why: stops::Stop, s: State, steps: u32) -> Ending
    requires { (s.f.0 < max_slots) × (s.x.0 < max_slots) }
    ensures { run_by_number result ≡ stopped (stops_with why) s steps }
{
    Ending::Stopped {
        why,
        f: s.f.number(),
        x: s.x.number(),
        steps,
        used: s.used,
        waiting: s.waiting,
    }
}

// Steps from a state on until the run is done or stopped; the fuel has the steps so far. Not inlined: what its caller holds would take
// registers of the loop.
#[inline(never)]
#[tactic(auto, using(crate::proofs::DriveWays::turns))]
fn drive(words: &mut [u32], jobs: &mut [u32], start: State, fuel: Fuel) -> Ending
    requires { Runnable words.old start × Waits jobs.old start.used start.waiting
        × (fuel.left + fuel.spent < 2 ^ 32) }
    ensures { ran words.new jobs.new (Ok (run_by_number result))
        ≡ drive fuel.left fuel.spent words.old jobs.old start }
{
    // a `while`, since a range up to the end would count beside what is spent, and a step is paid by the fuel alone
    let end = fuel.left + fuel.spent;
    let mut s = start;
    let mut rest = fuel;
    while rest.spent != end {
        match step(words, jobs, s) {
            Turn::Going(next) => {
                s = next;
                rest = rest.spend();
            }
            Turn::Done { slot, used } => return finished(slot, rest.spend().spent, used),
            Turn::Stopped(why) => return stopped(why, s, rest.spent),
        }
    }
    stopped(stops::Stop::OutOfFuel, s, rest.spent)
}

// How a run begins: one from scratch has its frame table zeroed. Answers how many frames wait.
fn begin(from: From, jobs: &mut [u32]) -> u32
    ensures { (jobs.new ≡ jobs_from from jobs.old) × (result ≡ waiting_of from) }
{
    match from {
        From::Scratch => {
            clear(jobs);
            0
        }
        From::Stop { waiting, .. } => waiting,
    }
}

// The run on the part of the table that is ours.
#[tactic(auto, unfolding(crate::specs::Run::run_tail))]
fn run_tail(words: &mut [u32], jobs: &mut [u32], asked: Request) -> Result<Ending, Refusal>
    ensures { ran words.new jobs.new (told_run result)
        ≡ run_tail asked.from words.old asked.f asked.x asked.used asked.fuel jobs.old }
{
    refusal(words, jobs, asked)?;
    let start = State {
        f: Slot::named(asked.f),
        x: Slot::named(asked.x),
        used: asked.used,
        waiting: begin(asked.from, jobs),
    };
    let fuel = Fuel::new(asked.fuel, asked.from.steps());
    Ok(drive(words, jobs, start, fuel))
}

// Applies slot f to slot x of the table that starts at word base, of which `used` slots are used: from scratch, or from a stop.
// Refused by 21, 23 or 24, and from a stop by 40, too. What is asked stays single numbers, as the calls for C have them.
#[tactic(auto, unfolding(crate::specs::Run::run_from, table::specs::Base::from_base))]
pub fn run_from(
    from: From,
    words: &mut [u32],
    base: i32,
    f: i32,
    x: i32,
    used: u32,
    fuel: u32,
    jobs: &mut [u32],
) -> Result<Ending, Refusal>
    ensures { ran words.new jobs.new (told_run result)
        ≡ run_from from words.old base f x used fuel jobs.old }
{
    let asked = Request {
        from,
        f,
        x,
        used,
        fuel,
    };
    match base_of(base, words.len()) {
        None => Err(Refusal::NoRoom),
        Some(at) => run_tail(&mut words[at..], jobs, asked),
    }
}

// Applies slot f to slot x.
pub fn run(
    words: &mut [u32],
    base: i32,
    f: i32,
    x: i32,
    used: u32,
    fuel: u32,
    jobs: &mut [u32],
) -> Result<Ending, Refusal>
    ensures { ran words.new jobs.new (told_run result)
        ≡ run_from Scratch words.old base f x used fuel jobs.old }
{
    run_from(From::Scratch, words, base, f, x, used, fuel, jobs)
}

// Goes on with a run that stopped: so many frames wait in the frame table, and so many steps were taken. The steps that it
// answers are those in total.
pub fn carry_on(
    words: &mut [u32],
    base: i32,
    f: i32,
    x: i32,
    used: u32,
    waiting: u32,
    steps: u32,
    fuel: u32,
    jobs: &mut [u32],
) -> Result<Ending, Refusal>
    ensures { ran words.new jobs.new (told_run result)
        ≡ run_from (Stop waiting steps) words.old base f x used fuel jobs.old }
{
    run_from(
        From::Stop { waiting, steps },
        words,
        base,
        f,
        x,
        used,
        fuel,
        jobs,
    )
}
