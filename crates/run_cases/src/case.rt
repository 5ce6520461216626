// The cases of the input, and the calls that are made of them.
ghost use Rattle.std.specs.Prelude.{◌-◌, ◌≤◌, length, IfOk, OnOk};

use crate::ending::Ending;
use cases::input::Cursor;
use cases::output::Words;
use engine::Ending::Stopped;
use run_lines::RunAnswer;
use std::alloc::{AllocError, Global};
use std::fmt;

// How many words the tables of a case have at most.
const MOST_WORDS: u32 = 120;

const MOST_JOB_WORDS: u32 = 24;

// The two tables that a run is lent.
#[derive(Clone, Drop)]
pub(crate) struct Tables {
    pub(crate) words: Vec<u32>,
    pub(crate) jobs: Vec<u32>,
}

// Which call is made.
#[derive(Clone, Copy)]
pub(crate) enum Call {
    // A run, which is cut in two so often.
    Run { cuts: u32 },
    // A carry-on of a stop after so many steps, where so many jobs wait.
    CarryOn { waiting: u32, steps: u32 },
    // A run on the plain engine, with room for so many jobs.
    Plain { places: u32 },
}

// A case: the tables before the call, and what is asked.
#[derive(Drop)]
pub(crate) struct Case {
    pub(crate) tables: Tables,
    pub(crate) call: Call,
    base: i32,
    f: i32,
    x: i32,
    used: u32,
    pub(crate) fuel: u32,
}

impl Tables {
    // How many jobs there is room for.
    pub(crate) fn places(&self) -> u32 {
        u32::try_from(self.jobs.len() / 3).unwrap_or(u32::MAX)
    }
}

impl fmt::Display for Tables {
    fn fmt<W: fmt::Write>(&self, f: &mut fmt::Formatter<W>) -> fmt::Result {
        write!(f, "words{}\njobs{}", Words(&self.words), Words(&self.jobs))
    }
}

impl Case {
    pub(crate) fn run(&self, tables: &mut Tables, fuel: u32) -> RunAnswer {
        engine::run(
            &mut tables.words,
            self.base,
            self.f,
            self.x,
            self.used,
            fuel,
            &mut tables.jobs,
        )
    }

    pub(crate) fn carry_on(&self, tables: &mut Tables, waiting: u32, steps: u32) -> RunAnswer {
        engine::carry_on(
            &mut tables.words,
            self.base,
            self.f,
            self.x,
            self.used,
            waiting,
            steps,
            self.fuel,
            &mut tables.jobs,
        )
    }

    // The run with fuel for k steps, then a carry-on with the rest.
    pub(crate) fn run_in_parts(&self, tables: &mut Tables, k: u32) -> RunAnswer {
        match self.run(tables, k) {
            Ok(
                Stopped {
                    f,
                    x,
                    steps,
                    used,
                    waiting,
                    ..
                },
            ) => engine::carry_on(
                &mut tables.words,
                self.base,
                f,
                x,
                used,
                waiting,
                steps,
                self.fuel.wrapping_sub(k),
                &mut tables.jobs,
            ),
            ended => ended,
        }
    }

    pub(crate) fn run_plainly(&self, words: &mut [u32], places: u32) -> Ending {
        plain::run(
            words, self.base, self.f, self.x, self.used, self.fuel, places,
        )
        .into()
    }
}

// The call of a kind: a carry-on is 1; a plain run is 2, and then waiting is the job room; else a run, and then steps is how
// often it is cut.
fn call_of(kind: u32, waiting: u32, steps: u32) -> Call {
    match kind {
        1 => Call::CarryOn { waiting, steps },
        2 => Call::Plain { places: waiting },
        _ => Call::Run { cuts: steps },
    }
}

// A case of the input: a table, what is asked, and a job table.
pub(crate) fn read_case(input: &mut Cursor<'_>, alloc: Global) -> Result<Case, AllocError>
    ensures bounds { IfOk result (λ case.
        (length case.tables.words.items ≤ 120) × (length case.tables.jobs.items ≤ 24)) }
    ensures rest { OnOk result (length input.new.rest.now ≤ length input.old.rest.now - 4) }
{
    let words = input.table(MOST_WORDS, alloc)?;
    let kind = input.number();
    let base = input.signed();
    let f = input.signed();
    let x = input.signed();
    let used = input.number();
    let waiting = input.number();
    let steps = input.number();
    let fuel = input.number();
    let jobs = input.table(MOST_JOB_WORDS, alloc)?;
    Ok(Case {
        tables: Tables { words, jobs },
        call: call_of(kind, waiting, steps),
        base,
        f,
        x,
        used,
        fuel,
    })
}
