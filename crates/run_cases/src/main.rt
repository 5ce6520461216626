// Makes the call of each case of the input, a run, a carry-on or a plain run, and writes what it answers and the tables
// that it leaves. A run is made in two parts too, as often as the case says, and with fuel up to 1,000 on the plain engine.
#![tactic(auto)]

mod case;
mod ending;
mod full;

use crate::case::{Call, Case, Tables, read_case};
use crate::ending::Ending;
use crate::full::show_full;
use cases::input::{Cursor, read_full};
use cases::output::{BestEffort, Words, passed_over};
use run_lines::{RunAnswer, RunNumbers};
use std::io;

// So many bytes of the input are read.
const INPUT_BYTES: usize = 131_072;

// A table that is not as it should be.
fn show_difference(rt: &impl Print, name: &str, table: &[u32], due: &[u32]) -> io::Result<()> {
    if table != due {
        println!(rt; "{name}{}", Words(table))?;
    }
    Ok(())
}

// The paper's numbers of a run that was cut in two, with no names to them.
fn show_cut_answer(rt: &impl Print, answer: RunAnswer) -> io::Result<()> {
    let RunNumbers {
        number,
        slot,
        f,
        x,
        steps,
        used,
        waiting,
    } = answer.into();
    println!(rt; "cut {number} {slot} {f} {x} {steps} {used} {waiting}")
}

// A run in two parts, the first with fuel for k steps: what the second part answers, and each table where it is not the one
// that the run left.
fn show_cut(rt: &impl Print, case: &Case, left: &Tables, k: u32) -> io::Result<()> {
    let mut tables = case.tables.clone()?;
    show_cut_answer(rt, case.run_in_parts(&mut tables, k))?;
    show_difference(rt, "words", &tables.words, &left.words)?;
    show_difference(rt, "jobs", &tables.jobs, &left.jobs)
}

// A run on the plain engine too, unless its fuel is above 1,000: what it answers and the table, each where it is not what the
// run answered and left.
fn show_plain_run(rt: &impl Print, case: &Case, left: &Tables, due: Ending) -> io::Result<()> {
    if case.fuel > 1000 {
        return Ok(());
    }
    let mut words = case.tables.words.clone()?;
    let ending = case.run_plainly(&mut words, case.tables.places());
    if ending != due {
        rt.println(ending)?;
    }
    show_difference(rt, "words", &words, &left.words)
}

fn show_left(rt: &impl Print, answer: RunAnswer, left: &Tables) -> io::Result<()> {
    rt.println(RunNumbers::from(answer))?;
    rt.println(left)
}

// A run and what it left, and the same run in the other ways: cut in two after 0 steps and up, and on the plain engine.
fn show_run(rt: &impl Print, case: &Case, cuts: u32) -> io::Result<()> {
    let mut tables = case.tables.clone()?;
    let answer = case.run(&mut tables, case.fuel);
    show_left(rt, answer, &tables)?;
    for k in 0..cuts {
        show_cut(rt, case, &tables, k)?;
    }
    show_plain_run(rt, case, &tables, answer.into())
}

fn show_case(rt: &impl Print, case: &Case) -> io::Result<()> {
    match case.call {
        Call::Run { cuts } => show_run(rt, case, cuts),
        Call::CarryOn { waiting, steps } => {
            let mut tables = case.tables.clone()?;
            let answer = case.carry_on(&mut tables, waiting, steps);
            show_left(rt, answer, &tables)
        }
        Call::Plain { places } => {
            let mut words = case.tables.words.clone()?;
            rt.println(case.run_plainly(&mut words, places))?;
            println!(rt; "words{}", Words(&words))
        }
    }
}

fn show_cases(rt: &(impl Print + AllocGlobal), bytes: &[u8]) -> io::Result<()> {
    let mut input = Cursor::new(bytes);
    while !input.is_empty() {
        let case = read_case(&mut input, rt.alloc())?;
        show_case(rt, &case)?;
    }
    Ok(())
}

fn show_all(rt: &(impl Print + AllocGlobal), bytes: &[u8]) -> io::Result<()> {
    show_cases(rt, bytes)?;
    show_full(rt)
}

fn main(rt: HostRuntime) -> io::Result<()> {
    let mut bytes = [0; INPUT_BYTES];
    let count = read_full(rt.reader(), &mut bytes);
    passed_over(show_all(&(BestEffort(&rt), rt.alloc()), &bytes[..count]))
}
