// Loads each bundle that the input names into tables that are filled before, makes the runs that stand after it on the same
// table, and writes what load and run answer and what the tables hold then.
#![tactic(auto)]

mod case;
mod loaded;

ghost use Rattle.std.specs.Prelude.{◌-◌, ◌≤◌, length, OnOk};

use crate::case::{Load, MOST_EXPORTS, MOST_JOB_WORDS, MOST_WORDS, Run, read_load, read_run};
use crate::loaded::LoadNumbers;
use cases::files::read_file;
use cases::input::{Cursor, read_full};
use cases::output::{BestEffort, Hex, Words};
use engine::Ending;
use run_lines::{RunAnswer, RunNumbers};
use sha256::Running;
use std::io;
use std::rt::Files;

// So many bytes of the input are read.
const INPUT_BYTES: usize = 65_536;

// Two bytes more than the largest bundle has are read of a file.
const FILE_BYTES: usize = 65_538;

// The table of a load and of the runs after it, its base, and how many of its slots are used. Each table here lies in a fixed array,
// since the heap may have no memory.
#[derive(Drop)]
struct Store<'a> {
    words: &'a mut [u32],
    base: i32,
    used: u32,
}

// Writes a different word at each place of a table: a number and the index added.
fn fill(table: &mut [u32], first: u32) {
    for (word, i) in table.iter_mut().zip(0..u32::MAX) {
        *word = first.wrapping_add(i);
    }
}

// The digest of the words, each as four bytes with the highest first.
fn digest(table: &[u32]) -> [u8; 32] {
    let mut hash = Running::new();
    for word in table {
        hash = hash.absorb(&word.to_be_bytes());
    }
    hash.finish()
}

// The table's digest; few words are written out, too.
fn show_words(rt: &impl Print, words: &[u32]) -> io::Result<()> {
    println!(rt; "table {}", Hex(&digest(words)))?;
    if words.len() <= 24 {
        println!(rt; "words{}", Words(words))?;
    }
    Ok(())
}

// The words of the table that stand before the base.
fn before(words: &[u32], base: i32) -> &[u32]
    ensures { length result.now ≤ length words.now }
{
    let count = usize::try_from(base).unwrap_or(0);
    &words[..count.min(words.len())]
}

// What a load is asked.
fn show_asked(rt: &impl Print, load: Load<'_>) -> io::Result<()> {
    let Load {
        name,
        words,
        base,
        exports,
    } = load;
    rt.write_all(b"load ")?;
    rt.write_all(name)?;
    println!(rt; " words {words} base {base} exports {exports}")
}

// Answers the used count after the load.
fn show_load(
    rt: &impl Files,
    out: &impl Print,
    load: Load<'_>,
    words: &mut [u32],
) -> io::Result<u32>
    requires { load.exports ≤ 40 }
{
    show_asked(out, load)?;
    let mut most = [0; MOST_EXPORTS as usize];
    let exports = &mut most[..load.exports as usize];
    fill(words, 0xA5000000);
    fill(exports, 0xE5000000);
    let mut room = [0; FILE_BYTES];
    let count = read_file(rt, load.name, &mut room);
    let answer = LoadNumbers::from(loader::load(&room[..count], words, load.base, exports));
    println!(out; "{answer}\nexports{}", Words(exports))?;
    println!(out; "before {}", Hex(&digest(before(words, load.base))))?;
    show_words(out, words)?;
    Ok(answer.nodes)
}

// The used count after a run, which a refusal leaves.
fn used_after(answer: RunAnswer, used: u32) -> u32 {
    match answer {
        Err(_) => used,
        Ok(Ending::Done { used, .. } | Ending::Stopped { used, .. }) => used,
    }
}

fn show_run(rt: &impl Print, store: &mut Store<'_>, run: Run) -> io::Result<()>
    requires { run.jobs ≤ 90 }
{
    let Run { f, x, fuel, jobs } = run;
    let used = store.used;
    println!(rt; "run f {f} x {x} used {used} fuel {fuel} jobs {jobs}")?;
    let mut most = [0; MOST_JOB_WORDS as usize];
    let jobs = &mut most[..jobs as usize];
    fill(jobs, 0x0B000000);
    let answer = engine::run(store.words, store.base, f, x, used, fuel, jobs);
    store.used = used_after(answer, used);
    println!(rt; "{}\njobs{}", RunNumbers::from(answer), Words(jobs))?;
    show_words(rt, store.words)
}

// A case: a load, and the runs after it, which their count stands before.
fn show_case(rt: &impl Files, out: &impl Print, input: &mut Cursor<'_>) -> io::Result<()>
    ensures { OnOk result (length input.new.rest.now ≤ length input.old.rest.now - 4) }
{
    let load = read_load(input);
    let mut most = [0; MOST_WORDS as usize];
    let words = &mut most[..load.words as usize];
    let used = show_load(rt, out, load, words)?;
    let mut store = Store {
        words,
        base: load.base,
        used,
    };
    for _ in 0..input.number() {
        show_run(out, &mut store, read_run(input))?;
    }
    Ok(())
}

fn show_cases(rt: &impl Files, out: &impl Print, bytes: &[u8]) -> io::Result<()> {
    let mut input = Cursor::new(bytes);
    while !input.is_empty() {
        show_case(rt, out, &mut input)?;
    }
    Ok(())
}

fn main(rt: HostRuntime) {
    let mut bytes = [0; INPUT_BYTES];
    let count = read_full(rt.reader(), &mut bytes);
    let _ = show_cases(&rt, &BestEffort(&rt), &bytes[..count]);
}
