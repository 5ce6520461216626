// Calls on tables of more than the limits.
use cases::output::Words;
use run_lines::RunNumbers;
use std::io;

// One slot more than the limit, and a word.
const WORDS: usize = 131_073;

// One word more than the job table's limit.
const JOB_WORDS: usize = 196_606;

// The identity I, and D, a fork of stem I and I, in six slots.
const SLOTS_OF_D: [u32; 12] = [0, 0, 1, 0, 2, 0, 3, 1, 4, 0, 5, 4];

// D to D; of the word table the last words are shown.
fn show_d(rt: &(impl Print + AllocGlobal)) -> io::Result<()> {
    let mut words = SLOTS_OF_D.to_vec(rt.alloc())?;
    words.resize(WORDS, 9)?;
    let mut jobs = [8; 6];
    let answer = engine::run(&mut words, 0, 5, 5, 6, u32::MAX, &mut jobs);
    rt.println(RunNumbers::from(answer))?;
    if let Some(last) = words.last_chunk::<9>() {
        println!(rt; "words{}", Words(last))?;
    }
    println!(rt; "jobs{}", Words(&jobs))
}

// A carry-on of L to L on a job table with this last word, where no job waits.
fn show_l(rt: &(impl Print + AllocGlobal), last: u32) -> io::Result<()> {
    let mut words = [0, 0, 9, 9];
    let mut jobs = vec![in rt.alloc(); 0; JOB_WORDS]?;
    jobs[JOB_WORDS - 1] = last;
    let answer = engine::carry_on(&mut words, 0, 0, 0, 1, 0, 7, 1, &mut jobs);
    rt.println(RunNumbers::from(answer))
}

pub(crate) fn show_full(rt: &(impl Print + AllocGlobal)) -> io::Result<()> {
    show_d(rt)?;
    show_l(rt, 9)?;
    show_l(rt, 0)
}
