// The calls for C: include/arboricx.h declares them. A slice is a pointer and a length there, a lent array a pointer.
#![tactic(auto)]

ghost use Rattle.std.specs.Prelude.{◌≡◌};
ghost use Rattle.sha256_block.specs.Fips180.{sha256};
ghost use Rattle.bundle.specs.Checks.{refusal};
ghost use Rattle.bundle.specs.Exports.{name_part, index_call};
ghost use Rattle.loader.specs.Load.{load};
ghost use Rattle.engine.specs.Run.{run_from};
ghost use Rattle.engine.specs.declared.From.TheVariants.{Scratch, Stop};
ghost use Rattle.plain.specs.Run.{plain_run};
ghost use Rattle.answers.specs.Words.{part_words, version};
ghost use Rattle.answers.specs.Calls.{left, after_load, after_run, left_one, after_plain, told, after_index};

use answers::{put_index, put_load, put_plain, put_run};
use engine::{Ending, From};
use plain::PlainEnding;

// The version of the archive, ARBORICX_VERSION of the header.
#[unsafe(no_mangle)]
pub extern "C" fn arboricx_version() -> u32
    ensures { result ≡ version }
{
    10000
}

// 1 to 20: the number of the first check that holds, or 0 for a sound bundle.
#[unsafe(no_mangle)]
pub extern "C" fn arboricx_check(file: &[u8]) -> u32
    ensures { result ≡ refusal file.now }
{
    match bundle::check(file) {
        Ok(()) => 0,
        Err(refused) => u32::from(refused),
    }
}

// Loads a bundle. The answer: number, node count, export count.
#[unsafe(no_mangle)]
pub extern "C" fn arboricx_load(
    file: &[u8],
    words: &mut [u32],
    base: i32,
    exports: &mut [u32],
    answer: &mut [u32; 3],
) -> u32
    ensures { left words.new exports.new answer.new result
        ≡ after_load (load file.now words.old base exports.old) }
{
    let a = loader::load(file, words, base, exports);
    put_load(answer, a.map_err(u32::from))
}

// Runs from scratch or from a stop, and writes the words of the answer. The tables come first, so that they are passed in registers.
#[tactic(auto, using(crate::proofs::Named::run_named))]
fn run_words(
    words: &mut [u32],
    jobs: &mut [u32],
    answer: &mut [u32; 6],
    from: From,
    base: i32,
    f: i32,
    x: i32,
    used: u32,
    fuel: u32,
) -> u32
    ensures { left words.new jobs.new answer.new result
        ≡ after_run (run_from from words.old base f x used fuel jobs.old) }
{
    let a = engine::run_from(from, words, base, f, x, used, fuel, jobs);
    put_run(answer, a.map(Ending::by_number).map_err(u32::from))
}

// Applies slot f to slot x. The answer: number; result slot or f; x; steps; used count; jobs waiting.
#[unsafe(no_mangle)]
pub extern "C" fn arboricx_run(
    words: &mut [u32],
    base: i32,
    f: i32,
    x: i32,
    used: u32,
    fuel: u32,
    jobs: &mut [u32],
    answer: &mut [u32; 6],
) -> u32
    ensures { left words.new jobs.new answer.new result
        ≡ after_run (run_from Scratch words.old base f x used fuel jobs.old) }
{
    run_words(words, jobs, answer, From::Scratch, base, f, x, used, fuel)
}

// Goes on with a stopped run, of which so many jobs wait and so many steps are done. The answer: a run's, with the steps in total.
#[unsafe(no_mangle)]
pub extern "C" fn arboricx_carry_on(
    words: &mut [u32],
    base: i32,
    f: i32,
    x: i32,
    used: u32,
    waiting: u32,
    steps: u32,
    fuel: u32,
    jobs: &mut [u32],
    answer: &mut [u32; 6],
) -> u32
    ensures { left words.new jobs.new answer.new result
        ≡ after_run (run_from (Stop waiting steps) words.old base f x used fuel jobs.old) }
{
    let from = From::Stop { waiting, steps };
    run_words(words, jobs, answer, from, base, f, x, used, fuel)
}

// Applies slot f to slot x on the plain engine, with room for so many jobs. The answer: number; result slot; steps; used count.
#[tactic(auto, using(crate::proofs::Named::plain_named))]
#[unsafe(no_mangle)]
pub extern "C" fn arboricx_plain_run(
    words: &mut [u32],
    base: i32,
    f: i32,
    x: i32,
    used: u32,
    fuel: u32,
    job_room: u32,
    answer: &mut [u32; 4],
) -> u32
    ensures { left_one words.new answer.new result
        ≡ after_plain (plain_run words.old base f x used fuel job_room) }
{
    let a = plain::run(words, base, f, x, used, fuel, job_room);
    put_plain(answer, a.map(PlainEnding::by_number).map_err(u32::from))
}

// The index of the export with a name. The answer: number, index.
#[tactic(auto, using(crate::proofs::Named::index_named))]
#[unsafe(no_mangle)]
pub extern "C" fn arboricx_export_index(file: &[u8], name: &[u8], answer: &mut [u32; 2]) -> u32
    ensures { told answer.new result ≡ after_index (index_call file.now name.now) }
{
    let a = bundle::exports::export_index(file, name);
    put_index(answer, a.map_err(u32::from))
}

// The part of the file that is an export's name. The answer: start, length; (0, 0) for the empty part.
#[unsafe(no_mangle)]
pub extern "C" fn arboricx_export_name(file: &[u8], index: u32, answer: &mut [usize; 2])
    ensures { answer.new ≡ part_words (name_part file.now index) }
{
    let part = bundle::exports::name_part(file, index);
    *answer = [part.start, part.size];
}

// SHA-256 of some bytes.
#[unsafe(no_mangle)]
pub extern "C" fn arboricx_sha256(bytes: &[u8], digest: &mut [u8; 32])
    ensures { digest.new ≡ sha256 bytes.now }
{
    *digest = sha256::digest(bytes);
}
