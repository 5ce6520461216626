// The words that C gets of each answer. Each function writes all words of a lent array, and returns the number. There is one for each
// answer, since all that they share is that the number comes first. A refusal and a stop come by their numbers, whatever these are.
#![tactic(auto)]

ghost use Rattle.std.specs.Prelude.{◌<◌, ◌^◌, ◌≡◌};
ghost use Rattle.bundle.specs.Exports.{index_numbers};
ghost use Rattle.loader.specs.Answer.{load_numbers};
ghost use Rattle.engine.specs.Answer.{run_numbers};
ghost use Rattle.engine.specs.Named.{RunSlotsUsed};
ghost use Rattle.plain.specs.Answer.{plain_numbers};
ghost use Rattle.plain.specs.Named.{PlainSlotUsed};
ghost use Rattle.answers.specs.Words.{load_words, run_words, plain_words, index_words};

use engine::Ending;
use loader::Accepted;
use plain::PlainEnding;

// Writes the words of a load's answer. Returns its number.
pub fn put_load(answer: &mut [u32; 3], a: Result<Accepted, u32>) -> u32
    ensures { (answer.new ≡ load_words a) × (result ≡ (load_numbers a).number) }
{
    *answer = match a {
        Err(refused) => [refused, 0, 0],
        Ok(found) => [0, found.nodes, found.exports],
    };
    answer[0]
}

// Writes the words of a run's answer. Returns its number.
pub fn put_run(answer: &mut [u32; 6], a: Result<Ending<u32>, u32>) -> u32
    requires { RunSlotsUsed a }
    ensures { (answer.new ≡ run_words a) × (result ≡ (run_numbers a).number) }
{
    *answer = match a {
        Err(refused) => [refused, 0, 0, 0, 0, 0],
        Ok(Ending::Done { slot, steps, used }) => [0, slot as u32, 0, steps, used, 0],
        Ok(
            Ending::Stopped {
                why,
                f,
                x,
                steps,
                used,
                waiting,
            },
        ) => [why, f as u32, x as u32, steps, used, waiting],
    };
    answer[0]
}

// Writes the words of a plain run's answer. Returns its number.
pub fn put_plain(answer: &mut [u32; 4], a: Result<PlainEnding<u32>, u32>) -> u32
    requires { PlainSlotUsed a }
    ensures { (answer.new ≡ plain_words a) × (result ≡ (plain_numbers a).number) }
{
    *answer = match a {
        Err(refused) => [refused, 0, 0, 0],
        Ok(PlainEnding::Done { slot, steps, used }) => [0, slot as u32, steps, used],
        Ok(PlainEnding::Stopped { why, steps, used }) => [why, 0, steps, used],
    };
    answer[0]
}

// Writes the words of an answer to an index by name. Returns its number.
pub fn put_index(answer: &mut [u32; 2], a: Result<usize, u32>) -> u32
    requires { (index_numbers a).index < 2 ^ 32 }
    ensures { (answer.new ≡ index_words a) × (result ≡ (index_numbers a).number) }
{
    *answer = match a {
        Err(refused) => [refused, 0],
        Ok(index) => [0, index as u32],
    };
    answer[0]
}
