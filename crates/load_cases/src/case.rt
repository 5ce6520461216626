// The cases of the input.
ghost use Rattle.std.specs.Prelude.{◌≡◌, ◌-◌, ◌≤◌, length};

use cases::input::Cursor;

// How many words the tables have at most, into which a load writes.
pub(crate) const MOST_WORDS: u32 = 2200;

pub(crate) const MOST_EXPORTS: u32 = 40;

// How many words a run is lent at most for its jobs.
pub(crate) const MOST_JOB_WORDS: u32 = 90;

// A load of the file of that name, into tables of so many words.
#[derive(Clone, Copy)]
pub(crate) struct Load<'a> {
    pub(crate) name: &'a [u8],
    pub(crate) words: u32,
    pub(crate) base: i32,
    pub(crate) exports: u32,
}

// A run on the table of a load, with so many words for its jobs.
#[derive(Clone, Copy)]
pub(crate) struct Run {
    pub(crate) f: i32,
    pub(crate) x: i32,
    pub(crate) fuel: u32,
    pub(crate) jobs: u32,
}

pub(crate) fn read_load<'a>(input: &mut Cursor<'a>) -> Load<'a>
    ensures bounds { (result.words ≤ 2200) × (result.exports ≤ 40) }
    ensures rest { length input.new.rest.now ≤ length input.old.rest.now - 4 }
{
    Load {
        name: input.bytes(),
        words: input.number_up_to(MOST_WORDS),
        base: input.signed(),
        exports: input.number_up_to(MOST_EXPORTS),
    }
}

pub(crate) fn read_run(input: &mut Cursor<'_>) -> Run
    ensures bound { result.jobs ≤ 90 }
    ensures rest { length input.new.rest.now ≤ length input.old.rest.now }
{
    Run {
        f: input.signed(),
        x: input.signed(),
        fuel: input.number(),
        jobs: input.number_up_to(MOST_JOB_WORDS),
    }
}
