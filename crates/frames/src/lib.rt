// The lent frame table, the paper's job table: continuation frames of three words, oldest first. How many words a frame has, and
// where they stand, is known here alone.
#![tactic(auto)]

ghost use Rattle.std.specs.Prelude.{◌≡◌, ◌≤◌, ◌<◌};
ghost use Rattle.frames.specs.Frames.{frame_room, frame_at, put_record, put_frame, drop_frame, cleared, FrameNames};
ghost use Rattle.frames.specs.SoundFrames.{frame_sound, each_sound, all_zero, frames_sound};
ghost use Rattle.table.specs.Limits.{max_slots};

use table::limits::Limit;
use table::slots::Slot;

// What is done with the tree that comes next.
#[derive(Clone, Copy, Debug, PartialEq, Eq)]
pub enum Frame {
    // The tree is the function, and its operand is the first slot applied to the second.
    Operand(Slot, Slot),
    // The tree is applied to the slot.
    Argument(Slot),
    // The slot is applied to the tree.
    Function(Slot),
}

impl Frame {
    // The words of a frame.
    const WORDS: usize = 3;

    // The first of them, for each kind of frame: numbers, since a lent table holds them, as the interface for C says.
    const OPERAND: u32 = 1;

    const ARGUMENT: u32 = 2;

    const FUNCTION: u32 = 3;

    // Words above the frames that are looked at together: enough for the compiler to take several at a time.
    const BLOCK: usize = 1024;
}

// How many frames the table has room for. That a place lies in it is asked where it is read or written: a place knows no table.
#[tactic(auto, unfolding(crate::specs::Frames::frame_room))]
pub fn frame_room(jobs: &[u32]) -> u32
    ensures { result ≡ frame_room jobs.now }
{
    Limit::FRAMES.of(jobs.len() / Frame::WORDS)
}

// The frame at place k.
#[tactic(auto, unfolding(crate::specs::Frames::frame_room, crate::specs::Frames::job_words_at, crate::specs::Frames::frame_at))]
pub fn frame_at(jobs: &[u32], k: u32) -> Frame
    requires { k < frame_room jobs.now }
    ensures { result ≡ frame_at jobs.now k }
{
    let at = Frame::WORDS * (k as usize);
    let first = Slot(jobs[at + 1] as usize);
    match jobs[at] {
        Frame::OPERAND => Frame::Operand(first, Slot(jobs[at + 2] as usize)),
        Frame::ARGUMENT => Frame::Argument(first),
        _ => Frame::Function(first),
    }
}

// Writes the three words of place k.
#[tactic(auto, unfolding(crate::specs::Frames::frame_room, crate::specs::Frames::put_record))]
fn put_record(jobs: &mut [u32], k: u32, tag: u32, first: u32, second: u32)
    requires { k < frame_room jobs.old }
    ensures { jobs.new
        ≡ put_record jobs.old k (record { tag = tag; first = first; second = second }) }
{
    let at = Frame::WORDS * (k as usize);
    jobs[at] = tag;
    jobs[at + 1] = first;
    jobs[at + 2] = second;
}

// Writes a frame at place k.
#[tactic(auto, unfolding(crate::specs::Frames::put_frame))]
pub fn put_frame(jobs: &mut [u32], k: u32, f: Frame)
    requires { (k < frame_room jobs.old) × FrameNames max_slots f }
    ensures { jobs.new ≡ put_frame jobs.old k f }
{
    match f {
        Frame::Operand(b, x) => put_record(jobs, k, Frame::OPERAND, b.0 as u32, x.0 as u32),
        Frame::Argument(v) => put_record(jobs, k, Frame::ARGUMENT, v.0 as u32, 0),
        Frame::Function(w) => put_record(jobs, k, Frame::FUNCTION, w.0 as u32, 0),
    }
}

// A frame that goes is zeroed.
#[tactic(auto, unfolding(crate::specs::Frames::drop_frame))]
pub fn drop_frame(jobs: &mut [u32], k: u32)
    requires { k < frame_room jobs.old }
    ensures { jobs.new ≡ drop_frame jobs.old k }
{
    put_record(jobs, k, 0, 0, 0);
}

// Every word becomes 0.
#[tactic(auto, unfolding(crate::specs::Frames::cleared))]
pub fn clear(jobs: &mut [u32])
    ensures { jobs.new ≡ cleared jobs.old }
{
    jobs.fill(0);
}

// Whether three words are those of a frame that names used slots alone.
#[tactic(auto, unfolding(crate::specs::SoundFrames::frame_sound))]
fn frame_sound(kind: u32, first: u32, second: u32, used: u32) -> bool
    ensures { result ≡ frame_sound used (record { tag = kind; first = first; second = second }) }
{
    first < used
        && match kind {
            Frame::OPERAND => second < used,
            Frame::ARGUMENT | Frame::FUNCTION => second == 0,
            _ => false,
        }
}

// Whether the first `waiting` frames are sound.
#[tactic(auto, using(crate::proofs::FramesTest::each_none, crate::proofs::FramesTest::each_more, crate::proofs::FramesTest::each_broken), unfolding(crate::specs::Frames::frame_room, crate::specs::Frames::job_words_at))]
fn each_sound(jobs: &[u32], used: u32, waiting: u32) -> bool
    requires { waiting ≤ frame_room jobs.now }
    ensures { result ≡ each_sound used jobs.now waiting }
{
    for k in 0..waiting {
        let at = Frame::WORDS * (k as usize);
        if !frame_sound(jobs[at], jobs[at + 1], jobs[at + 2], used) {
            return false;
        }
    }
    true
}

// Whether every word is 0. All are looked at, whatever comes, so that several can be at once. By `for`: `fold` would hand each
// reference to a closure as an Option, in a place of the size that one has on x86-64.
fn all_zero(words: &[u32]) -> bool
    ensures { result ≡ all_zero words.now }
{
    let mut bits: u32 = 0;
    for word in words {
        bits |= *word;
    }
    bits == 0
}

// Whether every word is 0: block by block, up to the first that has another.
#[tactic(auto, using(crate::proofs::FramesTest::zero_append, crate::proofs::FramesTest::zero_empty))]
fn zeros(words: &[u32]) -> bool
    ensures { result ≡ all_zero words.now }
{
    for block in words.chunks(Frame::BLOCK) {
        if !all_zero(block) {
            return false;
        }
    }
    true
}

// Whether the waiting frames are sound, and all words above them 0.
#[tactic(auto, unfolding(crate::specs::SoundFrames::frames_sound, crate::specs::Frames::frame_room))]
pub fn frames_sound(jobs: &[u32], used: u32, waiting: u32) -> bool
    ensures { result ≡ frames_sound used jobs.now waiting }
{
    waiting <= frame_room(jobs)
        && each_sound(jobs, used, waiting)
        && zeros(&jobs[Frame::WORDS * (waiting as usize)..])
}
