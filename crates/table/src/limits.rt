// How much of a lent table is used at most.
ghost use Rattle.std.specs.Prelude.{◌≡◌};
ghost use Rattle.table.specs.Limits.{at_most};

// A most that document 01 sets.
#[derive(Clone, Copy)]
pub struct Limit(pub u32);

impl Limit {
    // Of the room, in slots.
    pub const SLOTS: Limit = Limit(65535);

    // Of the job room, in frames.
    pub const FRAMES: Limit = Limit(65535);

    // The smaller of a count and the limit.
    pub fn of(self, count: usize) -> u32
        ensures { result ≡ at_most self.0 count }
    {
        count.min(self.0 as usize) as u32
    }
}
