// Why a run stops before it is done.
ghost use Rattle.std.specs.Prelude.{◌≡◌};
ghost use Rattle.stepping.specs.Stops.{stops_with};

// By document 01's number.
#[derive(Clone, Copy, Debug, PartialEq, Eq)]
pub enum Stop {
    OutOfFuel = 31,
    OutOfSlots = 32,
    OutOfPlaces = 33,
}

impl From<Stop> for u32 {
    ghost from_gives = { λ s n. n ≡ stops_with s };

    fn from(s: Stop) -> u32 {
        s as u32
    }
}
