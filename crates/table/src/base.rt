// Where the part of a word table that is ours starts.
ghost use Rattle.std.specs.Prelude.{◌≡◌};
ghost use Rattle.table.specs.Base.{base_of};

// Of a table of so many words; a base at its end leaves no words, and one past it or below 0 is outside.
#[tactic(auto, unfolding(crate::specs::Base::base_of))]
pub fn base_of(base: i32, len: usize) -> Option<usize>
    ensures { result ≡ base_of base len }
{
    match usize::try_from(base) {
        Ok(at) if at <= len => Some(at),
        _ => None,
    }
}
