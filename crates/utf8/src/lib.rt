// Whether bytes are UTF-8 (RFC 3629), and where they stop being it.
#![tactic(auto)]

ghost use Rattle.std.specs.Prelude.{◌≡◌};
ghost use Rattle.std.specs.Option.{option_map};
ghost use Rattle.utf8.specs.Check.{utf8_char, octet_start, octet_step, at_end, check};
ghost use Rattle.utf8.specs.State.{tails, wanted, ascii_length};

// The place of the first byte that cannot continue valid text; the length where the text ends inside a character.
#[derive(Clone, Copy, Debug, PartialEq, Eq)]
pub struct BadAt {
    pub place: usize,
}

// What a character that was begun still wants: how many bytes, and the range of the next one. Those after it are tails.
#[derive(Clone, Copy)]
struct Want {
    left: u8,
    low: u8,
    high: u8,
}

// So many tails.
fn tails(left: u8) -> Want
    ensures { result ≡ tails left }
{
    Want {
        left,
        low: 0x80,
        high: 0xbf,
    }
}

// The first byte of a character, by the character's length, as the RFC has it. One match of its nine rows takes an eighth
// longer on texts of two or three bytes a character.
#[tactic(auto, unfolding(crate::specs::Check::octet_start, crate::specs::Check::utf8_char, crate::specs::Check::in_range, crate::specs::State::wanted))]
fn octet_start(b: u8) -> Option<Want>
    ensures { option_map wanted result ≡ octet_start utf8_char b }
{
    match b {
        0x00..=0x7f => Some(tails(0)),
        0xc2..=0xdf => Some(tails(1)),
        0xe0..=0xef => match b {
            0xe0 => Some(Want {
                left: 2,
                low: 0xa0,
                high: 0xbf,
            }),
            0xed => Some(Want {
                left: 2,
                low: 0x80,
                high: 0x9f,
            }),
            _ => Some(tails(2)),
        },
        0xf0..=0xf4 => match b {
            0xf0 => Some(Want {
                left: 3,
                low: 0x90,
                high: 0xbf,
            }),
            0xf4 => Some(Want {
                left: 3,
                low: 0x80,
                high: 0x8f,
            }),
            _ => Some(tails(3)),
        },
        _ => None,
    }
}

// One byte more.
#[tactic(auto, unfolding(crate::specs::Check::octet_step, crate::specs::Check::in_range, crate::specs::State::wanted))]
fn octet_step(w: Want, b: u8) -> Option<Want>
    ensures { option_map wanted result ≡ octet_step (wanted w) b }
{
    match w.left {
        0 => octet_start(b),
        left if (w.low..=w.high).contains(&b) => Some(tails(left - 1)),
        _ => None,
    }
}

#[tactic(auto, unfolding(crate::specs::Check::at_end, crate::specs::State::wanted))]
fn at_end(w: Want, at: usize) -> Result<(), BadAt>
    ensures { result ≡ at_end (wanted w) at }
{
    if w.left == 0 {
        Ok(())
    } else {
        Err(BadAt { place: at })
    }
}

// How many bytes at the start are characters of one byte. Most texts have no other. By their places: what `take_while` keeps is a
// reference, and its size is no size for all processors.
#[tactic(auto, using(crate::proofs::Laws::ascii_steps))]
fn ascii_length(s: &[u8]) -> usize
    ensures { result ≡ ascii_length s.now }
{
    for i in 0..s.len() {
        if s[i] >= 0x80 {
            return i;
        }
    }
    s.len()
}

#[tactic(auto, using(crate::proofs::Laws::check_steps), unfolding(crate::specs::State::wanted))]
pub fn check(s: &[u8]) -> Result<(), BadAt>
    ensures { result ≡ check s.now }
{
    let mut w = tails(0);
    for i in ascii_length(s)..s.len() {
        w = octet_step(w, s[i]).ok_or(BadAt { place: i })?;
    }
    at_end(w, s.len())
}
