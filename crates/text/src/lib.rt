// Text in a lent buffer. Each function puts a text at a place and answers the place after it; all other bytes stay. By hand and not by
// `write!`, whose contracts do not say which bytes are written; the buffer and the place stay two values, so that the contracts can say
// what a buffer was before and after.
#![tactic(auto)]

ghost use Rattle.std.specs.Prelude.{◌+◌, ◌≤◌, length};
ghost use Rattle.text.specs.Text.{decimal};
ghost use Rattle.text.specs.Put.{Put};

// Puts the bytes of t.
pub fn put_bytes(out: &mut [u8], at: usize, t: &[u8]) -> usize
    requires { at + length t.now ≤ length out.old }
    ensures { Put t.now out.old at out.new result }
{
    let end = at + t.len();
    out[at..end].copy_from_slice(t);
    end
}

// Puts a number in decimal digits, by a fixed buffer: no heap.
pub fn put_decimal(out: &mut [u8], at: usize, n: u32) -> usize
    requires { at + length (decimal n) ≤ length out.old }
    ensures { Put (decimal n) out.old at out.new result }
{
    let mut digits: [u8; 20] = [0; 20];
    let k = io::decimal(n as u64, &mut digits);
    put_bytes(out, at, &digits[..k])
}
