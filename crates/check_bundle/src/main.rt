// Document 01's program: loads the bundle on its standard input and writes what the load answers, and the exports. It always
// exits with 0: a read that fails ends the input, and a write that fails is passed over.
#![tactic(auto)]

use listing::TEXT_BYTES;

const STDIN: i32 = 0;

// A byte more than the largest bundle is read: where there are still more, the file is too long all the same.
const INPUT_BYTES: usize = 65_537;

fn main(rt: HostRuntime) {
    // A fixed buffer: reading into a Vec may find no memory, and a sound bundle that was cut there would be refused.
    let mut input = [0; INPUT_BYTES];
    // Another: a line that found no memory would be missing.
    let mut text = [0; TEXT_BYTES];
    let read = io::read_full(STDIN, &mut input);
    let written = listing::list(&input[..read], &mut text);
    let _ = rt.write_all(&text[..written]);
}
