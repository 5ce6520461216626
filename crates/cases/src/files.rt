// Files that the input names.
ghost use Rattle.io.specs.Counts.{IsPrefixLen};

use crate::input::read_full;
use std::fs::File;
use std::rt::Files;

// Reads the file of that name, as much as there is room for; answers how many bytes that is. A name that is no text is no
// file's, and a file that cannot be opened has no bytes.
pub fn read_file(rt: &impl Files, name: &[u8], bytes: &mut [u8]) -> usize
    ensures { IsPrefixLen result bytes.new }
{
    if let Ok(path) = str::from_utf8(name)
        && let Ok(file) = File::open(rt, path)
    {
        return read_full(file, bytes);
    }
    0
}
