// The input, and what stands in it: numbers, each in four bytes, and tables and byte strings after their lengths.
ghost use Rattle.std.specs.Prelude.{◌≡◌, ◌==◌, ◌-◌, ◌≤◌, length, IfOk};
ghost use Rattle.io.specs.Counts.{IsPrefixLen};

use std::alloc::{AllocError, Global};
use std::io::Read;

// Reads as much as there is room for; answers how many bytes that is. A read that fails ends them.
pub fn read_full<R: Read + Drop>(mut from: R, bytes: &mut [u8]) -> usize
    ensures { IsPrefixLen result bytes.new }
{
    // What was read is counted: `read_to_end` fails alike where a read fails and where there is no memory.
    let mut count = 0;
    while count < bytes.len()
        && let Ok(n) = from.read(&mut bytes[count..])
        && n > 0
    {
        count += n;
    }
    count
}

// What is still to be read of the input.
#[derive(Drop)]
pub struct Cursor<'a> {
    pub rest: &'a [u8],
}

impl<'a> Cursor<'a> {
    pub fn new(bytes: &'a [u8]) -> Cursor<'a>
        ensures { result.rest.now ≡ bytes.now }
    {
        Cursor { rest: bytes }
    }

    pub fn is_empty(&self) -> bool
        ensures { result ≡ (length self.now.rest.now == 0) }
    {
        self.rest.is_empty()
    }

    // The next n bytes, or all that are left.
    fn next_bytes(&mut self, n: usize) -> &'a [u8]
        ensures { length self.new.rest.now ≡ length self.old.rest.now - n }
    {
        let (bytes, rest) = self.rest.split_at(n.min(self.rest.len()));
        self.rest = rest;
        bytes
    }

    // The next number; after the end, 0.
    pub fn number(&mut self) -> u32
        ensures { length self.new.rest.now ≡ length self.old.rest.now - 4 }
    {
        match self.next_bytes(4).first_chunk() {
            Some(bytes) => u32::from_be_bytes(*bytes),
            None => 0,
        }
    }

    // The next signed number, which is sent with 2^31 added.
    pub fn signed(&mut self) -> i32
        ensures { length self.new.rest.now ≡ length self.old.rest.now - 4 }
    {
        self.number().wrapping_sub(0x8000_0000).cast_signed()
    }

    // The next number, which is a length, and no more than there is room for.
    pub fn number_up_to(&mut self, most: u32) -> u32
        ensures bound { result ≤ most }
        ensures rest { length self.new.rest.now ≡ length self.old.rest.now - 4 }
    {
        self.number().min(most)
    }

    // The next byte string, or of it what there is.
    pub fn bytes(&mut self) -> &'a [u8]
        ensures { length self.new.rest.now ≤ length self.old.rest.now - 4 }
    {
        let count = self.number() as usize;
        self.next_bytes(count)
    }

    // The next table, of at most so many numbers; those after the end are 0.
    pub fn table(&mut self, most: u32, alloc: Global) -> Result<Vec<u32>, AllocError>
        ensures bound { IfOk result (λ table. length table.items ≤ most) }
        ensures rest { length self.new.rest.now ≤ length self.old.rest.now - 4 }
    {
        let count = self.number_up_to(most) as usize;
        let (words, _) = self.next_bytes(4 * count).as_chunks();
        let mut table: Vec<u32> = words
            .iter()
            .map(|word| u32::from_be_bytes(*word))
            .collect(alloc)?;
        table.resize(count, 0)?;
        Ok(table)
    }
}
