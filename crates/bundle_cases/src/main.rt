// Checks each bundle of a folder whose name the input has, and writes the number that is answered, the names of its exports
// and where they start, and what the index by name answers of three names.
#![tactic(auto)]

use bundle::exports::{export_index, export_name, name_part};
use cases::files::read_file;
use cases::input::read_full;
use cases::output::{BestEffort, Hex};
use std::rt::Files;
use std::{fmt, io};

// So many bytes of the input are read.
const INPUT_BYTES: usize = 65_536;

// Two bytes more than the largest bundle has are read of a file.
const FILE_BYTES: usize = 65_538;

// An export: its index, and its name with the name's place in the file.
#[derive(Clone, Copy)]
struct Export<'a> {
    index: u32,
    start: usize,
    name: &'a [u8],
}

impl fmt::Display for Export<'_> {
    fn fmt<W: fmt::Write>(&self, f: &mut fmt::Formatter<W>) -> fmt::Result {
        let Export { index, start, name } = *self;
        write!(f, "{index} {start} {} {}", name.len(), Hex(name))
    }
}

// The export with an index, if there is one.
fn export_at(file: &[u8], index: u32) -> Option<Export<'_>> {
    let part = name_part(file, index);
    if part.size == 0 {
        return None;
    }
    Some(Export {
        index,
        start: part.start,
        name: export_name(file, index),
    })
}

// The exports from the first on; no index past them has a name.
fn show_exports(rt: &impl Print, file: &[u8]) -> io::Result<()> {
    let exports = (0..u32::MAX).map_while(|index| export_at(file, index));
    for export in exports.chain(export_at(file, u32::MAX)) {
        println!(rt; "  {export}")?;
    }
    Ok(())
}

// The paper's numbers for the index by name.
fn show_index(rt: &impl Print, file: &[u8], name: &[u8]) -> io::Result<()> {
    let (number, index) = match export_index(file, name) {
        Err(refusal) => (u32::from(refusal), 0),
        Ok(index) => (0, index),
    };
    println!(rt; "  index {number} {index}")
}

fn show_bundle(rt: &impl Print, name: &[u8], file: &[u8]) -> io::Result<()> {
    let number = bundle::check(file).err().map_or(0, u32::from);
    rt.write_all(name)?;
    println!(rt; " {number}")?;
    show_exports(rt, file)?;
    show_index(rt, file, b"")?;
    show_index(rt, file, b"main")?;
    show_index(rt, file, b"nobody")
}

fn show_bundles(rt: &impl Files, out: &impl Print, names: &[u8]) -> io::Result<()> {
    let mut room = [0; FILE_BYTES];
    // each program has this loop and the sizes of its own: what it does with a file stands inside
    for line in names.split_inclusive(|byte| *byte == b'\n') {
        let name = line.strip_suffix(b"\n").unwrap_or(line);
        let count = read_file(rt, name, &mut room);
        show_bundle(out, name, &room[..count])?;
    }
    Ok(())
}

fn main(rt: HostRuntime) {
    let mut names = [0; INPUT_BYTES];
    let count = read_full(rt.reader(), &mut names);
    let _ = show_bundles(&rt, &BestEffort(&rt), &names[..count]);
}
