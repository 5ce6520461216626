// Writes, for each bundle of a folder whose name the input has, its name and the text for it.
#![tactic(auto)]

use cases::files::read_file;
use cases::input::read_full;
use cases::output::BestEffort;
use listing::TEXT_BYTES;
use std::io;
use std::rt::Files;

// So many bytes of the input are read.
const INPUT_BYTES: usize = 4096;

// A byte more than the largest bundle has is read of a file.
const FILE_BYTES: usize = 65_537;

fn show_file(rt: &impl Files, out: &impl Print, name: &[u8]) -> io::Result<()> {
    let mut room = [0; FILE_BYTES];
    let count = read_file(rt, name, &mut room);
    // `list` is lent a fixed buffer, as check_bundle has one, and answers how much of it is filled.
    let mut text = [0; TEXT_BYTES];
    let written = listing::list(&room[..count], &mut text);
    out.write_all(name)?;
    out.write_all(b"\n")?;
    out.write_all(&text[..written])
}

fn show_files(rt: &impl Files, out: &impl Print, names: &[u8]) -> io::Result<()> {
    for line in names.split_inclusive(|byte| *byte == b'\n') {
        show_file(rt, out, line.strip_suffix(b"\n").unwrap_or(line))?;
    }
    Ok(())
}

fn main(rt: HostRuntime) {
    let mut names = [0; INPUT_BYTES];
    let count = read_full(rt.reader(), &mut names);
    let _ = show_files(&rt, &BestEffort(&rt), &names[..count]);
}
