// The lines that are written: of a refusal, or of an accepted bundle and its exports. By `text`, and not by `write!`, whose contracts do
// not say which bytes are written.
#![tactic(auto)]

ghost use Rattle.std.specs.Prelude.{◌+◌, ◌≤◌, ◌≡◌, ◌++◌, length, take, Ok};
ghost use Rattle.sizes.specs.Sizes.{name_size};
ghost use Rattle.manifest.specs.Content.{names};
ghost use Rattle.bundle.specs.Verdict.{described};
ghost use Rattle.loader.specs.Load.{exports_in};
ghost use Rattle.report.specs.Report.{line, lines, refused_line, ok_line};
ghost use Rattle.text.specs.Put.{Put};
ghost use Rattle.report.specs.Writing.{Exported, text_bytes};

use bundle::exports::name_of;
use bundle::{Outline, describe};
use text::{put_bytes, put_decimal};

// Puts the line of an export: slot, name length, name bytes.
fn put_line(out: &mut [u8], at: usize, slot: u32, name: &[u8]) -> usize
    requires { (length name.now ≤ name_size.most) × (at + length (line slot name.now) ≤ length out.old) }
    ensures { Put (line slot name.now) out.old at out.new result }
{
    let size = name.len() as u32;
    let a = put_decimal(out, at, slot);
    let b = put_bytes(out, a, b" ");
    let c = put_decimal(out, b, size);
    let d = put_bytes(out, c, b" ");
    let e = put_bytes(out, d, name);
    put_bytes(out, e, b"\n")
}

// Puts a line for each export of a file, in manifest order. What the file has is known. The slots and their count are two parameters:
// the table is lent, and longer than the count.
fn put_lines(
    input: &[u8],
    c: Outline,
    slots: &[u32],
    count: u32,
    out: &mut [u8],
    at: usize,
) -> usize
    requires { (described input.now ≡ Ok c) × (Exported input.now slots.now count)
        × (at + length (lines (take count slots.now) (names (exports_in input.now))) ≤ length out.old) }
    ensures { Put (lines (take count slots.now) (names (exports_in input.now)))
        out.old at out.new result }
{
    let mut p = at;
    for i in 0..count {
        p = put_line(out, p, slots[i as usize], name_of(input, c, i).of(input));
    }
    p
}

// Puts how many nodes and exports an accepted bundle has.
fn put_ok(out: &mut [u8], nodes: u32, exports: u32) -> usize
    requires { length (ok_line nodes exports) ≤ length out.old }
    ensures { Put (ok_line nodes exports) out.old 0 out.new result }
{
    let a = put_bytes(out, 0, b"ok nodes ");
    let b = put_decimal(out, a, nodes);
    let c = put_bytes(out, b, b" exports ");
    let d = put_decimal(out, c, exports);
    put_bytes(out, d, b"\n")
}

// Puts what is written of an accepted bundle. One check finds the names of all exports; it refuses no accepted bundle.
pub fn put_accepted(input: &[u8], nodes: u32, slots: &[u32], exports: u32, out: &mut [u8]) -> usize
    requires { (Exported input.now slots.now exports) × (text_bytes ≤ length out.old) }
    ensures { Put
        (ok_line nodes exports ++ lines (take exports slots.now) (names (exports_in input.now)))
        out.old 0 out.new result }
{
    let at = put_ok(out, nodes, exports);
    match describe(input) {
        Ok(c) => put_lines(input, c, slots, exports, out, at),
        Err(_) => at,
    }
}

// Puts the number of a refusal; the text is defined for any number.
pub fn put_refused(out: &mut [u8], number: u32) -> usize
    requires { length (refused_line number) ≤ length out.old }
    ensures { Put (refused_line number) out.old 0 out.new result }
{
    let a = put_bytes(out, 0, b"refused ");
    let b = put_decimal(out, a, number);
    put_bytes(out, b, b"\n")
}
