// The directory of a bundle: 6 to 11, and the sections. One walk finds what all of them ask.
ghost use Rattle.std.specs.Prelude.{◌≡◌, ◌+◌, ◌*◌, ◌^◌, ◌≤◌, ◌<◌, length};
ghost use Rattle.refusals.specs.Refusals.{answer};
ghost use Rattle.refusals.specs.Numbers.{answer_of};
ghost use Rattle.container.specs.Header.{header_bytes, entry_bytes, section_count};
ghost use Rattle.container.specs.Directory.{entry_at, entries, known, critical, coded, outside, altered};
ghost use Rattle.container.specs.Survey.{surveyed, type_noted, noted, repeated_in, missing_in, altered_in};
ghost use Rattle.container.specs.Checks.{directory_checks, part_of};

use crate::header::{ENTRY, HEADER, section_count};
use refusals::Refusal;
use wire::{Part, number_at, or_zero};

// The types of the sections that a bundle has to have: numbers, since a file may have types that nobody here knows.
const MANIFEST: u64 = 1;

const NODES: u64 = 2;

// The one digest algorithm, SHA-256, and the bytes of a digest.
const SHA256: u64 = 1;

const DIGEST: usize = 32;

// What a directory entry says; the digest by its place.
#[derive(Clone, Copy, Debug, PartialEq, Eq)]
pub struct DirectoryEntry {
    pub kind: u64,
    pub flags: u64,
    pub compression: u64,
    pub algorithm: u64,
    pub offset: u64,
    pub size: u64,
    pub digest: usize,
}

// What is found of one type: how many entries have it, and the first of them. Where there is none that is one of no bytes, as the
// definition `entry_of` says, which the promises speak of; an Option would leave a case that 10 has refused.
#[derive(Clone, Copy, Debug, PartialEq, Eq)]
pub struct TypeFound {
    pub times: u64,
    pub first: DirectoryEntry,
}

// What one walk over the directory finds.
#[derive(Clone, Copy, Debug, PartialEq, Eq)]
pub struct Survey {
    // Some entry is of unknown type and critical; is compressed, or with another digest algorithm; passes the end of the file.
    pub critical: bool,
    pub coded: bool,
    pub outside: bool,
    pub manifest: TypeFound,
    pub nodes: TypeFound,
}

impl DirectoryEntry {
    // Where there is no entry: it names no bytes.
    const NONE: DirectoryEntry = DirectoryEntry {
        kind: 0,
        flags: 0,
        compression: 0,
        algorithm: 0,
        offset: 0,
        size: 0,
        digest: 0,
    };
}

// The entry at a position. It is read in a part of its own, in which every place is known to lie. Its 60 bytes: u32 type at 0,
// u16 version at 4, u16 flags at 6, u16 compression at 8, u16 digest algorithm at 10, u64 offset at 12, u64 length at 20, the
// digest at 28.
fn entry_at(file: &[u8], at: usize) -> DirectoryEntry
    requires { at + entry_bytes ≤ length file.now }
    ensures { result ≡ entry_at file.now at }
{
    let end = at + ENTRY;
    let e = &file[at..end];
    DirectoryEntry {
        kind: or_zero(number_at::<4>(e, 0)),
        flags: or_zero(number_at::<2>(e, 6)),
        compression: or_zero(number_at::<2>(e, 8)),
        algorithm: or_zero(number_at::<2>(e, 10)),
        offset: or_zero(number_at::<8>(e, 12)),
        size: or_zero(number_at::<8>(e, 20)),
        digest: at + 28,
    }
}

#[tactic(auto, unfolding(crate::specs::Directory::known))]
fn known(kind: u64) -> bool
    ensures { result ≡ known kind }
{
    kind == MANIFEST || kind == NODES
}

// 6, of one entry.
#[tactic(auto, unfolding(crate::specs::Directory::critical))]
fn critical(e: DirectoryEntry) -> bool
    ensures { result ≡ critical e }
{
    !known(e.kind) && e.flags % 2 == 1
}

// 7, of one entry.
#[tactic(auto, unfolding(crate::specs::Directory::coded, lists::specs::Lists::any_of))]
fn coded(e: DirectoryEntry) -> bool
    ensures { result ≡ coded e }
{
    e.compression != 0 || e.algorithm != SHA256
}

// 8, of one entry. Offset and length are not added: the test is by subtraction.
fn outside(file: &[u8], e: DirectoryEntry) -> bool
    ensures { result ≡ outside file.now e }
{
    !wire::inside(file, e.offset as usize, e.size as usize)
}

// 11, of one entry.
fn altered(file: &[u8], e: DirectoryEntry) -> bool
    ensures { result ≡ altered file.now e }
{
    if !known(e.kind) {
        return false;
    }
    let digest = sha256::digest(part_of(e).of(file));
    !lists::same_bytes(&digest, wire::span(file, e.digest, DIGEST))
}

// What is found of a type with one more entry, before those that were looked at.
#[tactic(auto, unfolding(crate::specs::Survey::type_noted))]
fn type_noted(kind: u64, t: TypeFound, e: DirectoryEntry) -> TypeFound
    requires { t.times + 1 < 2 ^ 64 }
    ensures { result ≡ type_noted kind t e }
{
    if e.kind == kind {
        return TypeFound {
            times: t.times + 1,
            first: e,
        };
    }
    t
}

// A turn of the walk: what is found with one more entry, before those that were looked at.
#[tactic(auto, unfolding(crate::specs::Survey::noted))]
fn noted(file: &[u8], s: Survey, e: DirectoryEntry) -> Survey
    requires { (s.manifest.times + 1 < 2 ^ 64) × (s.nodes.times + 1 < 2 ^ 64) }
    ensures { result ≡ noted file.now s e }
{
    Survey {
        critical: critical(e) || s.critical,
        coded: coded(e) || s.coded,
        outside: outside(file, e) || s.outside,
        manifest: type_noted(MANIFEST, s.manifest, e),
        nodes: type_noted(NODES, s.nodes, e),
    }
}

// The walk, from the last entry to the first.
pub(crate) fn surveyed(file: &[u8]) -> Survey
    requires { header_bytes + entry_bytes * section_count file.now ≤ length file.now }
    ensures { result ≡ surveyed file.now (entries file.now) }
{
    let none = TypeFound {
        times: 0,
        first: DirectoryEntry::NONE,
    };
    let mut s = Survey {
        critical: false,
        coded: false,
        outside: false,
        manifest: none,
        nodes: none,
    };
    for i in (0..section_count(file)).rev() {
        s = noted(file, s, entry_at(file, HEADER + ENTRY * i as usize));
    }
    s
}

// 9: type 1 or 2 occurs more than once.
#[tactic(auto, unfolding(crate::specs::Survey::repeated_in))]
fn repeated_in(s: Survey) -> bool
    ensures { result ≡ repeated_in s }
{
    1 < s.manifest.times || 1 < s.nodes.times
}

// 10: type 1 or 2 is missing.
#[tactic(auto, unfolding(crate::specs::Survey::missing_in))]
fn missing_in(s: Survey) -> bool
    ensures { result ≡ missing_in s }
{
    s.manifest.times == 0 || s.nodes.times == 0
}

// 11: the digest of the type 1 or type 2 section differs.
#[tactic(auto, unfolding(crate::specs::Survey::altered_in))]
fn altered_in(file: &[u8], s: Survey) -> bool
    ensures { result ≡ altered_in file.now s }
{
    altered(file, s.manifest.first) || altered(file, s.nodes.first)
}

// 6 to 11, by what the walk has found.
pub(crate) fn check_directory(file: &[u8], s: Survey) -> Result<(), Refusal>
    requires { s ≡ surveyed file.now (entries file.now) }
    ensures { answer_of result ≡ answer (directory_checks file.now) }
{
    if s.critical {
        return Err(Refusal::CriticalSection);
    }
    if s.coded {
        return Err(Refusal::CodedSection);
    }
    if s.outside {
        return Err(Refusal::SectionOutside);
    }
    if repeated_in(s) {
        return Err(Refusal::SectionRepeated);
    }
    if missing_in(s) {
        return Err(Refusal::SectionMissing);
    }
    if altered_in(file, s) {
        return Err(Refusal::DigestDiffers);
    }
    Ok(())
}

// Where an entry's section lies.
pub(crate) fn part_of(e: DirectoryEntry) -> Part
    ensures { result ≡ part_of e }
{
    Part {
        start: e.offset as usize,
        size: e.size as usize,
    }
}
