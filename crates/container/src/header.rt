// The header of a bundle: 1 to 5. It has 32 bytes: the magic at 0, u16 major at 8, u16 minor at 10, u32 section count at 12,
// u64 flags at 16, u64 directory offset at 24.
ghost use Rattle.std.specs.Prelude.{◌≡◌};
ghost use Rattle.container.specs.Header.{section_count, too_long, too_short, other_magic, other_major, no_directory};
ghost use Rattle.refusals.specs.Refusals.{answer};
ghost use Rattle.refusals.specs.Numbers.{answer_of};
ghost use Rattle.container.specs.Checks.{header_checks};

use refusals::Refusal;
use sizes::Size;
use wire::{number_at, or_zero};

// Bytes of the header, and of a directory entry.
pub(crate) const HEADER: usize = 32;

pub(crate) const ENTRY: usize = 60;

// The major version that is read.
const MAJOR: u64 = 1;

#[tactic(auto, unfolding(crate::specs::Header::section_count))]
pub(crate) fn section_count(file: &[u8]) -> u64
    ensures { result ≡ section_count file.now }
{
    or_zero(number_at::<4>(file, 12))
}

// 1: file over 65,536 bytes.
#[tactic(auto, unfolding(crate::specs::Header::too_long))]
fn too_long(file: &[u8]) -> bool
    ensures { result ≡ too_long file.now }
{
    Size::FILE.most < file.len() as u64
}

// 2: under 32.
#[tactic(auto, unfolding(crate::specs::Header::too_short))]
fn too_short(file: &[u8]) -> bool
    ensures { result ≡ too_short file.now }
{
    (file.len() as u64) < Size::FILE.least
}

// 3: magic differs.
#[tactic(auto, unfolding(crate::specs::Header::other_magic))]
fn other_magic(file: &[u8]) -> bool
    ensures { result ≡ other_magic file.now }
{
    !wire::holds_at(file, 0, b"ARBORICX")
}

// 4: major not 1.
#[tactic(auto, unfolding(crate::specs::Header::other_major))]
fn other_major(file: &[u8]) -> bool
    ensures { result ≡ other_major file.now }
{
    or_zero(number_at::<2>(file, 8)) != MAJOR
}

// 5: section count outside 1 to 16, directory offset not 32, or directory past the end of file.
#[tactic(auto, unfolding(crate::specs::Header::no_directory, crate::specs::Header::directory_offset, lists::specs::Lists::any_of))]
fn no_directory(file: &[u8]) -> bool
    ensures { result ≡ no_directory file.now }
{
    let n = section_count(file);
    !Size::SECTIONS.allows(n)
        || or_zero(number_at::<8>(file, 24)) != HEADER as u64
        || file.len() < HEADER + ENTRY * n as usize
}

pub(crate) fn check_header(file: &[u8]) -> Result<(), Refusal>
    ensures { answer_of result ≡ answer (header_checks file.now) }
{
    if too_long(file) {
        return Err(Refusal::FileTooLong);
    }
    if too_short(file) {
        return Err(Refusal::FileTooShort);
    }
    if other_magic(file) {
        return Err(Refusal::OtherMagic);
    }
    if other_major(file) {
        return Err(Refusal::OtherMajor);
    }
    if no_directory(file) {
        return Err(Refusal::NoDirectory);
    }
    Ok(())
}
