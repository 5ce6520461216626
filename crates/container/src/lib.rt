// The container of a bundle: its header, its directory, and where the two sections that it has to have lie (1 to 11).
#![tactic(auto)]

ghost use Rattle.std.specs.Prelude.{◌≡◌};
ghost use Rattle.refusals.specs.Numbers.{by_number};
ghost use Rattle.container.specs.Checks.{located};

use crate::directory::{check_directory, part_of, surveyed};
use crate::header::check_header;
use refusals::Refusal;
use wire::Part;

mod directory;
mod header;

// Where the manifest and the nodes lie in the file.
#[derive(Clone, Copy, Debug, PartialEq, Eq)]
pub struct Sections {
    pub manifest: Part,
    pub nodes: Part,
}

// 1 to 11, or the sections.
pub fn locate(file: &[u8]) -> Result<Sections, Refusal>
    ensures { by_number result ≡ located file.now }
{
    check_header(file)?;
    let s = surveyed(file);
    check_directory(file, s)?;
    Ok(Sections {
        manifest: part_of(s.manifest.first),
        nodes: part_of(s.nodes.first),
    })
}
