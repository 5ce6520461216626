// Document 01's sizes: how much of each thing a bundle has.
#![tactic(auto)]

ghost use Rattle.std.specs.Prelude.{◌≡◌};
ghost use Rattle.sizes.specs.Sizes.{within};

// The least and the most of something.
#[derive(Clone, Copy, Debug, PartialEq, Eq)]
pub struct Size {
    pub least: u64,
    pub most: u64,
}

// Bytes of a hash.
pub const HASH: usize = 32;

impl Size {
    // Bytes of a file; the least is a header's.
    pub const FILE: Size = Size {
        least: 32,
        most: 65536,
    };

    pub const SECTIONS: Size = Size { least: 1, most: 16 };

    pub const CAPABILITIES: Size = Size { least: 0, most: 0 };

    // What the shape of a count allows where no size is asked: as much as a u32 holds.
    pub const ANY_COUNT: Size = Size {
        least: 0,
        most: 4294967295,
    };

    pub const ROOTS: Size = Size { least: 1, most: 16 };

    pub const EXPORTS: Size = Size { least: 1, most: 32 };

    // Metadata fields, and extension fields.
    pub const FIELDS: Size = Size { least: 0, most: 16 };

    // Bytes of an export's name.
    pub const NAME: Size = Size { least: 1, most: 64 };

    pub const NODES: Size = Size {
        least: 1,
        most: 512,
    };

    // Whether a count is one that the size allows.
    #[tactic(auto, unfolding(crate::specs::Sizes::within))]
    pub fn allows(self, n: u64) -> bool
        ensures { result ≡ within self n }
    {
        self.least <= n && n <= self.most
    }
}
