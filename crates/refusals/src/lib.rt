// Document 01's list of refusals, and tables of them: which one answers, and the laws of that.
#![tactic(auto)]

ghost use Rattle.std.specs.Prelude.{◌≡◌};
ghost use Rattle.refusals.specs.Numbers.{refusal_number};

// Why a call refuses, by document 01's number.
#[derive(Clone, Copy, Debug, PartialEq, Eq)]
pub enum Refusal {
    FileTooLong = 1,
    FileTooShort = 2,
    OtherMagic = 3,
    OtherMajor = 4,
    NoDirectory = 5,
    CriticalSection = 6,
    CodedSection = 7,
    SectionOutside = 8,
    SectionRepeated = 9,
    SectionMissing = 10,
    DigestDiffers = 11,
    ManifestShape = 12,
    Unsupported = 13,
    ExportNames = 14,
    NodesShape = 15,
    HashWrong = 16,
    HashTwice = 17,
    ChildMissing = 18,
    Circle = 19,
    HashUnresolved = 20,
    NoRoom = 21,
    ExportsTooShort = 22,
    NoSlot = 23,
    Damaged = 24,
    NoExport = 25,
    TooManySteps = 40,
    TooDeep = 49,
}

impl From<Refusal> for u32 {
    ghost from_gives = { λ r n. n ≡ refusal_number r };

    fn from(r: Refusal) -> u32 {
        r as u32
    }
}
