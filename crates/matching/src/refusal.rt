ghost use Rattle.std.specs.Prelude.{◌≡◌};
ghost use Rattle.matching.specs.Results.{number_of};

// Why a call is refused. C, and whoever reads a refusal in the documents, knows each by its number, 1 to 19 in this order.
#[derive(Clone, Copy, Debug, PartialEq, Eq)]
pub enum Refusal {
    UnknownMethod,
    NoPhrase,
    LongPhrase,
    LongText,
    ShortScratch,
    ShortBuffer,
    CutField,
    WrongTag,
    BadField,
    LongBook,
    ShortEntries,
    NoOccurrence,
    LongCue,
    UnknownPage,
    NotForward,
    BadDate,
    BadStretch,
    BadList,
    NotAllowed,
}

impl From<Refusal> for u32 {
    ghost from_gives = { λ r n. n ≡ number_of r };

    fn from(refusal: Refusal) -> u32 {
        match refusal {
            Refusal::UnknownMethod => 1,
            Refusal::NoPhrase => 2,
            Refusal::LongPhrase => 3,
            Refusal::LongText => 4,
            Refusal::ShortScratch => 5,
            Refusal::ShortBuffer => 6,
            Refusal::CutField => 7,
            Refusal::WrongTag => 8,
            Refusal::BadField => 9,
            Refusal::LongBook => 10,
            Refusal::ShortEntries => 11,
            Refusal::NoOccurrence => 12,
            Refusal::LongCue => 13,
            Refusal::UnknownPage => 14,
            Refusal::NotForward => 15,
            Refusal::BadDate => 16,
            Refusal::BadStretch => 17,
            Refusal::BadList => 18,
            Refusal::NotAllowed => 19,
        }
    }
}
