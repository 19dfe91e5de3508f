// Why a call is refused, and the first reason that holds.
ghost use Rattle.std.specs.Prelude.{◌≡◌};
ghost use Rattle.lend.specs.Refusals.{number_of, answer_of, first_of};

// The reasons of the table of numbers, each by its name; number 0 is none of them, since what is done is an `Ok`.
#[derive(Clone, Copy, Debug, PartialEq, Eq)]
pub enum Refusal {
    Unsound,
    MemoryLength,
    NoSpace,
    NotLive,
    NoPage,
    BadRights,
    InvalidRange,
    UnequalRanges,
    ShutSpace,
    AlreadyLive,
    NotHeld,
    MissingRights,
    SpaceOnLine,
    SourceBelowTaker,
    TakerBelowSource,
    MalformedLine,
    MalformedListing,
    DisorderedListing,
    ShortBuffer,
}

// The number in the table.
impl From<Refusal> for u32 {
    ghost from_gives = { λ r n. n ≡ number_of r };

    fn from(refusal: Refusal) -> u32 {
        match refusal {
            Refusal::Unsound => 1,
            Refusal::MemoryLength => 2,
            Refusal::NoSpace => 3,
            Refusal::NotLive => 4,
            Refusal::NoPage => 5,
            Refusal::BadRights => 6,
            Refusal::InvalidRange => 7,
            Refusal::UnequalRanges => 8,
            Refusal::ShutSpace => 9,
            Refusal::AlreadyLive => 10,
            Refusal::NotHeld => 11,
            Refusal::MissingRights => 12,
            Refusal::SpaceOnLine => 13,
            Refusal::SourceBelowTaker => 14,
            Refusal::TakerBelowSource => 15,
            Refusal::MalformedLine => 16,
            Refusal::MalformedListing => 17,
            Refusal::DisorderedListing => 18,
            Refusal::ShortBuffer => 20,
        }
    }
}

// The first refusal whose test holds; with none the call goes on.
pub fn first_refusal(cases: &[(bool, Refusal)]) -> Result<(), Refusal>
    ensures { answer_of result ≡ first_of cases.now }
{
    for &(holds, refusal) in cases {
        if holds {
            return Err(refusal);
        }
    }
    Ok(())
}
