// Why a call refuses, and the number that C sees. What a refusal means stands in specs/Numbers.antt, beside its number.
#![tactic(auto)]

ghost use Rattle.std.specs.Prelude.{◌≡◌};
ghost use Rattle.refusal.specs.Answers.{number_of, number_in, required};

#[derive(Clone, Copy, PartialEq, Eq, Debug)]
pub enum Refusal {
    Degree = 1,
    PointCount = 2,
    KnotCount = 3,
    KnotOrder = 4,
    Ends = 5,
    Repeats = 6,
    Range = 7,
    Parameter = 8,
    Insertion = 9,
    Full = 10,
    NotWhole = 11,
    NotInner = 12,
    NotRemovable = 13,
    Rectangle = 14,
    Room = 15,
    Ended = 16,
    SplinePoints = 17,
    JoinedRange = 18,
    Tag = 19,
    Length = 20,
    LeftOver = 21,
    Radius = 22,
    Unclamp = 23,
}

impl From<Refusal> for u32 {
    ghost from_gives = { λ refusal number. number ≡ number_of refusal };

    fn from(refusal: Refusal) -> u32 {
        refusal as u32
    }
}

// The number of an answer: 0 where nothing is refused.
pub fn number<T: Drop>(answer: Result<T, Refusal>) -> u32
    ensures answer { result ≡ number_in answer }
{
    match answer {
        Ok(_) => 0,
        Err(refusal) => refusal.into(),
    }
}

// `Ok` where a test passes, else the refusal that it stands for.
pub fn require(fine: bool, refusal: Refusal) -> Result<(), Refusal>
    ensures answer { result ≡ required fine refusal }
{
    if fine { Ok(()) } else { Err(refusal) }
}
