// Why a call is refused, by the names and numbers that the header gives.
ghost use Rattle.std.specs.Prelude.{◌≡◌};
ghost use Rattle.refusals.specs.Refused.{number_of};

// 1 to 22 of documents 01 and 02, 23 of missing cells, 24 to 26 of units and images.
#[derive(Clone, Copy, Debug, PartialEq, Eq)]
pub enum Refusal {
    BadWidth = 1,
    BadCellSize = 2,
    NoSuchDisk = 3,
    SameDisk = 4,
    BadLength = 5,
    StepRange = 6,
    StepSet = 7,
    StepRepeated = 8,
    StepEarly = 9,
    NotNext = 10,
    PackageTooLong = 11,
    BadText = 12,
    BadDisks = 13,
    TooManyFiles = 14,
    NoSuchRow = 15,
    BadRate = 16,
    TooManyBytes = 17,
    NoSuchServer = 18,
    SurvivorsDisagree = 19,
    NoSuchArray = 20,
    DiskUnchanged = 21,
    BadPlanText = 22,
    Undetermined = 23,
    DoesNotFit = 24,
    BadUnit = 25,
    NoSuchPlace = 26,
}

impl Refusal {
    // Its number in an answer.
    pub fn number(self) -> u8
        ensures { result ≡ number_of self }
    {
        self as u8
    }
}
