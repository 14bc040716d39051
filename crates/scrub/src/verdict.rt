// What a scrub finds.
ghost use Rattle.std.specs.Prelude.{◌≡◌};
ghost use Rattle.scrub.specs.Verdicts.{verdict_number, verdict_disk};

// The stripe is clean, or this disk is inconsistent with the others, or more than one disk is.
#[derive(Clone, Copy, Debug, PartialEq, Eq)]
pub enum Verdict {
    Clean,
    OneDisk(usize),
    MoreThanOne,
}

impl Verdict {
    // Its number, as C gets it.
    pub fn number(self) -> u8
        ensures { result ≡ verdict_number self }
    {
        match self {
            Verdict::Clean => 0,
            Verdict::OneDisk(_) => 1,
            Verdict::MoreThanOne => 2,
        }
    }

    // The disk that is inconsistent, 0 where it is not one.
    pub fn disk(self) -> usize
        ensures { result ≡ verdict_disk self }
    {
        match self {
            Verdict::OneDisk(disk) => disk,
            Verdict::Clean | Verdict::MoreThanOne => 0,
        }
    }
}
