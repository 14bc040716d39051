// The refusals of a package by 14 and 11: the number of files and the sum of their lengths.
ghost use Rattle.std.specs.Prelude.{◌≡◌};
ghost use Rattle.mathematics.specs.Choice.{first_of};
ghost use Rattle.mathematics.specs.Sums.{total};
ghost use Rattle.refusals.specs.Refused.{refused};
ghost use Rattle.space.specs.Refusals.{files_refusal, package_refusal};

use refusals::Refusal;

// The most files of a package.
const MAX_FILES: usize = 4096;

// The most bytes of a package, all files together.
pub const MAX_PACKAGE: u64 = 1 << 48;

// Do the lengths add up to at most 2^48? Each is taken from what is left of that, so no sum wraps.
// Refusal: 11.
#[tactic(auto, using(crate::proofs::LeftLaws::left_next, crate::proofs::LeftLaws::left_none))]
fn check_bytes(lengths: &[u64]) -> Result<(), Refusal>
    ensures { refused result ≡ package_refusal (total lengths.now) }
{
    let mut left = MAX_PACKAGE;
    for bytes in lengths {
        left = left.checked_sub(*bytes).ok_or(Refusal::PackageTooLong)?;
    }
    Ok(())
}

// Has a package at most 4,096 files, and at most 2^48 bytes? Refusals: 14, 11.
pub fn check_package(lengths: &[u64]) -> Result<(), Refusal>
    ensures { refused result ≡ first_of (files_refusal lengths.now) (package_refusal (total lengths.now)) }
{
    if MAX_FILES < lengths.len() {
        return Err(Refusal::TooManyFiles);
    }
    check_bytes(lengths)
}
