// The scrub of a stripe: is it clean, is one disk inconsistent with the others, or more than one?
// The stripe is only read.
#![tactic(auto)]

mod clean;
mod equations;
mod fit;
mod suspects;
mod verdict;

ghost use Rattle.std.specs.Prelude.{◌≡◌, IfOk};
ghost use Rattle.refusals.specs.Refused.{refused};
ghost use Rattle.refusals.specs.StripeSays.{stripe_refusal};
ghost use Rattle.scrub.specs.ScrubSays.{ScrubSays};
ghost use Rattle.scrub.specs.Verdicts.{IsVerdict};

pub use clean::{Checked, check_stripe};
pub use fit::disk_fits;
use refusals::{Answer, Geometry, Refusal, Shape};
pub use verdict::Verdict;

// The answer, the number of the verdict, and the disk's number where one disk is inconsistent, else
// 0.
#[repr(C)]
#[derive(Clone, Copy)]
pub struct Scrubbed {
    pub answer: Answer,
    pub verdict: u8,
    pub disk: usize,
}

// The verdict on a stripe. Refusals: 1, 13, 2, 5.
fn find_verdict(shape: Shape, stripe: &[u8]) -> Result<Verdict, Refusal>
    ensures refusal { refused result ≡ stripe_refusal shape.width shape.disks shape.cell_size stripe.now }
    ensures verdict { IfOk result (IsVerdict shape.width shape.disks shape.cell_size stripe.now) }
{
    let geometry = Geometry::of_stripe(shape, stripe.len())?;
    if clean::is_clean(geometry, stripe) {
        return Ok(Verdict::Clean);
    }
    match suspects::suspected(geometry, stripe) {
        Some(disk) => Ok(Verdict::OneDisk(disk)),
        None => Ok(Verdict::MoreThanOne),
    }
}

// Is a stripe clean, and if not, is there a disk whose cells alone can make it so? Refusals: 1, 13,
// 2, 5.
pub fn scrub_stripe(shape: Shape, stripe: &[u8]) -> Scrubbed
    ensures { ScrubSays shape.width shape.disks shape.cell_size stripe.now result }
{
    match find_verdict(shape, stripe) {
        Ok(verdict) => Scrubbed {
            answer: Answer::accepted(),
            verdict: verdict.number(),
            disk: verdict.disk(),
        },
        Err(refusal) => Scrubbed {
            answer: Answer::from(refusal),
            verdict: 0,
            disk: 0,
        },
    }
}
