// The calls for C and Rust that test the cells of a stripe: is it clean, which disk is
// inconsistent, a rebuild that tests the survivors.
// Each hands its arguments on to the proved call and promises what that call promises.
#![tactic(auto)]

ghost use Rattle.scrub.specs.CheckSays.{CheckSays};
ghost use Rattle.scrub.specs.ScrubSays.{ScrubSays};
ghost use Rattle.rebuild_tested.specs.Says.{TestedSays};

use refusals::{Answer, Shape};
use scrub::{Checked, Scrubbed};

// Is a lent stripe clean?
#[unsafe(no_mangle)]
pub extern "C" fn cuzhaveli_check_stripe(shape: Shape, stripe: &[u8]) -> Checked
    ensures { CheckSays shape.width shape.disks shape.cell_size stripe.now result }
{
    scrub::check_stripe(shape, stripe)
}

// Is a lent stripe clean, is one disk inconsistent with the others, or more than one?
#[unsafe(no_mangle)]
pub extern "C" fn cuzhaveli_scrub_stripe(shape: Shape, stripe: &[u8]) -> Scrubbed
    ensures { ScrubSays shape.width shape.disks shape.cell_size stripe.now result }
{
    scrub::scrub_stripe(shape, stripe)
}

// Rebuilds one lost disk into a column, if some clean stripe has all surviving cells.
#[unsafe(no_mangle)]
pub extern "C" fn cuzhaveli_rebuild_tested(
    shape: Shape,
    lost: usize,
    stripe: &[u8],
    column: &mut [u8],
) -> Answer
    ensures { TestedSays shape.width shape.disks shape.cell_size lost stripe.now column.old column.new result }
{
    rebuild_tested::rebuild_tested(shape, lost, stripe, column).into()
}
