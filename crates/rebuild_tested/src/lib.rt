// The rebuild of one lost disk with tested survivors: only where they are those of a clean stripe
// is the column written.
#![tactic(auto)]

mod columns;

ghost use Rattle.std.specs.Prelude.{◌≡◌, not, length, IfOk};
ghost use Rattle.mathematics.specs.Choice.{first_of, when};
ghost use Rattle.liberation.specs.Scrub.Survivors.{fits};
ghost use Rattle.refusals.specs.Refused.{refused, answer_of};
ghost use Rattle.rebuild_one.specs.RebuildOneSays.{lengths_refusal};
ghost use Rattle.rebuild_tested.specs.Says.{TestedSays};

use rebuild_one::LostDisk;
use refusals::{Refusal, Shape};

// The lost disk of a call on a stripe and a column of these many bytes. The survivors are tested
// last, without a byte of the lost disk.
fn check_survivors(
    shape: Shape,
    lost: usize,
    stripe: &[u8],
    column: usize,
) -> Result<LostDisk, Refusal>
    ensures refusal { refused result ≡ first_of (lengths_refusal shape.width shape.disks shape.cell_size lost (length stripe.now) column) (when (not (fits shape.width shape.disks shape.cell_size lost stripe.now)) 19) }
    ensures numbers { IfOk result (λ l. (l.geometry.array.width ≡ shape.width) × (l.geometry.array.disks ≡ shape.disks) × (l.geometry.cell_size ≡ shape.cell_size) × (l.disk ≡ lost)) }
{
    let disk = LostDisk::of_call(shape, lost, stripe.len(), column)?;
    if scrub::disk_fits(disk.geometry, lost, stripe) {
        Ok(disk)
    } else {
        Err(Refusal::SurvivorsDisagree)
    }
}

// Rebuilds one lost disk into the column, if some clean stripe has all surviving cells. Refusals:
// 1, 13, 2, 3, 5, 19; a refused call leaves the column unchanged.
pub fn rebuild_tested(
    shape: Shape,
    lost: usize,
    stripe: &[u8],
    column: &mut [u8],
) -> Result<(), Refusal>
    ensures { TestedSays shape.width shape.disks shape.cell_size lost stripe.now column.old column.new (answer_of result) }
{
    let disk = check_survivors(shape, lost, stripe, column.len())?;
    columns::tested_column(disk, stripe, column);
    Ok(())
}
