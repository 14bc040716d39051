// The rebuild of missing cells, on any disks of a stripe, in place: whatever the other cells
// determine comes back. The equations of the missing cells are reduced, then solved.
#![tactic(auto)]

mod equations;
mod mends;
mod missing_cells;
mod nearest;
mod one_cell;
mod reduction;
mod whole_disks;

ghost use Rattle.std.specs.Prelude.{◌≡◌, not, ◌+◌, ◌*◌, eqb, IfOk};
ghost use Rattle.mathematics.specs.Choice.{when, first_of};
ghost use Rattle.liberation.specs.Sets.{shape_refusal};
ghost use Rattle.liberation.specs.Stripes.Stripes.{stripe_long};
ghost use Rattle.refusals.specs.Refused.{refused, answer_of};
ghost use Rattle.rebuild_cells.specs.Says.{RebuildCellsSays};
ghost use Rattle.rebuild_cells.specs.Checked.{IsChecked};

pub use mends::mend;
use refusals::{Geometry, Refusal, Shape};

// The geometry of a call with `marks` marks on a stripe of `long` bytes. Refusals: 1, 13, 2, 5.
fn check_call(shape: Shape, marks: usize, long: usize) -> Result<Geometry, Refusal>
    ensures refusal { refused result ≡ first_of (shape_refusal shape.width shape.disks shape.cell_size) (first_of (when (not (eqb marks (shape.width * (shape.disks + 2)))) 5) (when (not (eqb long (stripe_long shape.width shape.disks shape.cell_size))) 5)) }
    ensures geometry { IfOk result (λ g. IsChecked shape marks long g) }
{
    let geometry = Geometry::new(shape)?;
    refusals::check_length(marks, geometry.array.cells())?;
    refusals::check_length(long, geometry.stripe_bytes())?;
    Ok(geometry)
}

// Mends the cells whose marks are not 0, in place. Refusals: 1, 13, 2, 5, and 23 where the other
// cells do not determine them; a refused call leaves the stripe as it was.
pub fn rebuild_cells(shape: Shape, missing: &[u8], stripe: &mut [u8]) -> Result<(), Refusal>
    ensures { RebuildCellsSays shape.width shape.disks shape.cell_size missing.now stripe.old stripe.new (answer_of result) }
{
    let geometry = check_call(shape, missing.len(), stripe.len())?;
    mends::mend(geometry, missing, stripe)
}
