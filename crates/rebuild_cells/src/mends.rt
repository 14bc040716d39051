// The mend of missing cells within a stripe: whole disks by their rebuild, other cells by their
// reduced equations.
ghost use Rattle.std.specs.Prelude.{◌≡◌, ◌+◌, ◌*◌, ◌≤◌, length};
ghost use Rattle.refusals.specs.StripeOf.{IsStripeOf};
ghost use Rattle.rebuild_cells.specs.Theory.Mending.{missing_cells, reduced_cells, mendable};
ghost use Rattle.rebuild_cells.specs.Listed.{ListedCells, Mended};
ghost use Rattle.rebuild_cells.specs.RowLists.{sums_of};

use super::missing_cells::{self, MAX_SETS};
use super::reduction::{self, Row};
use super::{equations, nearest, whole_disks};
use refusals::{Array, Geometry, Refusal};

// The sets that give each cell of a list; false if they do not give them all. What the rows then
// hold is unspecified.
fn reduce_cells(array: Array, cells: &[usize], rows: &mut [Row]) -> bool
    requires { ListedCells array.width array.disks cells.now × (length rows.old ≡ 2 * array.width) }
    ensures { (result ≡ mendable array.width array.disks cells.now) × (sums_of rows.new ≡ (reduced_cells array.width array.disks cells.now).left.sums) }
{
    equations::fill_rows(array, cells, rows);
    reduction::reduce(rows, cells.len())
}

// Mends the cells of a list if the others determine them. Refusal: 23.
fn mend_list(geometry: Geometry, cells: &[usize], stripe: &mut [u8]) -> Result<(), Refusal>
    requires { IsStripeOf geometry stripe.old × ListedCells geometry.array.width geometry.array.disks cells.now × (length cells.now ≤ 2 * geometry.array.width) }
    ensures { Mended geometry cells.now stripe.old stripe.new result }
{
    let mut room = [Row { word: 0, sum: 0 }; MAX_SETS];
    let rows = &mut room[..2 * geometry.array.width];
    if !reduce_cells(geometry.array, cells, rows) {
        return Err(Refusal::Undetermined);
    }
    nearest::mend_all(geometry, cells, rows, stripe);
    Ok(())
}

// The same, whole disks by their rebuild.
fn mend_listed(geometry: Geometry, cells: &[usize], stripe: &mut [u8]) -> Result<(), Refusal>
    requires { IsStripeOf geometry stripe.old × ListedCells geometry.array.width geometry.array.disks cells.now × (length cells.now ≤ 2 * geometry.array.width) }
    ensures { Mended geometry cells.now stripe.old stripe.new result }
{
    if whole_disks::mend_whole(geometry, cells, stripe) {
        return Ok(());
    }
    mend_list(geometry, cells, stripe)
}

// Mends the cells whose marks are not 0, if the others determine them. Refusal: 23, which leaves
// the stripe unchanged.
pub fn mend(geometry: Geometry, missing: &[u8], stripe: &mut [u8]) -> Result<(), Refusal>
    requires { IsStripeOf geometry stripe.old × (length missing.now ≡ geometry.array.width * (geometry.array.disks + 2)) }
    ensures { Mended geometry (missing_cells missing.now) stripe.old stripe.new result }
{
    // more unknowns than equations have no solution
    let cells = missing_cells::of_marks(missing, 2 * geometry.array.width).ok_or(
        Refusal::Undetermined,
    )?;
    mend_listed(geometry, cells.as_slice(), stripe)
}
