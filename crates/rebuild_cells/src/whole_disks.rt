// Missing cells that are all cells of one disk or of two: they are mended by the rebuild of the
// disks, which needs no equations.
ghost use Rattle.std.specs.Prelude.{◌≡◌, true, ◌+◌, ◌*◌, ◌<◌, ◌≤◌, length, get_or, IfSome};
ghost use Rattle.refusals.specs.StripeOf.{IsStripeOf};
ghost use Rattle.rebuild_cells.specs.Listed.{ListedCells, RunFrom, WholeMended};

use refusals::{Array, Geometry};

// Are the cells of the list start, start + 1 and so on? Where they are not, nothing is promised: no
// result depends on it.
fn is_run(cells: &[usize], start: usize) -> bool
    requires { (length cells.now ≤ 62) × (start ≤ 1023) }
    ensures { result ≡ true → RunFrom 0 (length cells.now) start cells.now }
{
    for (i, &cell) in cells.iter().enumerate() {
        if cell != start + i {
            return false;
        }
    }
    true
}

// The disk whose cells are those of the list, if they are those of one disk.
fn whole_disk(array: Array, cells: &[usize]) -> Option<usize>
    requires { (length cells.now ≡ array.width) × (get_or cells.now 0 0 < array.width * (array.disks + 2)) }
    ensures { IfSome result (λ d. (d < array.disks + 2) × RunFrom 0 array.width (d * array.width) cells.now) }
{
    let disk = cells[0] / array.width;
    if is_run(cells, disk * array.width) {
        return Some(disk);
    }
    None
}

// A data disk or P by the row sets, Q by the diagonals.
fn mend_disk(geometry: Geometry, cells: &[usize], stripe: &mut [u8]) -> bool
    requires { IsStripeOf geometry stripe.old × ListedCells geometry.array.width geometry.array.disks cells.now × (length cells.now ≡ geometry.array.width) }
    ensures { WholeMended geometry.array.width geometry.array.disks geometry.cell_size cells.now stripe.old stripe.new result }
{
    let Some(disk) = whole_disk(geometry.array, cells) else {
        return false;
    };
    if disk <= geometry.array.disks {
        stripe_cells::solve_rows(geometry, disk, stripe);
    } else {
        stripe_cells::solve_diagonals(geometry, stripe);
    }
    true
}

// Two disks.
fn mend_pair(geometry: Geometry, cells: &[usize], stripe: &mut [u8]) -> bool
    requires { IsStripeOf geometry stripe.old × ListedCells geometry.array.width geometry.array.disks cells.now × (length cells.now ≡ 2 * geometry.array.width) }
    ensures { WholeMended geometry.array.width geometry.array.disks geometry.cell_size cells.now stripe.old stripe.new result }
{
    let (former, latter) = cells.split_at(geometry.array.width);
    let Some(first) = whole_disk(geometry.array, former) else {
        return false;
    };
    let Some(second) = whole_disk(geometry.array, latter) else {
        return false;
    };
    rebuild_two::solve_pair(geometry, first, second, stripe);
    true
}

// Mends the cells of a list if they are all cells of one disk or of two; else the stripe stays
// unchanged.
pub fn mend_whole(geometry: Geometry, cells: &[usize], stripe: &mut [u8]) -> bool
    requires { IsStripeOf geometry stripe.old × ListedCells geometry.array.width geometry.array.disks cells.now }
    ensures { WholeMended geometry.array.width geometry.array.disks geometry.cell_size cells.now stripe.old stripe.new result }
{
    if cells.len() == geometry.array.width {
        mend_disk(geometry, cells, stripe)
    } else if cells.len() == 2 * geometry.array.width {
        mend_pair(geometry, cells, stripe)
    } else {
        false
    }
}
