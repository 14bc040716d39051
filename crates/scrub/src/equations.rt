// The offsets of the survivors of a disk's equation, at most three sets, in one list.
ghost use Rattle.std.specs.Prelude.{◌≡◌, ◌++◌, ◌+◌, ◌≤◌, ◌<◌, length};
ghost use Rattle.liberation.specs.Sets.{diagonal_set, lost_in, surviving_in};
ghost use Rattle.liberation.specs.Scrub.Survivors.{row_sets, equation};
ghost use Rattle.stripe_cells.specs.Offsets.{scaled};

use parity_sets::{MAX_COLUMNS, ParitySet};
use refusals::Geometry;
use stripe_cells::{LostDisks, Offsets};

// The most cells of three sets.
pub const THREE_SETS: usize = 3 * MAX_COLUMNS;

// Appends those of the row sets of the rows that diagonal `number` has on a data disk, but their
// cells there: one set, and a second one where the diagonal's extra cell is on that disk.
fn push_rows(geometry: Geometry, disk: usize, number: usize, list: &mut Offsets<THREE_SETS>)
    requires numbered { (number < geometry.array.width) × (disk < geometry.array.disks) }
    requires room { length list.old ≤ 33 }
    ensures { list.new ≡ list.old ++ scaled geometry.cell_size (surviving_in geometry.array.width disk (row_sets geometry.array.width geometry.array.disks (lost_in geometry.array.width disk (diagonal_set geometry.array.width geometry.array.disks number)))) }
{
    let array = geometry.array;
    let lost = LostDisks::one(disk);
    let row = parity_sets::row_on(array, number, disk);
    list.push_surviving(geometry, ParitySet::Row(row), lost);
    if number != 0 && parity_sets::extra_disk(array, number) == disk {
        list.push_surviving(geometry, ParitySet::Row(array.width - 1 - number), lost);
    }
}

// Leaves the survivors of an equation alone in the list. A row set for Q; a diagonal set for P; for
// a data disk a diagonal set and the row sets of its rows there.
pub fn list_equation(geometry: Geometry, disk: usize, number: usize, list: &mut Offsets<THREE_SETS>)
    requires { (number < geometry.array.width) × (disk < geometry.array.disks + 2) }
    ensures { list.new ≡ scaled geometry.cell_size (surviving_in geometry.array.width disk (equation geometry.array.width geometry.array.disks disk number)) }
{
    let disks = geometry.array.disks;
    list.clear();
    if disk == disks + 1 {
        list.push_surviving(geometry, ParitySet::Row(number), LostDisks::one(disk));
        return;
    }
    list.push_surviving(geometry, ParitySet::Diagonal(number), LostDisks::one(disk));
    if disk < disks {
        push_rows(geometry, disk, number, list);
    }
}
