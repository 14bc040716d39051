// A group of data disks, added to every row sum and diagonal sum of a stripe in turn, so a cell
// that one of them reads is still in the cache when the other does.
ghost use Rattle.std.specs.Prelude.{◌+◌, ◌≤◌};
ghost use Rattle.refusals.specs.StripeOf.{IsStripeOf};
ghost use Rattle.encode.specs.Added.{SetsAdded};

use super::disk_group::DiskGroup;
use super::sets;
use parity_sets::{MAX_COLUMNS, ParitySet};
use stripe_cells::Offsets;

// `count` rows from `row` on and as many diagonals from `number` on, in turn. What the list then
// holds is unspecified.
fn add_sets(
    group: DiskGroup,
    row: usize,
    number: usize,
    count: usize,
    stripe: &mut [u8],
    list: &mut Offsets<MAX_COLUMNS>,
)
    requires stripe_len { IsStripeOf group.geometry stripe.old }
    requires numbered { (row + count ≤ group.geometry.array.width) × (number + count ≤ group.geometry.array.width) }
    ensures { SetsAdded group.geometry.array.width group.geometry.array.disks group.geometry.cell_size group.first group.end row number count stripe.old stripe.new }
{
    for j in 0..count {
        sets::add_set(group, ParitySet::Row(row + j), stripe, list);
        sets::add_set(group, ParitySet::Diagonal(number + j), stripe, list);
    }
}

// All rows and all diagonals. With a diagonal goes the row that it has on the group's third disk, so
// its cells are of rows that were just added or come next. No answer depends on it. What the list
// then holds is unspecified.
pub fn add_group(group: DiskGroup, stripe: &mut [u8], list: &mut Offsets<MAX_COLUMNS>)
    requires { IsStripeOf group.geometry stripe.old }
    ensures { SetsAdded group.geometry.array.width group.geometry.array.disks group.geometry.cell_size group.first group.end 0 0 group.geometry.array.width stripe.old stripe.new }
{
    let array = group.geometry.array;
    let first = parity_sets::row_on(array, 2, group.first);
    let left = array.width - first;
    add_sets(group, first, 0, left, stripe, list);
    add_sets(group, 0, left, first, stripe, list);
}
