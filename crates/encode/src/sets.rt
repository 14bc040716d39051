// A group of data disks, added to the parity cell of one set of a stripe.
ghost use Rattle.std.specs.Prelude.{◌≡◌, [], ◌∷◌, ◌++◌, ◌≤◌, ◌<◌, eqb, length};
ghost use Rattle.mathematics.specs.Choice.{pick};
ghost use Rattle.refusals.specs.StripeOf.{IsStripeOf};
ghost use Rattle.parity_sets.specs.ParitySets.{kind_of, number_of};
ghost use Rattle.stripe_cells.specs.Offsets.{scaled};
ghost use Rattle.encode.specs.Extras.{extra_between};
ghost use Rattle.encode.specs.Groups.{parity_cell, added_set};

use super::disk_group::DiskGroup;
use parity_sets::{MAX_COLUMNS, ParitySet};
use refusals::Array;
use stripe_cells::Offsets;

// The place of a set's parity cell: on P for a row set, on Q for a diagonal set.
fn parity_cell(array: Array, set: ParitySet) -> usize
    requires { number_of set < array.width }
    ensures { (result ≡ parity_cell array.width array.disks (kind_of set) (number_of set)) × (result ≤ 1023) }
{
    match set {
        ParitySet::Row(number) => array.disks * array.width + number,
        ParitySet::Diagonal(number) => (array.disks + 1) * array.width + number,
    }
}

// Leaves the offset of a parity cell alone in the list, but nothing in the first group, where the sum
// begins.
fn start_list(group: DiskGroup, to: usize, list: &mut Offsets<MAX_COLUMNS>)
    ensures { list.new ≡ pick (eqb group.first 0) [] (to ∷ []) }
{
    list.clear();
    if group.first != 0 {
        list.push(to);
    }
}

// Appends the offset of a set's extra cell, if it has one on the group's disks.
fn push_extra(group: DiskGroup, set: ParitySet, list: &mut Offsets<MAX_COLUMNS>)
    requires numbered { number_of set < group.geometry.array.width }
    requires room { length list.old < 33 }
    ensures { list.new ≡ list.old ++ scaled group.geometry.cell_size (extra_between group.geometry.array.width group.first group.end (kind_of set) (number_of set)) }
{
    let array = group.geometry.array;
    match set {
        ParitySet::Row(_) => {}
        ParitySet::Diagonal(number) => {
            let disk = parity_sets::extra_disk(array, number);
            if number != 0 && group.first <= disk && disk < group.end {
                let cell = disk * array.width + (array.width - 1 - number);
                list.push(cell * group.geometry.cell_size);
            }
        }
    }
}

// The set's parity cell gets its cells on the group's disks added; in the first group it becomes
// their sum. What the list then holds is unspecified.
pub fn add_set(group: DiskGroup, set: ParitySet, stripe: &mut [u8], list: &mut Offsets<MAX_COLUMNS>)
    requires stripe_len { IsStripeOf group.geometry stripe.old }
    requires numbered { number_of set < group.geometry.array.width }
    ensures { stripe.new ≡ added_set group.geometry.array.width group.geometry.array.disks group.geometry.cell_size group.first group.end (kind_of set) (number_of set) stripe.old }
{
    let geometry = group.geometry;
    let to = parity_cell(geometry.array, set) * geometry.cell_size;
    start_list(group, to, list);
    list.push_on(geometry, set, group.first..group.end);
    push_extra(group, set, list);
    xor_in_place::gather_within(stripe, to, geometry.cell_size, list.as_slice());
}
