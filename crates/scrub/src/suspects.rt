// The search for the disk whose cells alone can make a dirty stripe clean: disk by disk, until one
// fits. The stripe is only read.
ghost use Rattle.std.specs.Prelude.{◌≡◌, ◌+◌, ◌≤◌, ◌<◌, IfSome, MatchOption};
ghost use Rattle.liberation.specs.Scrub.Survivors.{suspect};
ghost use Rattle.parity_sets.specs.ParitySets.{number_of};
ghost use Rattle.refusals.specs.StripeOf.{IsStripeOf};

use super::equations::THREE_SETS;
use super::fit;
use parity_sets::ParitySet;
use refusals::{Array, Geometry};
use stripe_cells::Offsets;

// Which equation of a disk is tested first. No answer depends on it.
#[derive(Clone, Copy, Debug, PartialEq, Eq)]
enum FirstTest {
    // The one that has a set that is not clean.
    Dirty,
    // The one that has a diagonal whose extra cell is on the disk. Where every cell of one disk has
    // changed by the same bytes, the two sets of most equations cancel, but the three of this one do
    // not.
    Extra,
}

impl FirstTest {
    // The other one.
    fn other(self) -> FirstTest {
        match self {
            FirstTest::Dirty => FirstTest::Extra,
            FirstTest::Extra => FirstTest::Dirty,
        }
    }
}

// A set of a dirty stripe that is not clean. No answer depends on it, so its bound is all that is
// promised. What the list then holds is unspecified.
fn dirty_set(geometry: Geometry, stripe: &[u8], list: &mut Offsets<THREE_SETS>) -> Option<ParitySet>
    requires { IsStripeOf geometry stripe.now }
    ensures { IfSome result (λ set. number_of set < geometry.array.width) }
{
    let width = geometry.array.width;
    let disks = geometry.array.disks;
    let row = fit::equations_passed(geometry, disks + 1, 0, stripe, list);
    if row < width {
        return Some(ParitySet::Row(row));
    }
    let diagonal = fit::equations_passed(geometry, disks, 0, stripe, list);
    if diagonal < width {
        return Some(ParitySet::Diagonal(diagonal));
    }
    None
}

// The number of the disk's equation that has this set, or of another one.
fn dirty_number(array: Array, disk: usize, dirty: Option<ParitySet>) -> usize
    requires { IfSome dirty (λ set. number_of set < array.width) }
    ensures { result < array.width }
{
    match dirty {
        Some(ParitySet::Diagonal(number)) => number,
        Some(ParitySet::Row(row)) if disk < array.disks => parity_sets::diagonal_of(
            array, disk, row,
        ),
        Some(ParitySet::Row(row)) => row,
        None => 0,
    }
}

// The number of the diagonal whose extra cell is on a data disk; of another disk any number.
fn extra_number(array: Array, disk: usize) -> usize
    requires { disk ≤ array.width + 1 }
    ensures { result < array.width }
{
    let half = disk >> 1;
    if half + half == disk {
        return parity_sets::diagonal_of(array, half, 0);
    }
    if array.width <= disk {
        return 0;
    }
    (array.width - disk) >> 1
}

// The number of the equation of a disk that is tested first.
fn first_number(array: Array, disk: usize, dirty: Option<ParitySet>, first: FirstTest) -> usize
    requires { (disk ≤ array.width + 1) × IfSome dirty (λ set. number_of set < array.width) }
    ensures { result < array.width }
{
    match first {
        FirstTest::Dirty => dirty_number(array, disk, dirty),
        FirstTest::Extra => extra_number(array, disk),
    }
}

// The first disk that fits. Where the first equation of a disk did not refuse it, that of the next
// one is chosen the other way. What the list then holds is unspecified.
fn first_fit(
    geometry: Geometry,
    dirty: Option<ParitySet>,
    stripe: &[u8],
    list: &mut Offsets<THREE_SETS>,
) -> Option<usize>
    requires stripe_len { IsStripeOf geometry stripe.now }
    requires numbered { IfSome dirty (λ set. number_of set < geometry.array.width) }
    ensures { MatchOption result (geometry.array.disks + 2 ≤ suspect geometry.array.width geometry.array.disks geometry.cell_size stripe.now) (λ d. (d < geometry.array.disks + 2) × (d ≡ suspect geometry.array.width geometry.array.disks geometry.cell_size stripe.now)) }
{
    let array = geometry.array;
    let mut first = FirstTest::Dirty;
    for disk in 0..array.disks + 2 {
        let from = first_number(array, disk, dirty, first);
        let passed = fit::equations_passed(geometry, disk, from, stripe, list);
        if passed == array.width {
            return Some(disk);
        }
        if passed > 0 {
            first = first.other();
        }
    }
    None
}

// The same of a dirty stripe, with one list for all equations.
pub fn suspected(geometry: Geometry, stripe: &[u8]) -> Option<usize>
    requires { IsStripeOf geometry stripe.now }
    ensures { MatchOption result (geometry.array.disks + 2 ≤ suspect geometry.array.width geometry.array.disks geometry.cell_size stripe.now) (λ d. (d < geometry.array.disks + 2) × (d ≡ suspect geometry.array.width geometry.array.disks geometry.cell_size stripe.now)) }
{
    let mut list = Offsets::new();
    let dirty = dirty_set(geometry, stripe, &mut list);
    first_fit(geometry, dirty, stripe, &mut list)
}
