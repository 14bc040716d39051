// The cells of a stripe: the byte offsets of a parity set's cells, and one cell solved by its set.
#![tactic(auto)]

mod disk_cells;
mod lost_disks;
mod odd_cells;
mod odd_marks;
mod offsets;
mod surviving;

ghost use Rattle.std.specs.Prelude.{◌≡◌, ◌+◌, ◌≤◌};
ghost use Rattle.liberation.specs.Sets.{place};
ghost use Rattle.liberation.specs.Plans.{all_of};
ghost use Rattle.liberation.specs.Stripes.Stripes.{solved, followed};
ghost use Rattle.refusals.specs.StripeOf.{IsStripeOf};
ghost use Rattle.parity_sets.specs.ParitySets.{cells_of};
ghost use Rattle.stripe_cells.specs.Cells.{IsOrdinary};

pub use lost_disks::LostDisks;
pub use odd_cells::gather_odd;
pub use odd_marks::toggle_all;
pub use offsets::Offsets;
use parity_sets::{MAX_COLUMNS, ParitySet};
use refusals::Geometry;

// A set's ordinary cell, of this disk and row, becomes the XOR of the other cells of the set. What
// the list then holds is unspecified. Inlined, since most callers know the kind of the set.
#[inline(always)]
pub fn solve(
    geometry: Geometry,
    set: ParitySet,
    disk: usize,
    row: usize,
    stripe: &mut [u8],
    list: &mut Offsets<MAX_COLUMNS>,
)
    requires stripe_len { IsStripeOf geometry stripe.old }
    requires ordinary { IsOrdinary geometry.array set disk row }
    ensures { stripe.new ≡ solved geometry.cell_size (place geometry.array.width row disk) (cells_of geometry.array.width geometry.array.disks set) stripe.old }
{
    list.clear();
    list.push_others(geometry, set, disk);
    let to = (disk * geometry.array.width + row) * geometry.cell_size;
    list.gather(stripe, to, geometry.cell_size);
}

// All cells of a data disk or of P by the row sets, as one run of bytes: the column becomes the XOR
// of the other columns.
pub fn solve_rows(geometry: Geometry, disk: usize, stripe: &mut [u8])
    requires stripe_len { IsStripeOf geometry stripe.old }
    requires disk_bound { disk ≤ geometry.array.disks }
    ensures { stripe.new ≡ followed geometry.array.width geometry.array.disks geometry.cell_size disk (all_of geometry.array.width 0 0) stripe.old }
{
    let mut list: Offsets<MAX_COLUMNS> = Offsets::new();
    list.push_on(geometry, ParitySet::Row(0), 0..disk);
    list.push_on(
        geometry,
        ParitySet::Row(0),
        disk + 1..geometry.array.disks + 1,
    );
    let column = geometry.column_bytes();
    list.gather(stripe, disk * column, column);
}

// All cells of Q, each by its diagonal set.
pub fn solve_diagonals(geometry: Geometry, stripe: &mut [u8])
    requires { IsStripeOf geometry stripe.old }
    ensures { stripe.new ≡ followed geometry.array.width geometry.array.disks geometry.cell_size (geometry.array.disks + 1) (all_of geometry.array.width 1 0) stripe.old }
{
    let q = geometry.array.disks + 1;
    let mut list = Offsets::new();
    for number in 0..geometry.array.width {
        let set = ParitySet::Diagonal(number);
        solve(geometry, set, q, number, stripe, &mut list);
    }
}
