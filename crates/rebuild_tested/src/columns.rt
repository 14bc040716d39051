// The column of one lost disk from tested survivors: a data disk or P by the row sets, Q by our
// plan.
ghost use Rattle.std.specs.Prelude.{◌≡◌, true, ◌*◌, ◌≤◌, length};
ghost use Rattle.liberation.specs.Plans.{all_of};
ghost use Rattle.liberation.specs.Stripes.Stripes.{followed, column_of, rebuilt};
ghost use Rattle.liberation.specs.Scrub.Survivors.{fits};
ghost use Rattle.refusals.specs.StripeOf.{IsStripeOf};

use parity_sets::{MAX_COLUMNS, ParitySet};
use rebuild_one::LostDisk;
use stripe_cells::Offsets;

// A data disk or P by the row sets, as one run of bytes: the column becomes the XOR of the other
// columns but Q's.
fn column_by_rows(lost: LostDisk, stripe: &[u8], column: &mut [u8])
    requires { IsStripeOf lost.geometry stripe.now × (length column.old ≡ lost.geometry.array.width * lost.geometry.cell_size) × (lost.disk ≤ lost.geometry.array.disks) }
    ensures { column.new ≡ column_of lost.geometry.array.width lost.geometry.cell_size lost.disk (followed lost.geometry.array.width lost.geometry.array.disks lost.geometry.cell_size lost.disk (all_of lost.geometry.array.width 0 0) stripe.now) }
{
    let LostDisk { geometry, disk, .. } = lost;
    let mut list: Offsets<MAX_COLUMNS> = Offsets::new();
    list.push_on(geometry, ParitySet::Row(0), 0..disk);
    list.push_on(
        geometry,
        ParitySet::Row(0),
        disk + 1..geometry.array.disks + 1,
    );
    xor::gather_stretches(column, stripe, list.as_slice());
}

// A disk whose survivors are those of a clean stripe: every set gives the same bytes then, so the
// plan with the longest runs is followed, not the one with the fewest reads.
pub fn tested_column(lost: LostDisk, stripe: &[u8], column: &mut [u8])
    requires long { IsStripeOf lost.geometry stripe.now × (length column.old ≡ lost.geometry.array.width * lost.geometry.cell_size) }
    requires tested { fits lost.geometry.array.width lost.geometry.array.disks lost.geometry.cell_size lost.disk stripe.now ≡ true }
    ensures { column.new ≡ rebuilt lost.geometry.array.width lost.geometry.array.disks lost.geometry.cell_size lost.disk stripe.now }
{
    if lost.disk <= lost.geometry.array.disks {
        column_by_rows(lost, stripe, column);
    } else {
        lost.rebuild_column(stripe, column);
    }
}
