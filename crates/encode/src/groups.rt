// Encoding a stripe by groups of data disks, one added after the other.
ghost use Rattle.std.specs.Prelude.{◌≡◌};
ghost use Rattle.liberation.specs.Stripes.Stripes.{encoded};
ghost use Rattle.refusals.specs.StripeOf.{IsStripeOf};

use super::disk_group::DiskGroup;
use super::sums;
use refusals::Geometry;
use stripe_cells::Offsets;

// Writes P and Q of a stripe, group by group.
pub fn encode_groups(geometry: Geometry, stripe: &mut [u8])
    requires { IsStripeOf geometry stripe.old }
    ensures { stripe.new ≡ encoded geometry.array.width geometry.array.disks geometry.cell_size stripe.old }
{
    let mut list = Offsets::new();
    let mut first = 0;
    while first < geometry.array.disks {
        let group = DiskGroup::from_disk(geometry, first);
        sums::add_group(group, stripe, &mut list);
        first = group.end;
    }
}
