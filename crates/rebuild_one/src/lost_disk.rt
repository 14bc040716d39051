// A lost disk of an array, and the numbers of a call on it.
ghost use Rattle.std.specs.Prelude.{◌≡◌, ◌+◌, ◌*◌, ◌≤◌, not, eqb, IfOk};
ghost use Rattle.mathematics.specs.Choice.{first_of, when};
ghost use Rattle.liberation.specs.Sets.{numbers_refusal};
ghost use Rattle.liberation.specs.Stripes.Stripes.{stripe_long};
ghost use Rattle.refusals.specs.Refused.{refused};
ghost use Rattle.rebuild_one.specs.RebuildOneSays.{lengths_refusal};

use refusals::{Geometry, Refusal, Shape};

// A data disk, P or Q.
#[derive(Clone, Copy)]
pub struct LostDisk {
    pub geometry: Geometry,
    pub disk: usize,
    pub ghost is_disk: { disk ≤ geometry.array.disks + 1 },
}

impl LostDisk {
    // This disk of the array of this shape. Refusals: 1, 13, 2, 3.
    pub fn new(shape: Shape, disk: usize) -> Result<LostDisk, Refusal>
        ensures refusal { refused result ≡ numbers_refusal shape.width shape.disks shape.cell_size disk }
        ensures numbers { IfOk result (λ l. (l.geometry.array.width ≡ shape.width) × (l.geometry.array.disks ≡ shape.disks) × (l.geometry.cell_size ≡ shape.cell_size) × (l.disk ≡ disk)) }
    {
        let geometry = Geometry::new(shape)?;
        geometry.array.check_disk(disk)?;
        Ok(LostDisk { geometry, disk })
    }

    // Have the stripe and the column the lengths of a rebuild? Refusal: 5.
    pub fn check_lengths(self, stripe: usize, column: usize) -> Result<(), Refusal>
        ensures { refused result ≡ first_of (when (not (eqb stripe (stripe_long self.geometry.array.width self.geometry.array.disks self.geometry.cell_size))) 5) (when (not (eqb column (self.geometry.array.width * self.geometry.cell_size))) 5) }
    {
        refusals::check_length(stripe, self.geometry.stripe_bytes())?;
        refusals::check_length(column, self.geometry.column_bytes())
    }

    // The lost disk of a call on a stripe and a column of these many bytes. Refusals: 1, 13, 2, 3, 5.
    pub fn of_call(
        shape: Shape,
        disk: usize,
        stripe: usize,
        column: usize,
    ) -> Result<LostDisk, Refusal>
        ensures refusal { refused result ≡ lengths_refusal shape.width shape.disks shape.cell_size disk stripe column }
        ensures numbers { IfOk result (λ l. (l.geometry.array.width ≡ shape.width) × (l.geometry.array.disks ≡ shape.disks) × (l.geometry.cell_size ≡ shape.cell_size) × (l.disk ≡ disk)) }
    {
        let lost = LostDisk::new(shape, disk)?;
        lost.check_lengths(stripe, column)?;
        Ok(lost)
    }
}
