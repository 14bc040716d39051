// An array within the limits, and the bytes of its stripes. Whoever has one of these values need
// test its numbers no more.
ghost use Rattle.std.specs.Prelude.{◌≡◌, true, ◌+◌, ◌*◌, ◌≤◌, ◌<◌, eqb, not, length, IfOk};
ghost use Rattle.mathematics.specs.Choice.{first_of, when};
ghost use Rattle.liberation.specs.Sets.{is_width, array_refusal, plan_refusal, disk_refusal, shape_refusal, numbers_refusal};
ghost use Rattle.liberation.specs.Limits.{largest_cell};
ghost use Rattle.liberation.specs.Stripes.Stripes.{stripe_long};
ghost use Rattle.refusals.specs.Refused.{refused};

use super::{Refusal, Shape, limits};

// The width, which is also the number of rows, and the data disks of an array that refusals 1 and 13
// leave.
#[derive(Clone, Copy)]
pub struct Array {
    pub width: usize,
    pub disks: usize,
    pub ghost one_of_ten: { is_width width ≡ true },
    pub ghost some: { 0 < width },
    pub ghost widest: { width ≤ 31 },
    pub ghost two: { 2 ≤ disks },
    pub ghost within: { disks ≤ width },
}

impl Array {
    // The array of this width and these data disks. Refusals: 1, 13.
    pub fn new(width: usize, disks: usize) -> Result<Array, Refusal>
        ensures refusal { refused result ≡ array_refusal width disks }
        ensures numbers { IfOk result (λ a. (a.width ≡ width) × (a.disks ≡ disks)) }
    {
        limits::check_width(width)?;
        limits::check_disks(width, disks)?;
        Ok(Array { width, disks })
    }

    // The same, of which this is a disk. Refusals: 1, 13, 3.
    pub fn with_disk(width: usize, disks: usize, disk: usize) -> Result<Array, Refusal>
        ensures refusal { refused result ≡ plan_refusal width disks disk }
        ensures numbers { IfOk result (λ a. (a.width ≡ width) × (a.disks ≡ disks) × (disk ≤ disks + 1)) }
    {
        let array = Array::new(width, disks)?;
        limits::check_disk(disks, disk)?;
        Ok(array)
    }

    // Is this a data disk, P or Q? Refusal: 3.
    pub fn check_disk(self, disk: usize) -> Result<(), Refusal>
        ensures { refused result ≡ disk_refusal self.disks disk }
    {
        limits::check_disk(self.disks, disk)
    }

    // The cells of a stripe.
    pub fn cells(self) -> usize
        ensures { (result ≡ self.width * (self.disks + 2)) × (result ≤ 1023) }
    {
        self.width * (self.disks + 2)
    }
}

// An array, and the bytes of its cells, or of the pieces of its units.
#[derive(Clone, Copy)]
pub struct Geometry {
    pub array: Array,
    pub cell_size: usize,
    pub ghost bytes: { 0 < cell_size },
    pub ghost small: { cell_size ≤ largest_cell },
}

impl Geometry {
    // The array and the cells of this shape. Refusals: 1, 13, 2.
    pub fn new(shape: Shape) -> Result<Geometry, Refusal>
        ensures refusal { refused result ≡ shape_refusal shape.width shape.disks shape.cell_size }
        ensures numbers { IfOk result (λ g. (g.array.width ≡ shape.width) × (g.array.disks ≡ shape.disks) × (g.cell_size ≡ shape.cell_size)) }
    {
        let array = Array::new(shape.width, shape.disks)?;
        limits::check_cell_size(shape.cell_size)?;
        Ok(Geometry {
            array,
            cell_size: shape.cell_size,
        })
    }

    // The same, of which this is a disk. Refusals: 1, 13, 2, 3.
    pub fn with_disk(shape: Shape, disk: usize) -> Result<Geometry, Refusal>
        ensures refusal { refused result ≡ numbers_refusal shape.width shape.disks shape.cell_size disk }
        ensures numbers { IfOk result (λ g. (g.array.width ≡ shape.width) × (g.array.disks ≡ shape.disks) × (g.cell_size ≡ shape.cell_size) × (disk ≤ shape.disks + 1)) }
    {
        let geometry = Geometry::new(shape)?;
        limits::check_disk(shape.disks, disk)?;
        Ok(geometry)
    }

    // The array and the cells of this shape, for a stripe of `long` bytes. Refusals: 1, 13, 2, 5.
    pub fn of_stripe(shape: Shape, long: usize) -> Result<Geometry, Refusal>
        ensures refusal { refused result ≡ first_of (shape_refusal shape.width shape.disks shape.cell_size) (when (not (eqb long (stripe_long shape.width shape.disks shape.cell_size))) 5) }
        ensures numbers { IfOk result (λ g. (g.array.width ≡ shape.width) × (g.array.disks ≡ shape.disks) × (g.cell_size ≡ shape.cell_size)) }
    {
        let stripes = Geometry::new(shape)?;
        limits::check_length(long, stripes.stripe_bytes())?;
        Ok(stripes)
    }

    // The bytes of a column: the cells of a disk.
    pub fn column_bytes(self) -> usize
        ensures { (result ≡ self.array.width * self.cell_size) × (result ≤ 1015808) }
    {
        self.array.width * self.cell_size
    }

    // The bytes of a stripe.
    pub fn stripe_bytes(self) -> usize
        ensures { (result ≡ stripe_long self.array.width self.array.disks self.cell_size) × (result ≤ 33521664) }
    {
        (self.array.disks + 2) * self.column_bytes()
    }
}
