// The data cell that an update writes, and where it is among the cells of its stripe.
ghost use Rattle.std.specs.Prelude.{◌≡◌, ◌+◌, ◌≤◌, ◌<◌};
ghost use Rattle.liberation.specs.Sets.{place};
ghost use Rattle.liberation.specs.Plans.{diagonal_of};

use refusals::Geometry;

// A data cell, by its row and its data disk.
#[derive(Clone, Copy)]
pub struct Target {
    pub geometry: Geometry,
    pub row: usize,
    pub disk: usize,
    pub ghost in_rows: { row < geometry.array.width },
    pub ghost of_data: { disk < geometry.array.disks },
}

impl Target {
    // Its place: columns lie one after another.
    pub fn place(self) -> usize
        ensures { (result ≡ place self.geometry.array.width self.row self.disk) × (result ≤ 991) }
    {
        self.disk * self.geometry.array.width + self.row
    }

    // The place of the P cell of its row.
    pub fn row_parity(self) -> usize
        ensures { (result ≡ place self.geometry.array.width self.row self.geometry.array.disks) × (result ≤ 991) }
    {
        self.geometry.array.disks * self.geometry.array.width + self.row
    }

    // The number of the diagonal of which it is an ordinary cell.
    pub fn diagonal(self) -> usize
        ensures { (result ≡ diagonal_of self.geometry.array.width self.disk self.row) × (result < self.geometry.array.width) }
    {
        parity_sets::diagonal_of(self.geometry.array, self.disk, self.row)
    }
}
