// A cell of a stripe, and where it is.
ghost use Rattle.std.specs.Prelude.{◌≡◌, ◌*◌, ◌<◌, ◌≤◌};
ghost use Rattle.liberation.specs.Sets.{place};

use refusals::{Array, Geometry};

// A cell by its row and its disk.
#[derive(Clone, Copy)]
pub struct Cell {
    pub row: usize,
    pub disk: usize,
}

impl Cell {
    // Its place among the cells of a stripe, column after column.
    pub fn place(self, array: Array) -> usize
        requires { (self.row < array.width) × (self.disk < array.width) }
        ensures { (result ≡ place array.width self.row self.disk) × (result ≤ 1023) }
    {
        self.disk * array.width + self.row
    }

    // The bytes of a stripe before it.
    pub fn offset(self, geometry: Geometry) -> usize
        requires { (self.row < geometry.array.width) × (self.disk < geometry.array.width) }
        ensures { result ≡ place geometry.array.width self.row self.disk * geometry.cell_size }
    {
        self.place(geometry.array) * geometry.cell_size
    }
}
