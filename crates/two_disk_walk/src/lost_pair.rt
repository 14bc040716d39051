// Two lost data disks, and the rows that the walk over them comes to.
ghost use Rattle.std.specs.Prelude.{◌≡◌, ◌≤◌, ◌<◌};
ghost use Rattle.liberation.specs.Plans.{diagonal_of};
ghost use Rattle.liberation.specs.TwoDisks.Pairs.{next_row};

use refusals::Geometry;

// Data disks x and y of an array, in the order in which the walk goes through: x is not disk 0.
#[derive(Clone, Copy)]
pub struct LostPair {
    pub geometry: Geometry,
    pub x: usize,
    pub y: usize,
    pub ghost above_zero: { 1 ≤ x },
    pub ghost x_is_data: { x < geometry.array.disks },
    pub ghost y_is_data: { y < geometry.array.disks },
}

// A diagonal of which the walk comes from a cell of disk x to one of disk y: its number, and the row
// of the cell on disk y.
#[derive(Clone, Copy)]
pub struct Crossing {
    pub number: usize,
    pub row: usize,
}

impl LostPair {
    // The diagonal through disk x's cell of a row.
    pub fn crossing(self, row: usize) -> Crossing
        requires { row < self.geometry.array.width }
        ensures number { (result.number ≡ diagonal_of self.geometry.array.width self.x row) × (result.number < self.geometry.array.width) }
        ensures row { (result.row ≡ next_row self.geometry.array.width self.x self.y row) × (result.row < self.geometry.array.width) }
    {
        let array = self.geometry.array;
        let number = parity_sets::diagonal_of(array, self.x, row);
        Crossing {
            number,
            row: parity_sets::row_on(array, number, self.y),
        }
    }
}
