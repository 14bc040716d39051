// The disks whose cells are left out of a list.
ghost use Rattle.std.specs.Prelude.{◌≡◌, ◌≤◌, ◌||◌, List, ℕ, eqb};
ghost use Rattle.stripe_cells.specs.OrdinaryCells.{survivors};

use parity_sets::MAX_COLUMNS;

// Two disks, or one, which is then both, or none of an array's.
#[derive(Clone, Copy, Debug, PartialEq, Eq)]
pub struct LostDisks {
    pub low: usize,
    pub high: usize,
    pub ghost ordered: { low ≤ high },
    pub ghost last: { high ≤ 33 },
}

impl LostDisks {
    // No disk: one past those of the widest array.
    pub fn none() -> LostDisks
        ensures { (result.low ≡ 33) × (result.high ≡ 33) }
    {
        LostDisks::one(MAX_COLUMNS)
    }

    // One disk.
    pub fn one(disk: usize) -> LostDisks
        requires { disk ≤ 33 }
        ensures { (result.low ≡ disk) × (result.high ≡ disk) }
    {
        LostDisks {
            low: disk,
            high: disk,
        }
    }

    // Two disks, in either order.
    pub fn two(x: usize, y: usize) -> LostDisks
        requires { (x ≤ 33) × (y ≤ 33) }
        ensures { (p : ℕ) (xs : List ℕ) → survivors p result.low result.high xs ≡ survivors p x y xs }
    {
        LostDisks {
            low: x.min(y),
            high: x.max(y),
        }
    }

    // Is this one of them?
    pub fn has(self, disk: usize) -> bool
        ensures { result ≡ (eqb disk self.low || eqb disk self.high) }
    {
        disk == self.low || disk == self.high
    }
}
