// Marks, a byte a cell, that are toggled along a list of cells, so that those of the cells that
// occur an odd number of times are odd; and the offsets of the odd cells, pushed to a list.
ghost use Rattle.std.specs.Prelude.{◌≡◌, ℕ, ◌<◌, ◌≤◌, length, get_or};
ghost use Rattle.liberation.specs.Limits.{largest_cell};
ghost use Rattle.stripe_cells.specs.Toggled.{toggled_all};
ghost use Rattle.stripe_cells.specs.OddCells.{OddPushed};

use super::Offsets;

// Toggles the marks of the places of a list.
pub fn toggle_all(marks: &mut [u8], places: &[usize])
    requires { (i : ℕ) → i < length places.now → get_or places.now i 0 < length marks.old }
    ensures { marks.new ≡ toggled_all places.now marks.old }
{
    for &place in places {
        marks[place] ^= 1;
    }
}

// Appends the offsets of the odd places from `from` on, until the list has `most` offsets; the first
// place that was not looked at.
pub fn push_odd<const N: usize>(
    marks: &[u8],
    size: usize,
    from: usize,
    most: usize,
    list: &mut Offsets<N>,
) -> usize
    requires { (size ≤ largest_cell) × (length marks.now ≤ 1023) × (from ≤ length marks.now) × (length list.old ≤ most) × (most ≤ N) }
    ensures { OddPushed size marks.now list.old list.new from most result }
{
    for place in from..marks.len() {
        if list.len() == most {
            return place;
        }
        if marks[place] & 1 == 1 {
            list.push(place * size);
        }
    }
    marks.len()
}
