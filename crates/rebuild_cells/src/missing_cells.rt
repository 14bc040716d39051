// The missing cells of a stripe in a list of fixed room: as many at most as there are sets.
ghost use Rattle.std.specs.Prelude.{◌≡◌, ◌<◌, ◌≤◌, length, MatchOption};
ghost use Rattle.rebuild_cells.specs.Theory.Mending.{missing_cells};

use parity_sets::MAX_WIDTH;
use stripe_cells::Offsets;

// The sets of the widest array.
pub const MAX_SETS: usize = 2 * MAX_WIDTH;

// The missing cells, upward: offsets in cells, not in bytes.
pub type MissingCells = Offsets<MAX_SETS>;

// The cells whose marks are not 0, if they are at most `most`.
pub fn of_marks(marks: &[u8], most: usize) -> Option<MissingCells>
    requires { most ≤ 62 }
    ensures { MatchOption result (most < length (missing_cells marks.now)) (λ m. (m ≡ missing_cells marks.now) × (length m ≤ most)) }
{
    let mut missing = MissingCells::new();
    for (cell, &mark) in marks.iter().enumerate() {
        if mark != 0 {
            if missing.len() == most {
                return None;
            }
            missing.push(cell);
        }
    }
    Some(missing)
}
