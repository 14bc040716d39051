// Missing cells as the unknowns of equations, one a set: for each set the word of the cells that it
// holds.
ghost use Rattle.std.specs.Prelude.{◌≡◌, ℕ, ◌+◌, ◌*◌, ◌^◌, ◌<◌, ◌≤◌, length, get_or};
ghost use Rattle.parity_sets.specs.ParitySets.{cells_of, number_of};
ghost use Rattle.rebuild_cells.specs.Theory.Mending.{set_numbered, word_of, words_from, powers_from};
ghost use Rattle.stripe_cells.specs.Toggled.{toggled_all};
ghost use Rattle.rebuild_cells.specs.Words.{marks_word};
ghost use Rattle.rebuild_cells.specs.RowLists.{words_of, sums_of};

use super::reduction::Row;
use parity_sets::ParitySet;
use refusals::Array;

// A set by its number among all, row sets first.
pub fn set_numbered(array: Array, number: usize) -> ParitySet
    requires { number < 2 * array.width }
    ensures { (number_of result < array.width) × (cells_of array.width array.disks result ≡ set_numbered array.width array.disks number) }
{
    if number < array.width {
        ParitySet::Row(number)
    } else {
        ParitySet::Diagonal(number - array.width)
    }
}

// Toggles the marks of the cells of a set.
pub fn toggle_set(array: Array, set: ParitySet, marks: &mut [u8])
    requires { (number_of set < array.width) × (length marks.old ≡ array.width * (array.disks + 2)) }
    ensures { marks.new ≡ toggled_all (cells_of array.width array.disks set) marks.old }
{
    for cell in set.cells(array) {
        marks[cell] ^= 1;
    }
}

// The word whose bit b says that the mark of cell b of the list is odd.
fn marks_word(marks: &[u8], cells: &[usize]) -> u64
    requires { (length cells.now ≤ 62) × ((i : ℕ) → i < length cells.now → get_or cells.now i 0 < length marks.now) }
    ensures { result ≡ marks_word cells.now marks.now }
{
    let mut word = 0;
    for i in (0..cells.len()).rev() {
        word = 2 * word + u64::from(marks[cells[i]] & 1);
    }
    word
}

// The word of a set: bit b says that it holds cell b of the list.
fn set_word(array: Array, set: ParitySet, cells: &[usize]) -> u64
    requires { (number_of set < array.width) × (length cells.now ≤ 62) × ((i : ℕ) → i < length cells.now → get_or cells.now i 0 < array.width * (array.disks + 2)) }
    ensures { result ≡ word_of cells.now (cells_of array.width array.disks set) }
{
    let mut marks = parity_sets::no_marks();
    let marks = &mut marks[..array.cells()];
    toggle_set(array, set, marks);
    marks_word(marks, cells)
}

// The word with this bit alone.
pub fn bit_of(b: usize) -> u64
    requires { b < 64 }
    ensures { result ≡ 2 ^ b }
{
    1 << b
}

// The equations of all sets in the cells of the list: for each set its word, and the bit of its
// number.
pub fn fill_rows(array: Array, cells: &[usize], rows: &mut [Row])
    requires in_array { (length cells.now ≤ 62) × ((i : ℕ) → i < length cells.now → get_or cells.now i 0 < array.width * (array.disks + 2)) }
    requires rows_len { length rows.old ≡ 2 * array.width }
    ensures { (words_of rows.new ≡ words_from (2 * array.width) 0 array.width array.disks cells.now) × (sums_of rows.new ≡ powers_from (2 * array.width) 0) }
{
    for (number, row) in rows.iter_mut().enumerate() {
        *row = Row {
            word: set_word(array, set_numbered(array, number), cells),
            sum: bit_of(number),
        };
    }
}
