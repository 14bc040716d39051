// Equations over bits, reduced one unknown after another: two rows are exchanged, or one is added
// to another.
ghost use Rattle.std.specs.Prelude.{◌≡◌, ◌-◌, ◌<◌, ◌≤◌, length, eqb, IfSome};
ghost use Rattle.mathematics.specs.BitRows.Parity.{bit};
ghost use Rattle.mathematics.specs.BitRows.Rows.{row_cleared, cleared_from, pivot, column_done, reduced_from};
ghost use Rattle.rebuild_cells.specs.RowLists.{rows_of, row_or_end};

// An equation: bit b of its word says that unknown b is in it, bit i of its sum that the given
// equation i was added to make it.
#[derive(Clone, Copy)]
pub struct Row {
    pub word: u64,
    pub sum: u64,
}

// Is this bit of the word set?
pub fn has_bit(word: u64, b: usize) -> bool
    requires { b < 64 }
    ensures { result ≡ bit word b }
{
    (word >> b) & 1 == 1
}

// Row b is added to row i if that is another one and has unknown b.
fn clear_row(rows: &mut [Row], b: usize, i: usize)
    requires { (length rows.old ≤ 62) × (b < length rows.old) × (i < length rows.old) }
    ensures { rows_of rows.new ≡ row_cleared b i (rows_of rows.old) }
{
    if i != b && has_bit(rows[i].word, b) {
        rows[i] = Row {
            word: rows[i].word ^ rows[b].word,
            sum: rows[i].sum ^ rows[b].sum,
        };
    }
}

// All rows but row b lose unknown b.
fn clear_rows(rows: &mut [Row], b: usize)
    requires { (length rows.old ≤ 62) × (b < length rows.old) }
    ensures { rows_of rows.new ≡ cleared_from (length rows.old) b 0 (rows_of rows.old) }
{
    for i in 0..rows.len() {
        clear_row(rows, b, i);
    }
}

// The first row from row b on that has unknown b.
fn pivot_row(rows: &[Row], b: usize) -> Option<usize>
    requires { (length rows.now ≤ 62) × (b ≤ length rows.now) }
    ensures row { row_or_end (length rows.now) result ≡ pivot (length rows.now) b (rows_of rows.now) }
    ensures within { IfSome result (λ j. (b ≤ j) × (j < length rows.now)) }
{
    for j in b..rows.len() {
        if has_bit(rows[j].word, b) {
            return Some(j);
        }
    }
    None
}

// Row j, which has unknown b, becomes row b, and b leaves all others.
fn reduce_column(rows: &mut [Row], b: usize, j: usize)
    requires { (length rows.old ≤ 62) × (b < length rows.old) × (j < length rows.old) }
    ensures { rows_of rows.new ≡ column_done (length rows.old) b j (rows_of rows.old) }
{
    rows.swap(b, j);
    clear_rows(rows, b);
}

// Reduces the rows by `unknowns` unknowns, as far as it goes; are all done?
pub fn reduce(rows: &mut [Row], unknowns: usize) -> bool
    requires { (length rows.old ≤ 62) × (unknowns ≤ 62) }
    ensures { (result ≡ eqb (reduced_from unknowns (length rows.old) 0 (rows_of rows.old)).done unknowns) × (rows_of rows.new ≡ (reduced_from unknowns (length rows.old) 0 (rows_of rows.old)).left) }
{
    for b in 0..unknowns {
        let Some(j) = pivot_row(rows, b) else {
            return false;
        };
        reduce_column(rows, b, j);
    }
    true
}
