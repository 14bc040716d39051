// Missing cells mended one by one, each from as few sets as can be: by its row of the reduced
// equations, or by that row and the row of a cell that is mended already, which often name nearly
// the same sets. The next cell is always one that the fewest sets give.
ghost use Rattle.std.specs.Prelude.{◌≡◌, true, false, ◌⊎◌, ◌+◌, ◌*◌, ◌<◌, ◌≤◌, length, take, IfSome, IsSome};
ghost use Rattle.mathematics.specs.Lists.{is_in};
ghost use Rattle.mathematics.specs.BitRows.Parity.{bit};
ghost use Rattle.liberation.specs.Plans.{diagonal_of};
ghost use Rattle.liberation.specs.Stripes.Stripes.{solved};
ghost use Rattle.refusals.specs.StripeOf.{IsStripeOf};
ghost use Rattle.rebuild_cells.specs.Theory.Mending.{odd_cells, mended_cells};
ghost use Rattle.rebuild_cells.specs.Theory.Nearing.{Reducible};
ghost use Rattle.rebuild_cells.specs.Renewed.{Renewed, Chosen};
ghost use Rattle.rebuild_cells.specs.Alone.{IsAlone};
ghost use Rattle.rebuild_cells.specs.RowLists.{sums_of};

use super::missing_cells::MAX_SETS;
use super::reduction::Row;
use super::{equations, one_cell, reduction};
use parity_sets::ParitySet;
use refusals::{Array, Geometry};
use stripe_cells::Offsets;

// Does the word name one set alone? No result depends on it.
fn names_one(word: u64) -> bool {
    word != 0 && word & (word - 1) == 0
}

// The one of two words that names fewer sets; none names fewer than one.
fn lighter(word: u64, other: u64) -> u64
    ensures { (result ≡ word) ⊎ (result ≡ other) }
{
    if !names_one(word) && other.count_ones() < word.count_ones() {
        other
    } else {
        word
    }
}

// Unknown d is mended: each unknown by its row and that of d, if that is lighter.
fn renew(rows: &[Row], near: &mut [u64], d: usize)
    requires { (length near.old ≤ length rows.now) × (length rows.now ≤ 62) × (d < length near.old) }
    ensures { Renewed (length near.old) d (sums_of rows.now) near.old near.new }
{
    let done = rows[d].sum;
    for x in 0..near.len() {
        near[x] = lighter(near[x], rows[x].sum ^ done);
    }
}

// Is the word of an unknown lighter than that of the best one before it?
fn is_lighter(near: &[u64], best: Option<usize>, x: usize) -> bool
    requires { (x < length near.now) × IfSome best (λ b. b < length near.now) }
    ensures { result ≡ false → IsSome best }
{
    match best {
        None => true,
        Some(best) => near[x].count_ones() < near[best].count_ones(),
    }
}

// Of the unknowns that are left the one that has the lightest word.
fn lightest(near: &[u64], left: u64) -> Option<usize>
    requires { length near.now ≤ 62 }
    ensures { Chosen (length near.now) (length near.now) left result }
{
    let mut best = None;
    for x in 0..near.len() {
        if reduction::has_bit(left, x) && is_lighter(near, best, x) {
            best = Some(x);
        }
    }
    best
}

// The first unknown that is left and that one set gives.
fn first_single(near: &[u64], left: u64) -> Option<usize>
    requires { length near.now ≤ 62 }
    ensures { IfSome result (λ b. (b < length near.now) × (bit left b ≡ true)) }
{
    for (x, &word) in near.iter().enumerate() {
        if reduction::has_bit(left, x) && names_one(word) {
            return Some(x);
        }
    }
    None
}

// The unknown to be mended next: most are given by one set, and then no others are weighed.
fn next_unknown(near: &[u64], left: u64) -> Option<usize>
    requires { length near.now ≤ 62 }
    ensures { Chosen (length near.now) (length near.now) left result }
{
    match first_single(near, left) {
        Some(single) => Some(single),
        None => lightest(near, left),
    }
}

// The diagonal that has a cell of a data disk or of Q as an ordinary one; for a cell of P, which no
// diagonal has, its row.
fn own_diagonal(array: Array, disk: usize, row: usize) -> usize
    requires { row < array.width }
    ensures { (result < array.width) × (disk < array.disks → result ≡ diagonal_of array.width disk row) × (array.disks ≤ disk → result ≡ row) }
{
    if disk < array.disks {
        parity_sets::diagonal_of(array, disk, row)
    } else {
        row
    }
}

// The set that the word names alone, if it is the row set or the diagonal of the cell of this disk
// and row.
fn alone(array: Array, disk: usize, row: usize, word: u64) -> Option<ParitySet>
    requires { row < array.width }
    ensures { IfSome result (IsAlone array disk row word) }
{
    if word == equations::bit_of(row) {
        return Some(ParitySet::Row(row));
    }
    let diagonal = own_diagonal(array, disk, row);
    if word == equations::bit_of(array.width + diagonal) {
        return Some(ParitySet::Diagonal(diagonal));
    }
    None
}

// A cell becomes the XOR of the other odd cells of the sets that the word names; its row set or its
// diagonal alone needs no marks.
fn mend_by(geometry: Geometry, cell: usize, word: u64, stripe: &mut [u8])
    requires { IsStripeOf geometry stripe.old × (is_in cell (odd_cells geometry.array.width geometry.array.disks word) ≡ true) }
    ensures { stripe.new ≡ solved geometry.cell_size cell (odd_cells geometry.array.width geometry.array.disks word) stripe.old }
{
    let disk = cell / geometry.array.width;
    let row = cell % geometry.array.width;
    match alone(geometry.array, disk, row, word) {
        Some(set) => stripe_cells::solve(geometry, set, disk, row, stripe, &mut Offsets::new()),
        None => one_cell::mend_cell(geometry, cell, word, stripe),
    }
}

// All unknowns, the one with the lightest word next. What the words then hold is unspecified.
fn mend_nearest(
    geometry: Geometry,
    cells: &[usize],
    rows: &[Row],
    near: &mut [u64],
    stripe: &mut [u8],
)
    requires { IsStripeOf geometry stripe.old × Reducible geometry.array.width geometry.array.disks cells.now (sums_of rows.now) × (near.old ≡ take (length cells.now) (sums_of rows.now)) }
    ensures { stripe.new ≡ mended_cells geometry.array.width geometry.array.disks geometry.cell_size cells.now stripe.old }
{
    let mut left = u64::MAX; // every unknown is left
    while let Some(next) = next_unknown(near, left) {
        mend_by(geometry, cells[next], near[next], stripe);
        left ^= equations::bit_of(next);
        renew(rows, near, next);
    }
}

// The same, from the words of the rows themselves.
pub fn mend_all(geometry: Geometry, cells: &[usize], rows: &[Row], stripe: &mut [u8])
    requires { IsStripeOf geometry stripe.old × Reducible geometry.array.width geometry.array.disks cells.now (sums_of rows.now) }
    ensures { stripe.new ≡ mended_cells geometry.array.width geometry.array.disks geometry.cell_size cells.now stripe.old }
{
    let mut near = [0; MAX_SETS];
    for b in 0..cells.len() {
        near[b] = rows[b].sum;
    }
    mend_nearest(geometry, cells, rows, &mut near[..cells.len()], stripe);
}
