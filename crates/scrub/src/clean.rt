// Is a stripe clean? All row sets as one run of bytes, then the diagonal sets one by one.
ghost use Rattle.std.specs.Prelude.{◌≡◌, ◌<◌, IfOk};
ghost use Rattle.mathematics.specs.Sums.{all_to};
ghost use Rattle.liberation.specs.Stripes.Stripes.{set_clean, clean};
ghost use Rattle.refusals.specs.Refused.{refused};
ghost use Rattle.refusals.specs.StripeOf.{IsStripeOf};
ghost use Rattle.refusals.specs.StripeSays.{stripe_refusal};
ghost use Rattle.scrub.specs.CheckSays.{CheckSays};

use parity_sets::{MAX_COLUMNS, ParitySet};
use refusals::{Answer, Geometry, Refusal, Shape};
use stripe_cells::{LostDisks, Offsets};

// The answer, and whether the stripe is clean.
#[repr(C)]
#[derive(Clone, Copy)]
pub struct Checked {
    pub answer: Answer,
    pub clean: bool,
}

// Do the cells of every row set XOR to zero? One run of bytes over the columns of the data disks
// and P.
fn rows_are_clean(geometry: Geometry, stripe: &[u8]) -> bool
    requires { IsStripeOf geometry stripe.now }
    ensures { result ≡ all_to geometry.array.width (λ i. set_clean geometry.array.width geometry.array.disks geometry.cell_size stripe.now 0 i) }
{
    let mut list: Offsets<MAX_COLUMNS> = Offsets::new();
    list.push_on(geometry, ParitySet::Row(0), 0..geometry.array.disks + 1);
    xor_is_zero::is_zero(stripe, geometry.column_bytes(), list.as_slice())
}

// Do the cells of a diagonal set XOR to zero? What the list then holds is unspecified.
fn diagonal_is_clean(
    geometry: Geometry,
    number: usize,
    stripe: &[u8],
    list: &mut Offsets<MAX_COLUMNS>,
) -> bool
    requires { IsStripeOf geometry stripe.now × (number < geometry.array.width) }
    ensures { result ≡ set_clean geometry.array.width geometry.array.disks geometry.cell_size stripe.now 1 number }
{
    list.clear();
    list.push_surviving(geometry, ParitySet::Diagonal(number), LostDisks::none());
    xor_is_zero::is_zero(stripe, geometry.cell_size, list.as_slice())
}

// Do the cells of every diagonal set XOR to zero?
fn diagonals_are_clean(geometry: Geometry, stripe: &[u8]) -> bool
    requires { IsStripeOf geometry stripe.now }
    ensures { result ≡ all_to geometry.array.width (λ i. set_clean geometry.array.width geometry.array.disks geometry.cell_size stripe.now 1 i) }
{
    let mut list = Offsets::new();
    for number in 0..geometry.array.width {
        if !diagonal_is_clean(geometry, number, stripe, &mut list) {
            return false;
        }
    }
    true
}

// Do all sets XOR to zero? The diagonal sets are looked at where the row sets do.
pub fn is_clean(geometry: Geometry, stripe: &[u8]) -> bool
    requires { IsStripeOf geometry stripe.now }
    ensures { result ≡ clean geometry.array.width geometry.array.disks geometry.cell_size stripe.now }
{
    rows_are_clean(geometry, stripe) && diagonals_are_clean(geometry, stripe)
}

// Is a stripe clean? Refusals: 1, 13, 2, 5.
fn find_clean(shape: Shape, stripe: &[u8]) -> Result<bool, Refusal>
    ensures refusal { refused result ≡ stripe_refusal shape.width shape.disks shape.cell_size stripe.now }
    ensures clean { IfOk result (λ b. b ≡ clean shape.width shape.disks shape.cell_size stripe.now) }
{
    let geometry = Geometry::of_stripe(shape, stripe.len())?;
    Ok(is_clean(geometry, stripe))
}

// Is a stripe clean? Refusals: 1, 13, 2, 5.
pub fn check_stripe(shape: Shape, stripe: &[u8]) -> Checked
    ensures { CheckSays shape.width shape.disks shape.cell_size stripe.now result }
{
    match find_clean(shape, stripe) {
        Ok(clean) => Checked {
            answer: Answer::accepted(),
            clean,
        },
        Err(refusal) => Checked {
            answer: Answer::from(refusal),
            clean: false,
        },
    }
}
