// The rebuild of two lost disks in place: document 01, "Two lost disks". Refusals are tested here;
// the walk is below.
#![tactic(auto)]

mod data;
mod pair;
mod with_parity;

ghost use Rattle.std.specs.Prelude.{◌≡◌, not, eqb, IfOk};
ghost use Rattle.mathematics.specs.Choice.{when, first_of};
ghost use Rattle.liberation.specs.Sets.{numbers_refusal, disk_refusal};
ghost use Rattle.liberation.specs.Stripes.Stripes.{stripe_long};
ghost use Rattle.refusals.specs.Refused.{refused, answer_of};
ghost use Rattle.rebuild_two.specs.Says.{TwoSays};

pub use pair::solve_pair;
use refusals::{Geometry, Refusal, Shape};

// The array and the cells of a call on two of its disks and a stripe of `long` bytes.
fn check_two(shape: Shape, first: usize, second: usize, long: usize) -> Result<Geometry, Refusal>
    ensures refusal { refused result ≡ first_of (numbers_refusal shape.width shape.disks shape.cell_size first) (first_of (disk_refusal shape.disks second) (first_of (when (eqb first second) 4) (when (not (eqb long (stripe_long shape.width shape.disks shape.cell_size))) 5))) }
    ensures numbers { IfOk result (λ g. (g.array.width ≡ shape.width) × (g.array.disks ≡ shape.disks) × (g.cell_size ≡ shape.cell_size)) }
{
    let geometry = Geometry::new(shape)?;
    geometry.array.check_disk(first)?;
    geometry.array.check_disk(second)?;
    if first == second {
        return Err(Refusal::SameDisk);
    }
    refusals::check_length(long, geometry.stripe_bytes())?;
    Ok(geometry)
}

// Rebuilds two lost disks in place. Refusals: 1, 13, 2, 3, 4, 5; a refused call leaves the stripe
// unchanged.
pub fn rebuild_two(
    shape: Shape,
    first: usize,
    second: usize,
    stripe: &mut [u8],
) -> Result<(), Refusal>
    ensures { TwoSays shape.width shape.disks shape.cell_size first second stripe.old stripe.new (answer_of result) }
{
    let geometry = check_two(shape, first, second, stripe.len())?;
    pair::solve_pair(geometry, first, second, stripe);
    Ok(())
}
