// The space that a package of files takes, each file on stripes of its own: the stripes, the bytes
// of each disk, and whether that fits.
#![tactic(auto)]

mod limits;

ghost use Rattle.std.specs.Prelude.{◌≡◌, ◌≤◌, ◌<◌, IfOk};
ghost use Rattle.mathematics.specs.Sums.{total};
ghost use Rattle.refusals.specs.Refused.{number_of, refused};
ghost use Rattle.space.specs.Refusals.{space_refusal};
ghost use Rattle.space.specs.Says.{stripe_holds, up_each, SpaceSays, SpaceRefused, FewFiles};

pub use limits::MAX_PACKAGE;
use refusals::{Answer, Geometry, Refusal, Shape};

// The answer, the stripes, the bytes of each disk, and whether these are at most the free bytes.
#[repr(C)]
#[derive(Clone, Copy)]
pub struct Space {
    pub answer: Answer,
    pub stripes: u64,
    pub bytes: u64,
    pub fits: bool,
}

// A refusal of the space call: every other field is zero or false.
impl From<Refusal> for Space {
    ghost from_gives = { λ r s. SpaceRefused (number_of r) s };

    fn from(refusal: Refusal) -> Space {
        Space {
            answer: refusal.into(),
            stripes: 0,
            bytes: 0,
            fits: false,
        }
    }
}

// The stripes of each file, rounded up, then added; a stripe holds `holds` bytes.
fn sum_stripes(holds: u64, lengths: &[u64]) -> u64
    requires { FewFiles holds lengths.now }
    ensures { result ≡ total (up_each holds lengths.now) }
{
    lengths.iter().map(|bytes| bytes.div_ceil(holds)).sum()
}

// The bytes of film that a stripe holds.
pub fn film_bytes(geometry: Geometry) -> u64
    ensures bytes { result ≡ stripe_holds geometry.array.width geometry.array.disks geometry.cell_size }
    ensures small { (0 < result) × (result ≤ 31490048) }
{
    geometry.array.disks as u64 * geometry.column_bytes() as u64
}

// The space of a package, or why there is none.
fn try_space(shape: Shape, lengths: &[u64], free: u64) -> Result<Space, Refusal>
    ensures refusal { refused result ≡ space_refusal shape.width shape.disks shape.cell_size lengths.now }
    ensures space { IfOk result (λ r. SpaceSays shape.width shape.disks shape.cell_size lengths.now free r) }
{
    let geometry = Geometry::new(shape)?;
    limits::check_package(lengths)?;
    let stripes = sum_stripes(film_bytes(geometry), lengths);
    let bytes = stripes * geometry.column_bytes() as u64;
    Ok(Space {
        answer: Answer::accepted(),
        stripes,
        bytes,
        fits: bytes <= free,
    })
}

// The space that a package of files of these lengths takes, where each disk has `free` bytes left.
// Refusals: 1, 13, 2, 14, 11.
pub fn package_space(shape: Shape, lengths: &[u64], free: u64) -> Space
    ensures { SpaceSays shape.width shape.disks shape.cell_size lengths.now free result }
{
    try_space(shape, lengths, free).unwrap_or_else(Space::from)
}
