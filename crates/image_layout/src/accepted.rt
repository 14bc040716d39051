// A layout within the limits. Whoever has one of these values need test its numbers no more.
ghost use Rattle.std.specs.Prelude.{◌≡◌, IfOk};
ghost use Rattle.refusals.specs.Refused.{refused};
ghost use Rattle.image_layout.specs.Limits.{layout_refusal, Accepted};

use super::{Layout, limits};
use refusals::{Geometry, Refusal, Shape};

// A layout that refusals 1, 13, 2, 11 and 25 leave.
#[derive(Clone, Copy)]
pub struct AcceptedLayout {
    pub layout: Layout,
    pub ghost within: { Accepted layout },
}

impl AcceptedLayout {
    // The layout of these numbers. Refusals: 1, 13, 2, 11, 25.
    pub fn new(layout: Layout) -> Result<AcceptedLayout, Refusal>
        ensures refusal { refused result ≡ layout_refusal layout }
        ensures numbers { IfOk result (λ a. a.layout ≡ layout) }
    {
        Geometry::new(Shape {
            width: layout.width,
            disks: layout.disks,
            cell_size: layout.cell_size,
        })?;
        limits::check_length(layout.length)?;
        limits::check_group(layout.unit, layout.cell_size as u64, layout.group)?;
        Ok(AcceptedLayout { layout })
    }
}
