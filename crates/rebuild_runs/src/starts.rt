// The start of a rebuild run (document 01, "Run and space"): its record by value, opened, or made
// from a record of an earlier version.
ghost use Rattle.std.specs.Prelude.{◌≡◌, IfOk};
ghost use Rattle.liberation.specs.Sets.{numbers_refusal};
ghost use Rattle.refusals.specs.Refused.{refused};
ghost use Rattle.rebuild_runs.specs.Starts.{opened, OpenSays, OpensBy, resumed, resumed_disks};

use super::{Run, RunAnswer};
use refusals::{Answer, Geometry, Refusal, Shape};

// The record of a run before stripes could be skipped.
#[repr(C)]
#[derive(Clone, Copy)]
pub struct DisksRun {
    pub shape: Shape,
    pub lost: usize,
    pub stripes: u32,
    pub next: u32,
}

// The record of document 01, of a run in an array with as many data disks as its width: the width,
// the bytes of a cell, the lost disk, stripes and next.
#[repr(C)]
#[derive(Clone, Copy)]
pub struct FullRun {
    pub width: usize,
    pub size: usize,
    pub disk: usize,
    pub stripes: u32,
    pub next: u32,
}

// The record of zeros that a refused opening gives, and which every call refuses.
const NO_RUN: Run = Run {
    shape: Shape {
        width: 0,
        disks: 0,
        cell_size: 0,
    },
    lost: 0,
    stripes: 0,
    next: 0,
    skipped: 0,
};

// An opened run, or a refusal with the record of zeros.
impl From<Result<Run, Refusal>> for RunAnswer {
    ghost from_gives = { λ r a. OpensBy r a };

    fn from(opened: Result<Run, Refusal>) -> RunAnswer {
        match opened {
            Ok(run) => RunAnswer {
                answer: Answer::accepted(),
                run,
            },
            Err(refusal) => RunAnswer {
                answer: refusal.into(),
                run: NO_RUN,
            },
        }
    }
}

// A run over `stripes` stripes, or why it is not opened.
fn try_open(shape: Shape, lost: usize, stripes: u32) -> Result<Run, Refusal>
    ensures refusal { refused result ≡ numbers_refusal shape.width shape.disks shape.cell_size lost }
    ensures run { IfOk result (λ x. x ≡ opened shape.width shape.disks shape.cell_size lost stripes) }
{
    let geometry = Geometry::new(shape)?;
    geometry.array.check_disk(lost)?;
    Ok(Run {
        shape,
        lost,
        stripes,
        next: 0,
        skipped: 0,
    })
}

// Opens a run over `stripes` stripes. Refusals: 1, 13, 2, 3, with a record of zeros, which every
// call refuses.
pub fn open_run(shape: Shape, lost: usize, stripes: u32) -> RunAnswer
    ensures { OpenSays shape.width shape.disks shape.cell_size lost stripes result }
{
    try_open(shape, lost, stripes).into()
}

// A run that was open when its record had no number of data disks goes on with as many as its
// width.
impl From<FullRun> for Run {
    ghost from_gives = { λ old run. run ≡ resumed old };

    fn from(old: FullRun) -> Run {
        Run {
            shape: Shape {
                width: old.width,
                disks: old.width,
                cell_size: old.size,
            },
            lost: old.disk,
            stripes: old.stripes,
            next: old.next,
            skipped: 0,
        }
    }
}

// A run that was open when no stripe could be skipped goes on with none skipped.
impl From<DisksRun> for Run {
    ghost from_gives = { λ before run. run ≡ resumed_disks before };

    fn from(before: DisksRun) -> Run {
        Run {
            shape: before.shape,
            lost: before.lost,
            stripes: before.stripes,
            next: before.next,
            skipped: 0,
        }
    }
}
