// How many arrays of a list have lost so many disks.
ghost use Rattle.std.specs.Prelude.{◌≡◌, ◌≤◌, length};
ghost use Rattle.array_states.specs.Reports.{totals_of};

use super::ArrayState;

// How many arrays of a list can bear two more losses, one more, none, and how many are past saving.
#[repr(C)]
#[derive(Clone, Copy, Default)]
pub struct Totals {
    pub optimal: u32,
    pub degraded: u32,
    pub critical: u32,
    pub failed: u32,
}

impl Totals {
    // The totals of a list.
    #[tactic(auto, using(crate::proofs::RestLaws::many_next, crate::proofs::RestLaws::many_none, crate::proofs::RestLaws::many_most))]
    pub(crate) fn of(list: &[ArrayState]) -> Totals
        requires { length list.now ≤ 64 }
        ensures { result ≡ totals_of list.now }
    {
        let mut totals = Totals::default();
        for state in list {
            match state.lost.count_ones() {
                0 => totals.optimal += 1,
                1 => totals.degraded += 1,
                2 => totals.critical += 1,
                _ => totals.failed += 1,
            }
        }
        totals
    }
}
