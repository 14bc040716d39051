// The calls on plans for C and Rust: each hands its numbers and slices on to the proved call and
// promises what that call promises.
// Widths, disks, sizes and lengths come in as `usize`, so nothing is narrowed before it is tested.
#![tactic(auto)]

ghost use Rattle.planner.specs.PlanSays.{PlanSays};
ghost use Rattle.planner.specs.BalancedPlanSays.{BalancedSays};
ghost use Rattle.planner.specs.ReliefPlanSays.{ReliefSays};
ghost use Rattle.planner.specs.FewestPlanSays.{FewestSays};
ghost use Rattle.planner.specs.ReadListSays.{ListSays};
ghost use Rattle.host_plans.specs.PlanListSays.{PlanListSays};
ghost use Rattle.judge.specs.JudgeSays.{JudgeSays};
ghost use Rattle.plan_texts.specs.JudgeTextSays.{JudgeTextSays};
ghost use Rattle.plan_texts.specs.PlainTextSays.{WriteSays, PlainSays};
ghost use Rattle.printed_plan.specs.Says.{TextSays};

use judge::Judged;
use plan_texts::Written;
use planner::Plan;
use printed_plan::Text;
use refusals::Answer;

// Our plan for a lost disk.
#[unsafe(no_mangle)]
pub extern "C" fn cuzhaveli_plan_disk(width: usize, disks: usize, lost: usize) -> Plan
    ensures { PlanSays width disks lost result }
{
    planner::plan_disk(width, disks, lost)
}

// The balanced plan for a lost disk.
#[unsafe(no_mangle)]
pub extern "C" fn cuzhaveli_balanced_plan(width: usize, disks: usize, lost: usize) -> Plan
    ensures { BalancedSays width disks lost result }
{
    planner::balanced_plan(width, disks, lost)
}

// The plan for a lost disk that relieves another data disk.
#[unsafe(no_mangle)]
pub extern "C" fn cuzhaveli_relief_plan(
    width: usize,
    disks: usize,
    lost: usize,
    relieved: usize,
) -> Plan
    ensures { ReliefSays width disks lost relieved result }
{
    planner::relief_plan(width, disks, lost, relieved)
}

// The plan for a lost disk that reads no more cells than the other three.
#[unsafe(no_mangle)]
pub extern "C" fn cuzhaveli_fewest_plan(width: usize, disks: usize, lost: usize) -> Plan
    ensures { FewestSays width disks lost result }
{
    planner::fewest_plan(width, disks, lost)
}

// The read list of our plan, into a lent slice of p(k + 2) bytes.
#[unsafe(no_mangle)]
pub extern "C" fn cuzhaveli_read_list(
    width: usize,
    disks: usize,
    lost: usize,
    list: &mut [u8],
) -> Answer
    ensures { ListSays width disks lost list.old list.new result }
{
    planner::read_list(width, disks, lost, list).into()
}

// The read list of an accepted plan of 3 × p bytes, into a lent slice of p(k + 2) bytes.
#[unsafe(no_mangle)]
pub extern "C" fn cuzhaveli_plan_list(
    width: usize,
    disks: usize,
    lost: usize,
    plan: &[u8],
    list: &mut [u8],
) -> Answer
    ensures { PlanListSays width disks lost plan.now list.old list.new result }
{
    host_plans::plan_list(width, disks, lost, plan, list)
}

// The judge of a plan of 3 × p bytes.
#[unsafe(no_mangle)]
pub extern "C" fn cuzhaveli_judge_plan(
    width: usize,
    disks: usize,
    lost: usize,
    plan: &[u8],
) -> Judged
    ensures { JudgeSays width disks lost plan.now result }
{
    judge::judge_plan(width, disks, lost, plan)
}

// The judge of a plan that is a text.
#[unsafe(no_mangle)]
pub extern "C" fn cuzhaveli_judge_text(
    width: usize,
    disks: usize,
    lost: usize,
    text: &[u8],
) -> Judged
    ensures { JudgeTextSays width disks lost text.now result }
{
    plan_texts::judge_text(width, disks, lost, text)
}

// Writes an accepted plan of 3 × p bytes in its plain form into a lent slice of 263 bytes.
#[unsafe(no_mangle)]
pub extern "C" fn cuzhaveli_write_plan(
    width: usize,
    disks: usize,
    lost: usize,
    plan: &[u8],
    out: &mut [u8],
) -> Written
    ensures { WriteSays width disks lost plan.now out.old out.new result }
{
    plan_texts::write_plan(width, disks, lost, plan, out)
}

// Writes the plain form of the plan that a text names into a lent slice of 263 bytes.
#[unsafe(no_mangle)]
pub extern "C" fn cuzhaveli_plain_text(
    width: usize,
    disks: usize,
    lost: usize,
    text: &[u8],
    out: &mut [u8],
) -> Written
    ensures { PlainSays width disks lost text.now out.old out.new result }
{
    plan_texts::plain_text(width, disks, lost, text, out)
}

// What the plan program prints for an input.
#[unsafe(no_mangle)]
pub extern "C" fn cuzhaveli_plan_text(input: &[u8]) -> Text
    ensures { TextSays input.now result }
{
    printed_plan::plan_text(input)
}
