// The printed plan as text: the plan's lines or a refusal.
#![tactic(auto)]

mod input;

ghost use Rattle.std.specs.Prelude.{◌≡◌, ◌++◌, ◌+◌, ◌≤◌, ◌<◌, length, IfOk};
ghost use Rattle.liberation.specs.Plans.{step, plan_of};
ghost use Rattle.refusals.specs.Refused.{number_of, refused};
ghost use Rattle.planner.specs.StepRecords.{Holds};
ghost use Rattle.printed_plan.specs.Input.{first_value, second_value};
ghost use Rattle.printed_plan.specs.Text.{line_of, plan_text, refused_line, input_refusal};
ghost use Rattle.printed_plan.specs.Says.{TextIs, TextSays};

use planner::Steps;
use refusals::{Array, Refusal};
use text::Buffer;

// The bytes that a printed text has room for: a head line of 24 bytes and 31 lines of 14, which are
// four numbers of two digits, four commas, a letter and LF. The longest text has 433.
const TEXT_BYTES: usize = 458;

// A printed text: its bytes, zeros after them, and how many they are.
#[repr(C)]
#[derive(Clone, Copy)]
pub struct Text {
    pub bytes: [u8; TEXT_BYTES],
    pub length: usize,
}

impl From<Buffer<TEXT_BYTES>> for Text {
    ghost from_gives = { TextIs };

    fn from(text: Buffer<TEXT_BYTES>) -> Text {
        Text {
            bytes: text.padded(),
            length: text.as_slice().len(),
        }
    }
}

// Appends the line of a step.
fn push_line(text: &mut Buffer<TEXT_BYTES>, index: u8, row: u8, kind: u8, number: u8, new: u8)
    requires { (index < 100) × (row < 100) × (number < 100) × (new < 100) × (length text.old + 14 ≤ 458) }
    ensures { text.new ≡ text.old ++ line_of index (step row kind number) new }
{
    text.push_field(index, b',');
    text.push_step(row, kind, number, b',');
    text.push_field(new, b'\n');
}

// The text of a plan: the head line and a line for each step. A cell that a step reads is marked, so
// that the next steps count it no more.
fn plan_lines(array: Array, disk: usize, steps: Steps) -> Buffer<TEXT_BYTES>
    requires { (array.disks ≡ array.width) × (disk ≤ array.width + 1) × Holds (plan_of array.width array.width disk) steps }
    ensures { result ≡ plan_text array.width disk }
{
    let mut all_marks = parity_sets::no_marks();
    let marks = &mut all_marks[..array.cells()];
    let mut text = Buffer::new();
    text.extend_from_slice(b"step,row,set,number,new\n");
    for index in 0..array.width {
        let row = steps.rows[index];
        let kind = steps.kinds[index];
        let number = steps.numbers[index];
        let new = parity_sets::mark_set(array, disk, steps.set(index), marks);
        push_line(&mut text, index as u8, row, kind, number, new as u8);
    }
    text
}

// The line of a refusal.
fn refusal_line(refusal: Refusal) -> Buffer<TEXT_BYTES>
    ensures { result ≡ refused_line (number_of refusal) }
{
    let mut text = Buffer::new();
    text.extend_from_slice(b"refused,");
    text.push_field(refusal.number(), b'\n');
    text
}

// The text of the plan that an input names. Refusals: 12 first, then 1, 3.
fn try_plan_text(input: &[u8]) -> Result<Buffer<TEXT_BYTES>, Refusal>
    ensures refusal { refused result ≡ input_refusal input.now }
    ensures text { IfOk result (λ text. text ≡ plan_text (first_value input.now) (second_value input.now)) }
{
    let Some((width, disk)) = input::parse(input) else {
        return Err(Refusal::BadText);
    };
    let array = Array::with_disk(width, width, disk)?;
    let plan = planner::plan_steps(array, disk);
    Ok(plan_lines(array, disk, plan.steps))
}

// What the plan program prints for an input. Refusals: 12 first, then 1, 3.
pub fn plan_text(input: &[u8]) -> Text
    ensures { TextSays input.now result }
{
    match try_plan_text(input) {
        Ok(text) => Text::from(text),
        Err(refusal) => Text::from(refusal_line(refusal)),
    }
}
