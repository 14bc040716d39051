// The one plain form of a plan: the names line, then a line for each step.
ghost use Rattle.std.specs.Prelude.{◌≡◌, true, ◌*◌, ◌≤◌, ◌/◌, length};
ghost use Rattle.liberation.specs.Judging.{steps_in};
ghost use Rattle.plan_texts.specs.Form.Plain.{plain, writable};

use judge::STEP_BYTES;
use text::Buffer;

// The bytes of the room for a plan that is written as text: 15 for the names, and 8 for each of 31
// steps.
pub const TEXT_BYTES: usize = 263;

// The plain form of a plan of three bytes a step.
pub fn plain_form(plan: &[u8]) -> Buffer<TEXT_BYTES>
    requires { (length plan.now ≤ 93) × (writable (steps_in (length plan.now / 3) plan.now) ≡ true) }
    ensures { result ≡ plain (steps_in (length plan.now / 3) plan.now) }
{
    let mut text = Buffer::new();
    text.extend_from_slice(b"row,set,number\n");
    let (steps, _) = plan.as_chunks::<STEP_BYTES>();
    for &[row, kind, number] in steps {
        text.push_step(row, kind, number, b'\n');
    }
    text
}
