// The plan program: reads standard input and prints the plan of the array and the lost disk that it
// names, or a refusal.
// It reads at most a buffer of 4,096 bytes. An input that goes on after them has more bytes than
// any input of the form, as its first 4,096 alone have, and what is printed for those is what is
// printed for the whole: `printed_cut` in PrintedLaws of printed_plan.
#![tactic(auto)]

fn main() {
    let mut buffer = io::buffer();
    let length = io::read_full(0, &mut buffer);
    let text = printed_plan::plan_text(&buffer[..length]);
    io::write_all(1, &text.bytes[..text.length]);
}
