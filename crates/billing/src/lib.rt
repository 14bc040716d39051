// Bills of hosted rebuilds (document 02, asks 6 and 10): bytes read in three bands, each with its
// rate in cents per GiB.
#![tactic(auto)]

mod numbers;

ghost use Rattle.std.specs.Prelude.{◌≡◌, IfOk};
ghost use Rattle.refusals.specs.Refused.{number_of, refused};
ghost use Rattle.billing.specs.Cents.{bill_refusal};
ghost use Rattle.billing.specs.Bills.{BillRefused, BillSays, run_bill_refusal, RunBillSays};

use numbers::GIB;
use rebuild_runs::Run;
use refusals::{Answer, Refusal};

// The bytes up to which the rate of the first band holds.
const FIRST_BAND_END: u64 = 64 * GIB;

// The bytes up to which the rate of the second band holds, 1 TiB.
const SECOND_BAND_END: u64 = 1024 * GIB;

// The answer, the bytes in each of the three bands, and the cents.
#[repr(C)]
#[derive(Clone, Copy)]
pub struct Bill {
    pub answer: Answer,
    pub first: u64,
    pub second: u64,
    pub third: u64,
    pub cents: u64,
}

// A refusal: every other field is zero.
impl From<Refusal> for Bill {
    ghost from_gives = { λ r b. BillRefused (number_of r) b };

    fn from(refusal: Refusal) -> Bill {
        Bill {
            answer: refusal.into(),
            first: 0,
            second: 0,
            third: 0,
            cents: 0,
        }
    }
}

// The bill of bytes read, or why there is none.
fn try_bill(bytes: u64, first: u64, second: u64, third: u64) -> Result<Bill, Refusal>
    ensures refusal { refused result ≡ bill_refusal bytes first second third }
    ensures bill { IfOk result (λ b. BillSays bytes first second third b) }
{
    numbers::check_bill(bytes, first, second, third)?;
    let low = bytes.min(FIRST_BAND_END);
    let most = bytes.min(SECOND_BAND_END);
    let middle = most - low;
    let rest = bytes - most;
    let charge = low * first + middle * second + rest * third;
    Ok(Bill {
        answer: Answer::accepted(),
        first: low,
        second: middle,
        third: rest,
        cents: numbers::nearest_cents(charge),
    })
}

// The bill of `bytes` bytes read, with the rates of the three bands. Refusals: 16, 17.
pub fn bill_bytes(bytes: u64, first: u64, second: u64, third: u64) -> Bill
    ensures { BillSays bytes first second third result }
{
    try_bill(bytes, first, second, third).unwrap_or_else(Bill::from)
}

// The bill of a run, or why there is none.
fn try_run_bill(run: Run, first: u64, second: u64, third: u64) -> Result<Bill, Refusal>
    ensures refusal { refused result ≡ run_bill_refusal run first second third }
    ensures bill { IfOk result (λ b. RunBillSays run first second third b) }
{
    let progress = rebuild_runs::try_progress(run)?;
    let read = progress.cells * run.shape.cell_size as u64;
    try_bill(read, first, second, third)
}

// The bill of a run: cells read so far times the bytes of a cell. Refusals: 1, 13, 2, 3, 10, 16.
pub fn bill_run(run: Run, first: u64, second: u64, third: u64) -> Bill
    ensures { RunBillSays run first second third result }
{
    try_run_bill(run, first, second, third).unwrap_or_else(Bill::from)
}
