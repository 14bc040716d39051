// The numbers of a bill: its refusals, and the cents of a charge.
ghost use Rattle.std.specs.Prelude.{◌≡◌};
ghost use Rattle.refusals.specs.Refused.{refused};
ghost use Rattle.billing.specs.Cents.{nearest, bill_refusal};

use refusals::Refusal;
use std::cmp::Ordering;

// The highest rate, in cents per GiB.
const MAX_RATE: u64 = 1000;

// The bytes of the largest bill.
const MAX_BYTES: u64 = 1 << 54;

// The bytes of a GiB.
pub const GIB: u64 = 1 << 30;

// Half of them: a charge of so much is half a cent.
const HALF_GIB: u64 = GIB / 2;

// Is no rate over the highest, and are the bytes few enough? Refusals: 16, 17.
pub fn check_bill(bytes: u64, first: u64, second: u64, third: u64) -> Result<(), Refusal>
    ensures { refused result ≡ bill_refusal bytes first second third }
{
    if MAX_RATE < first.max(second).max(third) {
        return Err(Refusal::BadRate);
    }
    if MAX_BYTES < bytes {
        return Err(Refusal::TooManyBytes);
    }
    Ok(())
}

// The nearest number of whole cents to a charge, at an exact half the even one.
pub fn nearest_cents(charge: u64) -> u64
    ensures { result ≡ nearest charge }
{
    let cents = charge / GIB;
    match (charge % GIB).cmp(&HALF_GIB) {
        Ordering::Less => cents,
        Ordering::Equal => cents + cents % 2,
        Ordering::Greater => cents + 1,
    }
}
