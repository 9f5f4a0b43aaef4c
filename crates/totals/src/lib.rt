// Exact totals of amounts, in the place of the Rust's 128 bits: two words, of which the high one has the sign (document 01, "The shape of some places").
// An amount is added or taken off, and a total is fitted into an amount again where it is one.

#![tactic(auto)]

ghost use Rattle.std.specs.Prelude.{◌+◌, ◌^◌, ◌<◌, ◌≡◌, pos, ◌+ℤ◌, ◌-ℤ◌};
ghost use Rattle.std.specs.Int.Signed.{mag};
ghost use Rattle.totals.specs.Totals.{value_of, Moved, fitted};

use numbers::Microcents;

#[derive(Clone, Copy)]
pub struct Total {
    pub high: i64,
    pub low: u64,
}

pub fn nothing() -> Total
    ensures value { value_of result ≡ pos 0 }
    ensures moved { Moved 0 result }
{
    Total { high: 0, low: 0 }
}

// The amount's word is added to the low word. A carry out of it moves the high word up by one, and an amount below 0, whose word is 2^64 above it, down by
// one.
pub fn plus(total: Total, amount: Microcents) -> Total
    requires { mag total.high < 2 ^ 62 }
    ensures value { value_of result ≡ value_of total +ℤ amount.0 }
    ensures moved { Moved (mag total.high + 1) result }
{
    let (low, carries) = total.low.overflowing_add(big_endian::word_of(amount));
    let high = match (carries, amount.0 < 0) {
        (true, false) => total.high + 1,
        (false, true) => total.high - 1,
        _ => total.high,
    };
    Total { high, low }
}

// An amount taken off. The least amount has no negative of its own in 64 bits.
pub fn minus(total: Total, amount: Microcents) -> Total
    requires { mag total.high < 2 ^ 61 }
    ensures value { value_of result ≡ value_of total -ℤ amount.0 }
    ensures moved { Moved (mag total.high + 2) result }
{
    match amount.0.checked_neg() {
        Some(negative) => plus(total, Microcents(negative)),
        None => plus(plus(total, Microcents(i64::MAX)), Microcents(1)),
    }
}

// A total is an amount where its high word only repeats the sign of its low word.
#[tactic(auto, unfolding(rules::specs::RoomAndSoundLedger::M))]
pub fn fit(total: Total) -> Option<Microcents>
    ensures { result ≡ fitted (value_of total) }
{
    let amount = big_endian::signed(total.low);
    let sign = if amount.0 < 0 { -1 } else { 0 };
    if total.high == sign {
        Some(amount)
    } else {
        None
    }
}
