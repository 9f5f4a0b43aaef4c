// The account rules by value: what an airline has goes in, and what the rule decides comes out. No table is seen here.

#![tactic(auto)]

ghost use Rattle.std.specs.Prelude.{◌≡◌, true, false, ◌&&◌, ◌+◌, ◌≤◌, ◌<◌, ltb, pos, IfOk, IfSome};
ghost use Rattle.std.proofs.Math.Option.{some};
ghost use Rattle.rules.specs.RoomAndSoundLedger.{M, has_account};
ghost use Rattle.rules.specs.AccountRules.{ensure_rule, top_up_rule, limit_rule, reserve_rule, commit_rule, release_rule};
ghost use Rattle.moves.specs.Moves.{SeatSound, account_of, ensuring_move, topping_up_move, limiting_move, reserving_move, committing_settlement, releasing_settlement};

use numbers::{Held, Microcents};
use refusals::Refusal;

// What a place keeps of a name beside the name: account is 1 with an account and 0 without one, and a limit of 0 is none.
#[derive(Clone, Copy)]
pub struct Seat {
    pub initial: u64,
    pub remaining: u64,
    pub reserved: u64,
    pub committed: u64,
    pub limit: u64,
    pub account: u8,
}

pub fn has_account(seat: Seat) -> bool
    ensures { result ≡ has_account (account_of seat) }
{
    seat.account != 0
}

// Opens an account with an amount that is not negative, where the name has none: one that is there stays as it is.
#[tactic(auto, unfolding(rules::specs::AccountRules::ensure_rule, crate::specs::Moves::kept_seat))]
pub fn ensure(seat: Seat, opening: u64) -> Option<Seat>
    requires { SeatSound seat × (opening ≤ M) }
    ensures { (ensuring_move result ≡ ensure_rule (pos opening) (account_of seat) seat.limit) × IfSome result SeatSound }
{
    let false = has_account(seat) else {
        return None;
    };
    Some(Seat {
        initial: opening,
        remaining: opening,
        reserved: 0,
        committed: 0,
        limit: seat.limit,
        account: 1,
    })
}

// Adds a positive amount to an account.
#[tactic(auto, unfolding(rules::specs::AccountRules::top_up_rule, crate::specs::Moves::kept_seat))]
pub fn top_up(seat: Seat, added: u64) -> Result<Seat, Refusal>
    requires { SeatSound seat × (has_account (account_of seat) ≡ true) × (0 < added) }
    ensures { (topping_up_move (pos added) result ≡ top_up_rule (pos added) (account_of seat) seat.limit) × IfOk result SeatSound }
{
    let Some(initial) = numbers::plus(seat.initial, added) else {
        return Err(Refusal::OverflowOfTopUp);
    };
    Ok(Seat {
        initial,
        remaining: seat.remaining + added,
        ..seat
    })
}

// Sets the limit, with or without an account; 0 is none.
#[tactic(auto, unfolding(rules::specs::RoomAndSoundLedger::M, rules::specs::AccountRules::limit_rule, crate::specs::Moves::kept_seat))]
pub fn limit(seat: Seat, amount: Microcents) -> Result<Seat, Refusal>
    requires { SeatSound seat }
    ensures { (limiting_move result ≡ limit_rule amount.0 (account_of seat) seat.limit) × IfOk result SeatSound }
{
    let Some(limit) = numbers::natural_of(amount) else {
        return Err(Refusal::NegativeAmount(amount));
    };
    Ok(Seat { limit, ..seat })
}

// A limit that is set, and that a sum of reserved amounts is above.
pub fn exceeds(limit: u64, reserved: u64) -> bool
    ensures { result ≡ (ltb 0 limit && ltb limit reserved) }
{
    0 < limit && limit < reserved
}

// Sets a positive cost aside, where an id was drawn for it. Reserved is the sum with the cost, which the limit allows. Insufficient uses the id up all the
// same; the room for a booking is asked by the caller, last.
#[tactic(auto, unfolding(rules::specs::AccountRules::reserve_rule, crate::specs::Moves::kept_seat))]
pub fn reserve(seat: Seat, asked: u64, reserved: u64) -> Result<Seat, Refusal>
    requires known { SeatSound seat × (has_account (account_of seat) ≡ true) × (0 < asked) }
    requires sum { (reserved ≡ seat.reserved + asked) × (reserved ≤ M) × ((ltb 0 seat.limit && ltb seat.limit reserved) ≡ false) }
    ensures { (reserving_move asked result ≡ reserve_rule (pos asked) false (account_of seat) seat.limit) × IfOk result SeatSound }
{
    let Some(remaining) = seat.remaining.checked_sub(asked) else {
        return Err(Refusal::Insufficient(numbers::amount(seat.remaining), numbers::amount(asked)));
    };
    Ok(Seat {
        remaining,
        reserved,
        ..seat
    })
}

// Spends what was booked, more or less of it: delta is taken from what remains, or given back where it is negative. Committed is the sum with what is spent.
#[tactic(auto, unfolding(rules::specs::AccountRules::commit_rule, crate::specs::Moves::kept_seat))]
pub fn commit(seat: Seat, booked: Held, spent: u64, committed: u64) -> Result<Seat, Refusal>
    requires known { SeatSound seat × (has_account (account_of seat) ≡ true) × (booked.0 ≤ seat.reserved) }
    requires sum { (committed ≡ seat.committed + spent) × (committed ≤ M) }
    ensures { (committing_settlement (pos spent) result ≡ commit_rule (pos spent) (some booked.0) (account_of seat) seat.limit) × IfOk result SeatSound }
{
    let delta = numbers::delta(spent, booked.0);
    let Some(remaining) = numbers::less_delta(seat.remaining, delta) else {
        return Err(Refusal::Overrun(numbers::amount(seat.remaining)));
    };
    Ok(Seat {
        remaining,
        reserved: seat.reserved - booked.0,
        committed,
        ..seat
    })
}

// Gives back what was booked.
#[tactic(auto, unfolding(rules::specs::AccountRules::release_rule, crate::specs::Moves::kept_seat))]
pub fn release(seat: Seat, booked: Held) -> Result<Seat, Refusal>
    requires { SeatSound seat × (booked.0 ≤ seat.reserved) }
    ensures { (releasing_settlement booked.0 result ≡ release_rule (some booked.0) (account_of seat) seat.limit) × IfOk result SeatSound }
{
    let true = has_account(seat) else {
        return Err(Refusal::MissingTenant);
    };
    Ok(Seat {
        remaining: seat.remaining + booked.0,
        reserved: seat.reserved - booked.0,
        ..seat
    })
}
