// Ensure, top-up and limit on a ledger already known to be sound, which they leave sound: a batch checks once and runs many.

#![tactic(auto)]

ghost use Rattle.rules.specs.AccountRules.{ensure, top_up, limit, operate};
ghost use Rattle.refusals.specs.Answers.{answer_of, carries_nothing};
ghost use Rattle.room.specs.Room.{SoundRoom, Performs};
ghost use Rattle.accounts.specs.Answers.{carries_top_up};

use numbers::Microcents;
use refusals::Refusal;

// What a top-up hands over.
#[derive(Clone, Copy)]
pub struct ToppedUp {
    pub amount: Microcents,
    pub initial: Microcents,
    pub remaining: Microcents,
}

pub fn ensure(room: &mut [u8], part: &[u8], amount: Microcents) -> Result<(), Refusal>
    requires { SoundRoom room.old }
    ensures { Performs (λ K. operate K (ensure part.now amount.0)) room.old (answer_of carries_nothing result) room.new }
{
    if rules::LONGEST_NAME < part.len() {
        return Err(Refusal::NameTooLong);
    }
    let found = lookup::find(room, part);
    let seat = seats::seat_at(room, found);
    let Some(opening) = numbers::natural_of(amount) else {
        return Err(Refusal::NegativeAmount(amount));
    };
    let Some(opened) = moves::ensure(seat, opening) else {
        return Ok(());
    };
    let Ok(()) = seats::write_seat(room, part, found, opened) else {
        return Err(Refusal::NamesFull);
    };
    Ok(())
}

pub fn top_up(room: &mut [u8], part: &[u8], amount: Microcents) -> Result<ToppedUp, Refusal>
    requires { SoundRoom room.old }
    ensures { Performs (λ K. operate K (top_up part.now amount.0)) room.old (answer_of carries_top_up result) room.new }
{
    if rules::LONGEST_NAME < part.len() {
        return Err(Refusal::NameTooLong);
    }
    let found = lookup::find(room, part);
    let seat = seats::seat_at(room, found);
    let Some(added) = numbers::positive_of(amount) else {
        return Err(Refusal::InvalidAmount);
    };
    let true = moves::has_account(seat) else {
        return Err(Refusal::MissingTenant);
    };
    let Ok(grown) = moves::top_up(seat, added) else {
        return Err(Refusal::OverflowOfTopUp);
    };
    seats::write_seat(room, part, found, grown)?;
    Ok(ToppedUp {
        amount,
        initial: numbers::amount(grown.initial),
        remaining: numbers::amount(grown.remaining),
    })
}

pub fn limit(room: &mut [u8], part: &[u8], amount: Microcents) -> Result<(), Refusal>
    requires { SoundRoom room.old }
    ensures { Performs (λ K. operate K (limit part.now amount.0)) room.old (answer_of carries_nothing result) room.new }
{
    if rules::LONGEST_NAME < part.len() {
        return Err(Refusal::NameTooLong);
    }
    let found = lookup::find(room, part);
    let seat = seats::seat_at(room, found);
    let Ok(changed) = moves::limit(seat, amount) else {
        return Err(Refusal::NegativeAmount(amount));
    };
    let Ok(()) = seats::write_seat(room, part, found, changed) else {
        return Err(Refusal::NamesFull);
    };
    Ok(())
}
