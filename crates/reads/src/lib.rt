// Reads on a ledger already known to be sound: the amounts of one name, and those of the whole ledger. Nothing changes.

#![tactic(auto)]

ghost use Rattle.std.specs.Prelude.{◌≤◌, ◌≡◌, pos, [], ◌∷◌, Ok};
ghost use Rattle.rules.specs.RoomAndSoundLedger.{M, committed_total};
ghost use Rattle.rules.specs.AccountRules.{read_remaining, read_initial, read_committed, read_reserved, operate, read_committed_total, read_accounts, read_live, read_last_version, read_committed_since, read_ledger};
ghost use Rattle.room.specs.Room.{SoundRoom, OfRoom};
ghost use Rattle.rules.specs.AnswerNumbers.{Amount, done};
ghost use Rattle.refusals.specs.Answers.{answer_of, carries_amount, carries_count, carries_version};
ghost use Rattle.reads.specs.Answers.{sought, with_account, summed};

use moves::Seat;
use numbers::Microcents;
use refusals::Refusal;

// The seat of a name that is not too long.
fn seek(room: &[u8], part: &[u8]) -> Result<Seat, Refusal>
    requires { SoundRoom room.now }
    ensures { OfRoom room.now (λ L. result ≡ sought L part.now) }
{
    if rules::LONGEST_NAME < part.len() {
        return Err(Refusal::NameTooLong);
    }
    let found = lookup::find(room, part);
    Ok(seats::seat_at(room, found))
}

// Document 01, Account rules, reads: without an account three of the four amounts are refused with 3.
fn of_account(seat: Seat, amount: u64) -> Result<Microcents, Refusal>
    requires { amount ≤ M }
    ensures { answer_of carries_amount result ≡ answer_of (λ _. Amount (pos amount) ∷ []) (with_account (Ok seat)) }
{
    if seat.account == 0 {
        return Err(Refusal::MissingTenant);
    }
    Ok(numbers::amount(amount))
}

pub fn remaining(room: &[u8], part: &[u8]) -> Result<Microcents, Refusal>
    requires { SoundRoom room.now }
    ensures { OfRoom room.now (λ L. answer_of carries_amount result ≡ (operate L (read_remaining part.now)).reply) }
{
    let Ok(seat) = seek(room, part) else {
        return Err(Refusal::NameTooLong);
    };
    of_account(seat, seat.remaining)
}

pub fn initial(room: &[u8], part: &[u8]) -> Result<Microcents, Refusal>
    requires { SoundRoom room.now }
    ensures { OfRoom room.now (λ L. answer_of carries_amount result ≡ (operate L (read_initial part.now)).reply) }
{
    let Ok(seat) = seek(room, part) else {
        return Err(Refusal::NameTooLong);
    };
    of_account(seat, seat.initial)
}

pub fn committed(room: &[u8], part: &[u8]) -> Result<Microcents, Refusal>
    requires { SoundRoom room.now }
    ensures { OfRoom room.now (λ L. answer_of carries_amount result ≡ (operate L (read_committed part.now)).reply) }
{
    let Ok(seat) = seek(room, part) else {
        return Err(Refusal::NameTooLong);
    };
    of_account(seat, seat.committed)
}

// "reserved of one gives 0": a name without an account has nothing reserved.
pub fn reserved(room: &[u8], part: &[u8]) -> Result<Microcents, Refusal>
    requires { SoundRoom room.now }
    ensures { OfRoom room.now (λ L. answer_of carries_amount result ≡ (operate L (read_reserved part.now)).reply) }
{
    let Ok(seat) = seek(room, part) else {
        return Err(Refusal::NameTooLong);
    };
    Ok(numbers::amount(seat.reserved))
}

// The sum of what is committed, or that it is above M.
fn sum_committed(room: &[u8]) -> Option<u64>
    requires { SoundRoom room.now }
    ensures { OfRoom room.now (λ L. result ≡ summed (committed_total L.places)) }
{
    let sizes = records::load_sizes(room);
    let used = sizes.used as usize;
    let mut total = 0;
    for i in 0..used {
        let place = records::load_place(room, i);
        let Some(more) = numbers::plus(total, place.committed) else {
            return None;
        };
        total = more;
    }
    Some(total)
}

// "the committed total (15 above M)"
pub fn committed_total(room: &[u8]) -> Result<Microcents, Refusal>
    requires { SoundRoom room.now }
    ensures { OfRoom room.now (λ L. answer_of carries_amount result ≡ read_ledger L read_committed_total) }
{
    let Some(total) = sum_committed(room) else {
        return Err(Refusal::AggregateOverflow);
    };
    Ok(numbers::amount(total))
}

pub fn accounts(room: &[u8]) -> u64
    requires { SoundRoom room.now }
    ensures { OfRoom room.now (λ L. done (carries_count result) ≡ read_ledger L read_accounts) }
{
    let sizes = records::load_sizes(room);
    let used = sizes.used as usize;
    let mut count = 0;
    for at in 0..used {
        let place = records::load_place(room, at);
        if place.account != 0 {
            count += 1;
        }
    }
    count
}

pub fn live(room: &[u8]) -> u64
    requires { SoundRoom room.now }
    ensures { OfRoom room.now (λ L. done (carries_count result) ≡ read_ledger L read_live) }
{
    let sizes = records::load_sizes(room);
    sizes.live
}

pub fn last_version(room: &[u8]) -> u64
    requires { SoundRoom room.now }
    ensures { OfRoom room.now (λ L. done (carries_version result) ≡ read_ledger L read_last_version) }
{
    let head = records::load_head(room);
    head.last_version
}

// Document 01, Account rules, reads: by how much the committed total, cut off at M, exceeds the baseline.
pub fn committed_since(room: &[u8]) -> Microcents
    requires { SoundRoom room.now }
    ensures { OfRoom room.now (λ L. done (carries_amount result) ≡ read_ledger L read_committed_since) }
{
    let head = records::load_head(room);
    let total = sum_committed(room).unwrap_or(rules::M);
    numbers::amount(total - head.baseline)
}
