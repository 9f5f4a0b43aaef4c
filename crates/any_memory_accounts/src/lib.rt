// The ledger in lent memory, for any caller: any memory, any bytes as a name, any 64-bit amount. Each operation asks first whether the memory is the
// room of a sound ledger, answers UnsoundLedger and changes nothing where it is not, and else is the operation of the rules.

#![tactic(auto)]

ghost use Rattle.rules.specs.AccountRules.{ensure, top_up, limit, reserve, commit, release, operate};
ghost use Rattle.rules.specs.AccountRules.{read_remaining, read_initial, read_committed, read_reserved, read_committed_total, read_accounts, read_live, read_last_version, read_committed_since, read_ledger};
ghost use Rattle.refusals.specs.Answers.{answer_of, carries_nothing, carries_amount, carries_count, carries_version};
ghost use Rattle.accounts.specs.Answers.{carries_top_up};
ghost use Rattle.reservations.specs.Answers.{carries_grant, carries_commit, carries_release};
ghost use Rattle.room.specs.Room.{Answers};
ghost use Rattle.any_memory_accounts.specs.Tells.{Tells};

use accounts::ToppedUp;
use numbers::{Identifier, Microcents};
use refusals::Refusal;
use reservations::{Committed, Granted, Released};

pub fn ensure(room: &mut [u8], name: &[u8], amount: Microcents) -> Result<(), Refusal>
    ensures { Answers (λ L. operate L (ensure name.now amount.0)) room.old (answer_of carries_nothing result) room.new }
{
    soundness::expect_sound(room)?;
    accounts::ensure(room, name, amount)
}

pub fn top_up(room: &mut [u8], name: &[u8], amount: Microcents) -> Result<ToppedUp, Refusal>
    ensures { Answers (λ L. operate L (top_up name.now amount.0)) room.old (answer_of carries_top_up result) room.new }
{
    soundness::expect_sound(room)?;
    accounts::top_up(room, name, amount)
}

pub fn limit(room: &mut [u8], name: &[u8], amount: Microcents) -> Result<(), Refusal>
    ensures { Answers (λ L. operate L (limit name.now amount.0)) room.old (answer_of carries_nothing result) room.new }
{
    soundness::expect_sound(room)?;
    accounts::limit(room, name, amount)
}

pub fn reserve(room: &mut [u8], name: &[u8], cost: Microcents) -> Result<Granted, Refusal>
    ensures { Answers (λ L. operate L (reserve name.now cost.0)) room.old (answer_of carries_grant result) room.new }
{
    soundness::expect_sound(room)?;
    reservations::reserve(room, name, cost)
}

pub fn commit(room: &mut [u8], id: Identifier, actual: Microcents) -> Result<Committed, Refusal>
    ensures { Answers (λ L. operate L (commit id.0 actual.0)) room.old (answer_of carries_commit result) room.new }
{
    soundness::expect_sound(room)?;
    reservations::commit(room, id, actual)
}

pub fn release(room: &mut [u8], id: Identifier) -> Result<Released, Refusal>
    ensures { Answers (λ L. operate L (release id.0)) room.old (answer_of carries_release result) room.new }
{
    soundness::expect_sound(room)?;
    reservations::release(room, id)
}

pub fn remaining(room: &[u8], name: &[u8]) -> Result<Microcents, Refusal>
    ensures { Tells (λ L. (operate L (read_remaining name.now)).reply) room.now (answer_of carries_amount result) }
{
    soundness::expect_sound(room)?;
    reads::remaining(room, name)
}

pub fn initial(room: &[u8], name: &[u8]) -> Result<Microcents, Refusal>
    ensures { Tells (λ L. (operate L (read_initial name.now)).reply) room.now (answer_of carries_amount result) }
{
    soundness::expect_sound(room)?;
    reads::initial(room, name)
}

pub fn committed(room: &[u8], name: &[u8]) -> Result<Microcents, Refusal>
    ensures { Tells (λ L. (operate L (read_committed name.now)).reply) room.now (answer_of carries_amount result) }
{
    soundness::expect_sound(room)?;
    reads::committed(room, name)
}

pub fn reserved(room: &[u8], name: &[u8]) -> Result<Microcents, Refusal>
    ensures { Tells (λ L. (operate L (read_reserved name.now)).reply) room.now (answer_of carries_amount result) }
{
    soundness::expect_sound(room)?;
    reads::reserved(room, name)
}

pub fn committed_total(room: &[u8]) -> Result<Microcents, Refusal>
    ensures { Tells (λ L. read_ledger L read_committed_total) room.now (answer_of carries_amount result) }
{
    soundness::expect_sound(room)?;
    reads::committed_total(room)
}

pub fn accounts(room: &[u8]) -> Result<u64, Refusal>
    ensures { Tells (λ L. read_ledger L read_accounts) room.now (answer_of carries_count result) }
{
    soundness::expect_sound(room)?;
    Ok(reads::accounts(room))
}

pub fn live(room: &[u8]) -> Result<u64, Refusal>
    ensures { Tells (λ L. read_ledger L read_live) room.now (answer_of carries_count result) }
{
    soundness::expect_sound(room)?;
    Ok(reads::live(room))
}

pub fn last_version(room: &[u8]) -> Result<u64, Refusal>
    ensures { Tells (λ L. read_ledger L read_last_version) room.now (answer_of carries_version result) }
{
    soundness::expect_sound(room)?;
    Ok(reads::last_version(room))
}

pub fn committed_since(room: &[u8]) -> Result<Microcents, Refusal>
    ensures { Tells (λ L. read_ledger L read_committed_since) room.now (answer_of carries_amount result) }
{
    soundness::expect_sound(room)?;
    Ok(reads::committed_since(room))
}
