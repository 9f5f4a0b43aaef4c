// The nine reads, for programs in C and Rust: the answer number is returned, and the number that it carries is written to the lent place, which a refusal
// leaves as it is. None of them changes the room, and none has a frame (document 01, Account rules), so a read draws no id.
ghost use Rattle.std.specs.Prelude.{◌≡◌, [], ◌∷◌};
ghost use Rattle.rules.specs.AnswerNumbers.{Amount, Count, Version};
ghost use Rattle.rules.specs.AccountRules.{operate, read_remaining, read_initial, read_committed, read_reserved};
ghost use Rattle.rules.specs.AccountRules.{read_ledger, read_committed_total, read_accounts, read_live, read_last_version, read_committed_since};
ghost use Rattle.refusals.specs.Answers.{answer_of, carries_amount};
ghost use Rattle.zatovola.specs.Reads.{HandedOver, Reads};

use numbers::Microcents;
use refusals::Refusal;

// The number of an answer, whose value goes to its place.
pub(crate) fn hand_over<T: Copy>(answer: Result<T, Refusal>, place: &mut T) -> u8
    ensures { HandedOver answer place.old result place.new }
{
    match answer {
        Ok(value) => {
            *place = value;
            0
        }
        Err(refusal) => refusal.number(),
    }
}

// An amount as C has it.
fn microcents(read: Result<Microcents, Refusal>) -> Result<i64, Refusal>
    ensures { answer_of (λ amount. Amount amount ∷ []) result ≡ answer_of carries_amount read }
{
    read.map(|amount| amount.0)
}

#[unsafe(no_mangle)]
pub extern "C" fn zatovola_remaining(room: &[u8], name: &[u8], value: &mut i64) -> u8
    ensures { Reads Amount (λ L. (operate L (read_remaining name.now)).reply)
        room.now value.old result value.new }
{
    hand_over(
        microcents(any_memory_accounts::remaining(room, name)),
        value,
    )
}

#[unsafe(no_mangle)]
pub extern "C" fn zatovola_initial(room: &[u8], name: &[u8], value: &mut i64) -> u8
    ensures { Reads Amount (λ L. (operate L (read_initial name.now)).reply)
        room.now value.old result value.new }
{
    hand_over(microcents(any_memory_accounts::initial(room, name)), value)
}

#[unsafe(no_mangle)]
pub extern "C" fn zatovola_committed(room: &[u8], name: &[u8], value: &mut i64) -> u8
    ensures { Reads Amount (λ L. (operate L (read_committed name.now)).reply)
        room.now value.old result value.new }
{
    hand_over(
        microcents(any_memory_accounts::committed(room, name)),
        value,
    )
}

#[unsafe(no_mangle)]
pub extern "C" fn zatovola_reserved(room: &[u8], name: &[u8], value: &mut i64) -> u8
    ensures { Reads Amount (λ L. (operate L (read_reserved name.now)).reply)
        room.now value.old result value.new }
{
    hand_over(microcents(any_memory_accounts::reserved(room, name)), value)
}

#[unsafe(no_mangle)]
pub extern "C" fn zatovola_committed_total(room: &[u8], value: &mut i64) -> u8
    ensures { Reads Amount (λ L. read_ledger L read_committed_total) room.now value.old result value.new }
{
    hand_over(
        microcents(any_memory_accounts::committed_total(room)),
        value,
    )
}

#[unsafe(no_mangle)]
pub extern "C" fn zatovola_accounts(room: &[u8], value: &mut u64) -> u8
    ensures { Reads Count (λ L. read_ledger L read_accounts) room.now value.old result value.new }
{
    hand_over(any_memory_accounts::accounts(room), value)
}

#[unsafe(no_mangle)]
pub extern "C" fn zatovola_live_reservations(room: &[u8], value: &mut u64) -> u8
    ensures { Reads Count (λ L. read_ledger L read_live) room.now value.old result value.new }
{
    hand_over(any_memory_accounts::live(room), value)
}

#[unsafe(no_mangle)]
pub extern "C" fn zatovola_last_version(room: &[u8], value: &mut u64) -> u8
    ensures { Reads Version (λ L. read_ledger L read_last_version) room.now value.old result value.new }
{
    hand_over(any_memory_accounts::last_version(room), value)
}

#[unsafe(no_mangle)]
pub extern "C" fn zatovola_committed_since(room: &[u8], value: &mut i64) -> u8
    ensures { Reads Amount (λ L. read_ledger L read_committed_since) room.now value.old result value.new }
{
    hand_over(
        microcents(any_memory_accounts::committed_since(room)),
        value,
    )
}
