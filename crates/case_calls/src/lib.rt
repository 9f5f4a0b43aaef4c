// The calls whose answers are bytes. Each function answers some operations: it writes the answer to the front of the room for it and says how many bytes it
// takes, or none where the operation is another, or one of its numbers is missing.

#![tactic(auto)]

use answer_bytes::LONGEST_OTHER_ANSWER;
use case_text::text::Numbers;
use numbers::{Identifier, Microcents};
use refusals::Refusal;

fn on_account(
    operation: &[u8],
    name: &[u8],
    amount: Microcents,
    memory: &mut [u8],
    answer: &mut [u8; LONGEST_OTHER_ANSWER],
) -> Option<usize> {
    let size = match operation {
        b"ensure" => {
            answers::write_answer(answer, any_memory_accounts::ensure(memory, name, amount))
        }
        b"top-up" => {
            answers::write_answer(answer, any_memory_accounts::top_up(memory, name, amount))
        }
        b"limit" => {
            answers::write_answer(answer, any_memory_accounts::limit(memory, name, amount))
        }
        b"reserve" => {
            answers::write_answer(answer, any_memory_accounts::reserve(memory, name, amount))
        }
        _ => return None,
    };
    Some(size)
}

pub fn change(
    operation: &[u8],
    name: &[u8],
    numbers: Numbers,
    memory: &mut [u8],
    answer: &mut [u8; LONGEST_OTHER_ANSWER],
) -> Option<usize> {
    let size = match operation {
        b"make" => {
            let made = soundness::make(memory, numbers.first?, numbers.second?);
            answers::write_answer(answer, made)
        }
        b"commit" => {
            let id = Identifier(numbers.first?);
            let actual = big_endian::signed(numbers.amount?);
            answers::write_answer(answer, any_memory_accounts::commit(memory, id, actual))
        }
        b"release" => {
            let id = Identifier(numbers.second?);
            answers::write_answer(answer, any_memory_accounts::release(memory, id))
        }
        _ => {
            let amount = big_endian::signed(numbers.amount?);
            return on_account(operation, name, amount, memory, answer);
        }
    };
    Some(size)
}

// A read tells one word: an amount, or a count.
fn write_read(answer: &mut [u8; LONGEST_OTHER_ANSWER], read: Result<u64, Refusal>) -> usize {
    match read {
        Ok(word) => answer_bytes::write_word(answer, 0, word),
        Err(refusal) => answers::write_refusal(answer, refusal),
    }
}

fn write_amount(
    answer: &mut [u8; LONGEST_OTHER_ANSWER],
    read: Result<Microcents, Refusal>,
) -> usize {
    write_read(answer, read.map(big_endian::word_of))
}

pub fn read(
    operation: &[u8],
    name: &[u8],
    memory: &[u8],
    answer: &mut [u8; LONGEST_OTHER_ANSWER],
) -> Option<usize> {
    let size = match operation {
        b"remaining" => write_amount(answer, any_memory_accounts::remaining(memory, name)),
        b"initial" => write_amount(answer, any_memory_accounts::initial(memory, name)),
        b"committed" => write_amount(answer, any_memory_accounts::committed(memory, name)),
        b"reserved" => write_amount(answer, any_memory_accounts::reserved(memory, name)),
        b"committed-total" => write_amount(answer, any_memory_accounts::committed_total(memory)),
        b"accounts" => write_read(answer, any_memory_accounts::accounts(memory)),
        b"live" => write_read(answer, any_memory_accounts::live(memory)),
        b"committed-since" => write_amount(answer, any_memory_accounts::committed_since(memory)),
        _ => return None,
    };
    Some(size)
}

fn certify(
    operation: &[u8],
    since: Option<u64>,
    memory: &mut [u8],
    supplied: &[u8],
    answer: &mut [u8; LONGEST_OTHER_ANSWER],
) -> Option<usize> {
    let size = match operation {
        b"certificate" => {
            answers::write_answer(answer, any_memory_snapshots::certificate(memory))
        }
        b"certificate-of" => {
            let since = big_endian::signed(since?);
            let certificate = any_memory_snapshots::certificate_of_snapshot(supplied, since);
            answers::write_answer(answer, certificate)
        }
        b"proof" => {
            answers::write_answer(answer, any_memory_snapshots::conservation_proof(memory))
        }
        _ => return None,
    };
    Some(size)
}

// A migration that is done shows its number alone: the migrated snapshot stands in the output.
pub fn judge(
    operation: &[u8],
    numbers: Numbers,
    memory: &mut [u8],
    supplied: &[u8],
    output: &mut [u8],
    answer: &mut [u8; LONGEST_OTHER_ANSWER],
) -> Option<usize> {
    let done = match operation {
        b"restore" => any_memory_snapshots::restore(memory, supplied),
        b"recovery-restore" => any_memory_snapshots::recovery_restore(memory, supplied),
        b"migrate" => {
            let fence = numbers.second?;
            any_memory_snapshots::migrate(supplied, fence, output).map(|_| ())
        }
        b"status" => any_memory_snapshots::status(supplied),
        _ => return certify(operation, numbers.amount, memory, supplied, answer),
    };
    Some(answers::write_answer(answer, done))
}
