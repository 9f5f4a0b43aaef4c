// Answers as document 01 writes them: a refusal by its number and what it carries, and behind 0 what is handed over.

#![tactic(auto)]

ghost use Rattle.std.specs.Prelude.{◌≤◌, List, length};
ghost use Rattle.rules.specs.RoomAndSoundLedger.{longest_name};
ghost use Rattle.rules.specs.AnswerNumbers.{Value, done, reply_of};
ghost use Rattle.names.specs.Names.{spelled};
ghost use Rattle.refusals.specs.Answers.{refusal_of, answer_of, carries_nothing};
ghost use Rattle.accounts.specs.Answers.{carries_top_up};
ghost use Rattle.reservations.specs.Answers.{carries_grant, carries_commit, carries_release};
ghost use Rattle.validation.specs.Judgement.{of_row};
ghost use Rattle.certificates.specs.Certified.{carries_certificate, carries_proof};
ghost use Rattle.answer_bytes.specs.Sizes.{longest_other_answer};
ghost use Rattle.answer_bytes.specs.Writing.{WritesReply};

use accounts::ToppedUp;
use answer_bytes::{
    write_named, write_named_field, write_named_word, write_number, write_three_words,
    write_two_words, write_word,
};
use big_endian::word_of;
use certificates::{Certificate, Proof};
use names::Name;
use refusals::Refusal;
use reservations::{Committed, Granted, Released};
use validation::RowRefusal;

// What an operation hands over when it is done.
pub trait Carried {
    ghost carried: { Self → List Value };

    fn write(self, output: &mut [u8]) -> usize
        requires { longest_other_answer ≤ length output.old }
        ensures { WritesReply (done (carried self)) output.old output.new result };
}

impl Carried for () {
    ghost carried = { carries_nothing };

    fn write(self, output: &mut [u8]) -> usize {
        write_number(output, 0)
    }
}

impl Carried for ToppedUp {
    ghost carried = { carries_top_up };

    fn write(self, output: &mut [u8]) -> usize {
        write_three_words(
            output,
            0,
            word_of(self.amount),
            word_of(self.initial),
            word_of(self.remaining),
        )
    }
}

impl Carried for Granted {
    ghost carried = { carries_grant };

    fn write(self, output: &mut [u8]) -> usize {
        write_two_words(output, 0, word_of(self.remaining), self.id.0)
    }
}

impl Carried for Committed {
    ghost carried = { carries_commit };

    fn write(self, output: &mut [u8]) -> usize {
        write_two_words(output, 0, word_of(self.remaining), word_of(self.actual))
    }
}

impl Carried for Released {
    ghost carried = { carries_release };

    fn write(self, output: &mut [u8]) -> usize {
        write_two_words(output, 0, word_of(self.remaining), word_of(self.amount))
    }
}

impl Carried for Certificate {
    ghost carried = { carries_certificate };

    fn write(self, output: &mut [u8]) -> usize {
        answer_bytes::write_certificate(
            output,
            self.version,
            self.rows,
            self.active,
            u8::from(self.balanced),
            word_of(self.initial_total),
            word_of(self.committed_total),
            u8::from(self.representable),
            word_of(self.since),
        )
    }
}

// A proof that is handed out says yes.
impl Carried for Proof {
    ghost carried = { carries_proof };

    fn write(self, output: &mut [u8]) -> usize {
        answer_bytes::write_proof(
            output,
            self.version,
            self.accounts,
            self.active,
            word_of(self.initial_total),
            word_of(self.committed_total),
            1,
        )
    }
}

// What is wrong with a row, told with the name that is handed in beside it: what stands past its length is not asked for. 15 carries none.
pub fn write_row_refusal(output: &mut [u8], name: Name, refusal: RowRefusal) -> usize
    requires { (longest_other_answer ≤ length output.old) × (name.length ≤ longest_name) }
    ensures { WritesReply (reply_of (of_row (spelled name) refusal)) output.old output.new result }
{
    match refusal {
        RowRefusal::DuplicateTenant => write_named(output, 11, name),
        RowRefusal::GhostReservation(reserved) => {
            write_named_word(output, 12, name, word_of(reserved))
        }
        RowRefusal::NegativeLedgerField(field, value) => {
            write_named_field(output, 13, name, field, word_of(value))
        }
        RowRefusal::ConservationViolation(delta) => {
            write_named_word(output, 14, name, word_of(delta))
        }
        RowRefusal::AggregateOverflow => write_number(output, 15),
    }
}

// The table of document 01, "Answer numbers". It is written out in each caller, so that a refusal that is known there costs no search for its arm.
#[inline(always)]
pub fn write_refusal(output: &mut [u8], refusal: Refusal) -> usize
    requires { longest_other_answer ≤ length output.old }
    ensures { WritesReply (reply_of (refusal_of refusal)) output.old output.new result }
{
    match refusal {
        Refusal::NegativeAmount(value) => write_word(output, 1, word_of(value)),
        Refusal::InvalidAmount => write_number(output, 2),
        Refusal::MissingTenant => write_number(output, 3),
        Refusal::Overflow(carried) => write_word(output, 4, word_of(carried)),
        Refusal::OverflowOfTopUp => write_number(output, 4),
        Refusal::ExposureLimitExceeded(reserved, limit) => {
            write_two_words(output, 5, word_of(reserved), word_of(limit))
        }
        Refusal::Insufficient(remaining, required) => {
            write_two_words(output, 6, word_of(remaining), word_of(required))
        }
        Refusal::MissingReservation => write_number(output, 7),
        Refusal::Overrun(remaining) => write_word(output, 8, word_of(remaining)),
        Refusal::AllocatorExhausted => write_number(output, 9),
        Refusal::ActiveReservations(count) => write_word(output, 10, count),
        Refusal::DuplicateTenant(tenant) => write_named(output, 11, tenant.name),
        Refusal::GhostReservation(tenant, reserved) => {
            write_named_word(output, 12, tenant.name, word_of(reserved))
        }
        Refusal::NegativeLedgerField(tenant, field, value) => {
            write_named_field(output, 13, tenant.name, field, word_of(value))
        }
        Refusal::ConservationViolation(tenant, delta) => {
            write_named_word(output, 14, tenant.name, word_of(delta))
        }
        Refusal::AggregateOverflow => write_number(output, 15),
        Refusal::AlreadyRecoveryAware => write_number(output, 16),
        Refusal::InvalidAllocatorFence(fence) => write_word(output, 17, fence),
        Refusal::LegacySnapshotRequiresMigration => write_number(output, 18),
        Refusal::NameTooLong => write_number(output, 19),
        Refusal::NamesFull => write_number(output, 20),
        Refusal::ReservationsFull => write_number(output, 21),
        Refusal::OutputTooShort => write_number(output, 22),
        Refusal::BadFrame => write_number(output, 23),
        Refusal::UnsoundLedger => write_number(output, 24),
    }
}

// 0 and what is handed over, or the refusal.
pub fn write_answer<T: Carried>(output: &mut [u8], answer: Result<T, Refusal>) -> usize
    requires { longest_other_answer ≤ length output.old }
    ensures { WritesReply (answer_of T.carried answer) output.old output.new result }
{
    match answer {
        Ok(done) => done.write(output),
        Err(refusal) => write_refusal(output, refusal),
    }
}
