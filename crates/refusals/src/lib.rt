// The refusals of document 01, "Answer numbers", each with what it carries: one table of them for every operation.

#![tactic(auto)]

mod tenant_name;

ghost use Rattle.std.specs.Prelude.{◌≡◌};
ghost use Rattle.rules.specs.AnswerNumbers.{reply_of};
ghost use Rattle.refusals.specs.Answers.{refusal_of};

use numbers::Microcents;
pub use tenant_name::{TenantName, no_tenant};

// 4 carries what is reserved after a reserve and what remains after a commit, and nothing after a top-up: so no two of these are told alike.
#[derive(Clone, Copy)]
pub enum Refusal {
    NegativeAmount(Microcents),
    InvalidAmount,
    MissingTenant,
    Overflow(Microcents),
    OverflowOfTopUp,
    ExposureLimitExceeded(Microcents, Microcents),
    Insufficient(Microcents, Microcents),
    MissingReservation,
    Overrun(Microcents),
    AllocatorExhausted,
    ActiveReservations(u64),
    DuplicateTenant(TenantName),
    GhostReservation(TenantName, Microcents),
    NegativeLedgerField(TenantName, u8, Microcents),
    ConservationViolation(TenantName, Microcents),
    AggregateOverflow,
    AlreadyRecoveryAware,
    InvalidAllocatorFence(u64),
    LegacySnapshotRequiresMigration,
    NameTooLong,
    NamesFull,
    ReservationsFull,
    OutputTooShort,
    BadFrame,
    UnsoundLedger,
}

impl Refusal {
    // The number under which document 01 tells it.
    pub fn number(self) -> u8
        ensures { result ≡ (reply_of (refusal_of self)).number }
    {
        match self {
            Refusal::NegativeAmount(_) => 1,
            Refusal::InvalidAmount => 2,
            Refusal::MissingTenant => 3,
            Refusal::Overflow(_) | Refusal::OverflowOfTopUp => 4,
            Refusal::ExposureLimitExceeded(_, _) => 5,
            Refusal::Insufficient(_, _) => 6,
            Refusal::MissingReservation => 7,
            Refusal::Overrun(_) => 8,
            Refusal::AllocatorExhausted => 9,
            Refusal::ActiveReservations(_) => 10,
            Refusal::DuplicateTenant(_) => 11,
            Refusal::GhostReservation(_, _) => 12,
            Refusal::NegativeLedgerField(_, _, _) => 13,
            Refusal::ConservationViolation(_, _) => 14,
            Refusal::AggregateOverflow => 15,
            Refusal::AlreadyRecoveryAware => 16,
            Refusal::InvalidAllocatorFence(_) => 17,
            Refusal::LegacySnapshotRequiresMigration => 18,
            Refusal::NameTooLong => 19,
            Refusal::NamesFull => 20,
            Refusal::ReservationsFull => 21,
            Refusal::OutputTooShort => 22,
            Refusal::BadFrame => 23,
            Refusal::UnsoundLedger => 24,
        }
    }
}
