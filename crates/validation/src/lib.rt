// Judging a supplied snapshot, where it stands: conservation row by row, and the checks that a restore and a migration share, in their order. The first bad row
// decides, so nothing is kept of a row that passed. Names longer than a place holds are ruled out before.

#![tactic(auto)]

ghost use Rattle.std.specs.Prelude.{◌≡◌, List, [], ℕ};
ghost use Rattle.rules.specs.Lists.{any};
ghost use Rattle.rules.specs.RoomAndSoundLedger.{same};
ghost use Rattle.rules.specs.SnapshotsMigrationCertificates.{row_conservation, conservation, row_validation, rows_validation, validation, status};
ghost use Rattle.names.specs.Names.{spelled, stored};
ghost use Rattle.refusals.specs.Answers.{refusal_of, refusal_in, answer_of, carries_nothing};
ghost use Rattle.snapshot_reader.specs.Standing.{IsSnapshot, ShortNames, RowStands, RowOf, OfRow, OfSnapshot};
ghost use Rattle.validation.specs.Judgement.{Pass, Judges, of_row, row_refusal, row_with, seen_in};

use numbers::Microcents;
use refusals::{Refusal, TenantName};

// What is wrong with a row: a refusal that is yet without the row's name.
#[derive(Clone, Copy)]
pub enum RowRefusal {
    DuplicateTenant,
    GhostReservation(Microcents),
    NegativeLedgerField(u8, Microcents),
    ConservationViolation(Microcents),
    AggregateOverflow,
}

impl RowRefusal {
    fn with_name(self, tenant: TenantName) -> Refusal
        ensures { refusal_of result ≡ of_row (spelled tenant.name) self }
    {
        match self {
            RowRefusal::DuplicateTenant => Refusal::DuplicateTenant(tenant),
            RowRefusal::GhostReservation(reserved) => Refusal::GhostReservation(tenant, reserved),
            RowRefusal::NegativeLedgerField(field, value) => {
                Refusal::NegativeLedgerField(tenant, field, value)
            }
            RowRefusal::ConservationViolation(delta) => {
                Refusal::ConservationViolation(tenant, delta)
            }
            RowRefusal::AggregateOverflow => Refusal::AggregateOverflow,
        }
    }
}

// The conservation of one row: its three parts must add up to initial. A sum that 64 bits do not hold is 15; another sum is 14 with the difference, or 15
// where they do not hold that; and where the parts add up, a negative remaining is 14 too, and is carried.
fn balance_of(
    initial: Microcents,
    remaining: Microcents,
    reserved: Microcents,
    committed: Microcents,
) -> Result<(), RowRefusal>
    ensures { (a : List ℕ) → row_refusal a result ≡ row_conservation (row_with a initial.0 remaining.0 reserved.0 committed.0) }
{
    let held = totals::plus(totals::plus(totals::nothing(), remaining), reserved);
    let sum = totals::plus(held, committed);
    let Some(exact) = totals::fit(sum) else {
        return Err(RowRefusal::AggregateOverflow);
    };
    if exact.0 == initial.0 {
        if remaining.0 < 0 {
            return Err(RowRefusal::ConservationViolation(remaining));
        }
        return Ok(());
    }
    let Some(delta) = totals::fit(totals::minus(sum, initial)) else {
        return Err(RowRefusal::AggregateOverflow);
    };
    Err(RowRefusal::ConservationViolation(delta))
}

// The name of the row that starts here, where it stands.
fn name_at(bytes: &[u8], at: usize) -> &[u8]
    requires { RowStands bytes.now at }
    ensures { OfRow bytes.now at (λ row later. result.now ≡ row.name) }
{
    let from = at + 1;
    let end = snapshot_reader::name_end(bytes, at);
    &bytes[from..end]
}

// The same, kept by value.
fn tenant_at(bytes: &[u8], at: usize) -> TenantName
    requires { RowOf bytes.now at }
    ensures { (here : RowOf bytes.now at) → result.name ≡ stored here.row.name }
{
    TenantName {
        name: names::name_of(name_at(bytes, at)),
    }
}

fn row_conservation(bytes: &[u8], at: usize) -> Result<(), RowRefusal>
    requires { RowOf bytes.now at }
    ensures { (here : RowOf bytes.now at) → row_refusal here.row.name result ≡ row_conservation here.row }
{
    let row = snapshot_reader::read_row(bytes, at);
    balance_of(row.initial, row.remaining, row.reserved, row.committed)
}

// The first row that a check refuses is answered, with its name. One pass over the rows.
fn each_row<F: Fn(usize) -> Result<(), RowRefusal>>(bytes: &[u8], check: F) -> Result<(), Refusal>
    ghost pass: { Pass }
    requires { ShortNames bytes.now × Judges pass bytes.now (F.pre check) (F.post check) }
    ensures { OfSnapshot bytes.now (λ s. refusal_in result ≡ pass.rest [] s.rows) }
{
    let mut at = rules::SNAPSHOT_HEADER;
    while at < bytes.len() {
        if let Err(refusal) = check(at) {
            return Err(refusal.with_name(tenant_at(bytes, at)));
        }
        at = snapshot_reader::name_end(bytes, at) + rules::ROW_AMOUNTS;
    }
    Ok(())
}

// The first row that does not balance is answered. One pass over the rows.
pub fn conservation(bytes: &[u8]) -> Result<(), Refusal>
    requires { ShortNames bytes.now }
    ensures { OfSnapshot bytes.now (λ s. refusal_in result ≡ conservation s.rows) }
{
    each_row(bytes, |at| row_conservation(bytes, at))
}

// 11: the row's name against that of each row before it.
fn seen_earlier(bytes: &[u8], at: usize) -> bool
    requires { RowOf bytes.now at }
    ensures { (here : RowOf bytes.now at) → result ≡ any (same here.row.name) (seen_in [] here.earlier) }
{
    let name = name_at(bytes, at);
    let mut earlier = rules::SNAPSHOT_HEADER;
    while earlier < at {
        if names::is_same(name, name_at(bytes, earlier)) {
            return true;
        }
        earlier = snapshot_reader::name_end(bytes, earlier) + rules::ROW_AMOUNTS;
    }
    false
}

// The checks of one row: 11, then 12, then 13 of remaining, of initial and of committed.
fn row_validation(bytes: &[u8], at: usize) -> Result<(), RowRefusal>
    requires { RowOf bytes.now at }
    ensures { (here : RowOf bytes.now at) → row_refusal here.row.name result ≡ row_validation (seen_in [] here.earlier) here.row }
{
    if seen_earlier(bytes, at) {
        return Err(RowRefusal::DuplicateTenant);
    }
    let row = snapshot_reader::read_row(bytes, at);
    let reserved = row.reserved;
    if reserved.0 != 0 {
        return Err(RowRefusal::GhostReservation(reserved));
    }
    let remaining = row.remaining;
    if remaining.0 < 0 {
        return Err(RowRefusal::NegativeLedgerField(1, remaining));
    }
    let initial = row.initial;
    if initial.0 < 0 {
        return Err(RowRefusal::NegativeLedgerField(2, initial));
    }
    let committed = row.committed;
    if committed.0 < 0 {
        return Err(RowRefusal::NegativeLedgerField(3, committed));
    }
    Ok(())
}

// One pass over the rows, in which each name is compared with those before it: at most 256 x 255 / 2 comparisons.
fn rows_validation(bytes: &[u8]) -> Result<(), Refusal>
    requires { ShortNames bytes.now }
    ensures { OfSnapshot bytes.now (λ s. refusal_in result ≡ rows_validation [] s.rows) }
{
    each_row(bytes, |at| row_validation(bytes, at))
}

// The ledger validation: nothing may be live (10), the rows are checked one by one, and then they must balance. Two passes over the rows.
pub fn validation(bytes: &[u8]) -> Result<(), Refusal>
    requires { ShortNames bytes.now }
    ensures { OfSnapshot bytes.now (λ s. refusal_in result ≡ validation s) }
{
    let active = snapshot_reader::active(bytes);
    if 0 < active {
        return Err(Refusal::ActiveReservations(active));
    }
    rows_validation(bytes)?;
    conservation(bytes)
}

// What frame 0e asks of a snapshot: 19, then whether its rows balance. Two passes over the rows.
pub fn status(bytes: &[u8]) -> Result<(), Refusal>
    requires { IsSnapshot bytes.now }
    ensures { OfSnapshot bytes.now (λ s. answer_of carries_nothing result ≡ status s) }
{
    if snapshot_reader::has_long_name(bytes) {
        return Err(Refusal::NameTooLong);
    }
    conservation(bytes)
}
