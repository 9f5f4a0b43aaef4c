// Certificates, and the conservation proof: over a supplied snapshot already known to be one, and over a ledger already known to be sound. Of the ledger no
// snapshot is written: its totals are added up over the places, and only its head changes.

#![tactic(auto)]

ghost use Rattle.std.specs.Prelude.{◌≡◌, List, ℕ, pos, length};
ghost use Rattle.rules.specs.SnapshotsMigrationCertificates.{Row, Snapshot, account_rows, conservation, committed_rows_total, totals_fit, is_none, certificate, certificate_of_snapshot, certificate_of_ledger, conservation_proof};
ghost use Rattle.snapshot_reader.specs.Standing.{IsSnapshot, ShortNames, OfSnapshot};
ghost use Rattle.totals.specs.Totals.{value_of};
ghost use Rattle.room.specs.Room.{SoundRoom, Performs, OfRoom};
ghost use Rattle.rules.specs.AnswerNumbers.{done};
ghost use Rattle.refusals.specs.Answers.{answer_of};
ghost use Rattle.certificates.specs.Certified.{carries_certificate, carries_proof, both_fitted, totals_of, rotation_of, summarized_of};

use heads::Rotated;
use numbers::Microcents;
use records::Head;
use refusals::Refusal;
use totals::Total;

#[derive(Clone, Copy)]
pub struct Certificate {
    pub version: u64,
    pub rows: u64,
    pub active: u64,
    pub balanced: bool,
    pub initial_total: Microcents,
    pub committed_total: Microcents,
    pub representable: bool,
    pub since: Microcents,
}

#[derive(Clone, Copy)]
pub struct Proof {
    pub version: u64,
    pub accounts: u64,
    pub active: u64,
    pub initial_total: Microcents,
    pub committed_total: Microcents,
}

// The initial total and the committed total, both of which fit.
#[derive(Clone, Copy)]
struct Totals {
    initial: Microcents,
    committed: Microcents,
}

// What the ledger's own snapshot says beside its rows.
#[derive(Clone, Copy)]
struct Summary {
    head: Head,
    rows: u64,
    active: u64,
    totals: Option<Totals>,
}

// Both totals, where both fit.
fn fit_both(initial: Total, committed: Total) -> Option<Totals>
    ensures { result ≡ both_fitted (value_of initial) (value_of committed) }
{
    let initial = totals::fit(initial)?;
    let committed = totals::fit(committed)?;
    Some(Totals { initial, committed })
}

// Rows may be negative: the totals carry and borrow between their words. One pass over the rows.
fn totals_of_rows(bytes: &[u8]) -> Option<Totals>
    requires { IsSnapshot bytes.now }
    ensures { OfSnapshot bytes.now (λ s. result ≡ totals_of s.rows) }
{
    let mut initial = totals::nothing();
    let mut committed = totals::nothing();
    let mut at = rules::SNAPSHOT_HEADER;
    while at < bytes.len() {
        let row = snapshot_reader::read_row(bytes, at);
        initial = totals::plus(initial, row.initial);
        committed = totals::plus(committed, row.committed);
        at = row.end;
    }
    fit_both(initial, committed)
}

// A name without an account has zero amounts, so every place may be added. One pass over the places.
fn totals_of_places(room: &[u8]) -> Option<Totals>
    requires { SoundRoom room.now }
    ensures { OfRoom room.now (λ L. result ≡ totals_of (account_rows L.places)) }
{
    let sizes = records::load_sizes(room);
    let used = sizes.used as usize;
    let mut initial = totals::nothing();
    let mut committed = totals::nothing();
    for i in 0..used {
        let place = records::load_place(room, i);
        initial = totals::plus(initial, numbers::amount(place.initial));
        committed = totals::plus(committed, numbers::amount(place.committed));
    }
    fit_both(initial, committed)
}

fn is_balanced(bytes: &[u8]) -> bool
    requires { ShortNames bytes.now }
    ensures { OfSnapshot bytes.now (λ s. result ≡ is_none (conservation s.rows)) }
{
    validation::conservation(bytes).is_ok()
}

// Where one of the totals does not fit, both are told as 0, and the snapshot is called neither balanced nor representable.
fn certify(
    version: u64,
    rows: u64,
    active: u64,
    balanced: bool,
    totals: Option<Totals>,
    since: Microcents,
) -> Certificate
    ensures { (s : Snapshot) → version ≡ s.version → rows ≡ length s.rows → active ≡ s.active → balanced ≡ is_none (conservation s.rows)
        → totals ≡ totals_of s.rows → done (carries_certificate result) ≡ certificate s since.0 }
{
    let Some(fitted) = totals else {
        return Certificate {
            version,
            rows,
            active,
            balanced: false,
            initial_total: Microcents(0),
            committed_total: Microcents(0),
            representable: false,
            since,
        };
    };
    Certificate {
        version,
        rows,
        active,
        initial_total: fitted.initial,
        committed_total: fitted.committed,
        balanced,
        representable: true,
        since,
    }
}

// Two passes over the rows, one for the totals and one for the balance.
fn of_snapshot(bytes: &[u8], since: Microcents) -> Certificate
    requires { ShortNames bytes.now }
    ensures { OfSnapshot bytes.now (λ s. done (carries_certificate result) ≡ certificate s since.0) }
{
    let version = snapshot_reader::version(bytes);
    let rows = snapshot_reader::count(bytes);
    let active = snapshot_reader::active(bytes);
    let balanced = is_balanced(bytes);
    let totals = totals_of_rows(bytes);
    certify(version, rows, active, balanced, totals, since)
}

// 19, and else the certificate.
pub fn of_supplied(bytes: &[u8], since: Microcents) -> Result<Certificate, Refusal>
    requires { IsSnapshot bytes.now }
    ensures { OfSnapshot bytes.now (λ s. answer_of carries_certificate result ≡ certificate_of_snapshot since.0 s) }
{
    if snapshot_reader::has_long_name(bytes) {
        return Err(Refusal::NameTooLong);
    }
    Ok(of_snapshot(bytes, since))
}

// The baseline rises to the committed total, and never falls; where the totals do not fit, it stays. A ledger's committed total is never negative.
fn rotation(head: Head, totals: Option<Totals>) -> Rotated
    ensures { (rs : List Row) (total : ℕ) → totals ≡ totals_of rs → committed_rows_total rs ≡ pos total → result ≡ rotation_of (totals_fit rs) head total }
{
    let Some(fitted) = totals else {
        return Rotated { since: 0, head };
    };
    let Some(total) = numbers::natural_of(fitted.committed) else {
        return Rotated { since: 0, head };
    };
    heads::after_rotation(head, total)
}

// What the ledger's own snapshot says beside its rows, and the head that it stamps; 9 as for a snapshot. Two passes over the places.
fn summarize(room: &[u8]) -> Result<Summary, Refusal>
    requires { SoundRoom room.now }
    ensures { OfRoom room.now (λ L. result ≡ summarized_of L) }
{
    let Ok(head) = heads::stamp(records::load_head(room)) else {
        return Err(Refusal::AllocatorExhausted);
    };
    let sizes = records::load_sizes(room);
    let rows = reads::accounts(room);
    let totals = totals_of_places(room);
    Ok(Summary {
        head,
        rows,
        active: sizes.live,
        totals,
    })
}

// The certificate of the ledger's own snapshot, which is balanced since the ledger is sound. The rows themselves are not written.
pub fn of_ledger(room: &mut [u8]) -> Result<Certificate, Refusal>
    requires { SoundRoom room.old }
    ensures { Performs certificate_of_ledger room.old (answer_of carries_certificate result) room.new }
{
    let Ok(summary) = summarize(room) else {
        return Err(Refusal::AllocatorExhausted);
    };
    let head = summary.head;
    let totals = summary.totals;
    let rotated = rotation(head, totals);
    tables::put_head(room, rotated.head);
    let since = numbers::amount(rotated.since);
    let version = head.last_version;
    Ok(certify(version, summary.rows, summary.active, true, totals, since))
}

// The head is stamped before the totals are looked at, so 15 leaves it stamped.
pub fn prove(room: &mut [u8]) -> Result<Proof, Refusal>
    requires { SoundRoom room.old }
    ensures { Performs conservation_proof room.old (answer_of carries_proof result) room.new }
{
    let Ok(summary) = summarize(room) else {
        return Err(Refusal::AllocatorExhausted);
    };
    let head = summary.head;
    tables::put_head(room, head);
    let Some(fitted) = summary.totals else {
        return Err(Refusal::AggregateOverflow);
    };
    Ok(Proof {
        version: head.last_version,
        accounts: summary.rows,
        active: summary.active,
        initial_total: fitted.initial,
        committed_total: fitted.committed,
    })
}
