// A supplied snapshot in lent bytes. Its rows have names of any length up to 255 and are read where they stand, one after the other to the last byte.

#![tactic(auto)]

ghost use Rattle.std.specs.Prelude.{◌≤◌, length, drop, ◌≡◌};
ghost use Rattle.rules.specs.SnapshotsMigrationCertificates.{read_row, snapshot_of_bytes, has_long_name};
ghost use Rattle.snapshot_reader.specs.Standing.{checked_as, is_read, IsSnapshot, RowStands, OfRow, RowEnds, EndsName, ReadsRow, OfSnapshot, ExpectsSnapshot};

use numbers::Microcents;
use refusals::Refusal;

// As wide as what is read: a row count, and a name's length.
const MOST_ROWS: u64 = rules::MOST_NAMES as u64;

const LONGEST_NAME: u8 = rules::LONGEST_NAME as u8;

// A row's amounts, where its name ends (it starts after its length), and where the row ends.
#[derive(Clone, Copy)]
pub struct StandingRow {
    pub initial: Microcents,
    pub remaining: Microcents,
    pub reserved: Microcents,
    pub committed: Microcents,
    pub name_end: usize,
    pub end: usize,
}

fn row_end(bytes: &[u8], at: usize) -> Option<usize>
    requires { at ≤ length bytes.now }
    ensures { RowEnds bytes.now at (read_row (drop at bytes.now)) result }
{
    let name_size = *bytes.get(at)? as usize;
    let size = rules::SHORTEST_ROW + name_size;
    if bytes.len() - at < size {
        return None;
    }
    Some(at + size)
}

// Whether bytes are a snapshot: every row that the count promises is there, nothing stands behind them, and they are no more than a ledger has names; and
// whether no name is longer than a place could hold: 23 comes before 19 (document 01, "Frames"). One pass over the rows, which looks at the length of each
// name alone. A long name does not end it: bytes that are no snapshot have no names.
pub fn check(bytes: &[u8]) -> Result<(), Refusal>
    ensures { result ≡ checked_as (snapshot_of_bytes bytes.now) }
{
    if bytes.len() < rules::SNAPSHOT_HEADER {
        return Err(Refusal::BadFrame);
    }
    let count = big_endian::read2(&bytes[rules::COUNT_START..rules::SNAPSHOT_HEADER]);
    if MOST_ROWS < count {
        return Err(Refusal::BadFrame);
    }
    let mut at = rules::SNAPSHOT_HEADER;
    let mut long = false;
    for _ in 0..count {
        let Some(end) = row_end(bytes, at) else {
            return Err(Refusal::BadFrame);
        };
        long |= LONGEST_NAME < bytes[at];
        at = end;
    }
    if at < bytes.len() {
        return Err(Refusal::BadFrame);
    }
    if long {
        return Err(Refusal::NameTooLong);
    }
    Ok(())
}

pub fn is_snapshot(bytes: &[u8]) -> bool
    ensures { result ≡ is_read (snapshot_of_bytes bytes.now) }
{
    !matches!(check(bytes), Err(Refusal::BadFrame))
}

// 23 for every operation that is handed a snapshot.
pub fn expect_snapshot(bytes: &[u8]) -> Result<(), Refusal>
    ensures { ExpectsSnapshot bytes.now result }
{
    if !is_snapshot(bytes) {
        return Err(Refusal::BadFrame);
    }
    Ok(())
}

pub fn version(bytes: &[u8]) -> u64
    requires { IsSnapshot bytes.now }
    ensures { OfSnapshot bytes.now (λ s. result ≡ s.version) }
{
    big_endian::read8(&bytes[0..rules::ACTIVE_START])
}

pub fn active(bytes: &[u8]) -> u64
    requires { IsSnapshot bytes.now }
    ensures { OfSnapshot bytes.now (λ s. result ≡ s.active) }
{
    big_endian::read8(&bytes[rules::ACTIVE_START..rules::COUNT_START])
}

pub fn count(bytes: &[u8]) -> u64
    requires { IsSnapshot bytes.now }
    ensures { OfSnapshot bytes.now (λ s. result ≡ length s.rows) }
{
    big_endian::read2(&bytes[rules::COUNT_START..rules::SNAPSHOT_HEADER])
}

pub fn name_end(bytes: &[u8], at: usize) -> usize
    requires { RowStands bytes.now at }
    ensures { OfRow bytes.now at (λ row later. EndsName bytes.now at row later result) }
{
    at + 1 + bytes[at] as usize
}

pub fn read_row(bytes: &[u8], at: usize) -> StandingRow
    requires { RowStands bytes.now at }
    ensures { OfRow bytes.now at (λ row later. ReadsRow bytes.now at row later result) }
{
    let name_end = name_end(bytes, at);
    let end = name_end + rules::ROW_AMOUNTS;
    let amounts = &bytes[name_end..end];
    StandingRow {
        initial: big_endian::read_amount(&amounts[0..8]),
        remaining: big_endian::read_amount(&amounts[8..16]),
        reserved: big_endian::read_amount(&amounts[16..24]),
        committed: big_endian::read_amount(&amounts[24..32]),
        name_end,
        end,
    }
}

// 19 of a supplied snapshot (document 01, "Frames"): a name that no place could hold. One pass over the rows, up to the first such name.
pub fn has_long_name(bytes: &[u8]) -> bool
    requires { IsSnapshot bytes.now }
    ensures { OfSnapshot bytes.now (λ s. result ≡ has_long_name s.rows) }
{
    let mut at = rules::SNAPSHOT_HEADER;
    while at < bytes.len() {
        if LONGEST_NAME < bytes[at] {
            return true;
        }
        at = name_end(bytes, at) + rules::ROW_AMOUNTS;
    }
    false
}
