// A frame's bytes as an operation, by the codes 01 to 0e of document 01, "Frames"; none for what is none of them (23). A name and a snapshot are left where
// they stand: the name from byte 2 to its end, the snapshot to the end of the frame.

#![tactic(auto)]

ghost use Rattle.std.specs.Prelude.{◌≡◌, ◌⊎◌, ◌≤◌};
ghost use Rattle.rules.specs.Frames.{operation_of_frame};
ghost use Rattle.frame_reader.specs.Operations.{operation_read, HasCode, ReadsAs, PartsStand};

use numbers::{Identifier, Microcents};

// Where a frame's parts stand: behind its code a word and perhaps another, or the length of a name and the name.
pub const WORD_END: usize = 1 + 8;

pub const TWO_WORDS_END: usize = WORD_END + 8;

pub const NAME_START: usize = 1 + 1;

// A migration and a certificate have the longest frames: the code, a word, a snapshot.
pub const LONGEST_FRAME: usize = WORD_END + rules::LONGEST_SNAPSHOT;

#[derive(Clone, Copy)]
pub enum Frame {
    Ensure(usize, Microcents),
    TopUp(usize, Microcents),
    Limit(usize, Microcents),
    Reserve(usize, Microcents),
    Commit(Identifier, Microcents),
    Release(Identifier),
    Snapshot,
    Restore,
    RecoveryRestore,
    Migrate(u64),
    Certificate,
    CertificateOfSnapshot(Microcents),
    ConservationProof,
    Status,
}

// 01 to 04: ensure, top-up, limit and reserve.
fn read_named(code: u8, bytes: &[u8]) -> Option<Frame>
    requires { HasCode bytes.now code × (1 ≤ code) × (code ≤ 4) }
    ensures operation { ReadsAs bytes.now result }
    ensures parts { PartsStand bytes.now result }
{
    if bytes.len() < NAME_START {
        return None;
    }
    let end = NAME_START + bytes[1] as usize;
    if bytes.len() != end + 8 {
        return None;
    }
    let amount = big_endian::read_amount(&bytes[end..]);
    match code {
        1 => Some(Frame::Ensure(end, amount)),
        2 => Some(Frame::TopUp(end, amount)),
        3 => Some(Frame::Limit(end, amount)),
        _ => Some(Frame::Reserve(end, amount)),
    }
}

// 05 and 06: commit and release.
fn read_settlement(code: u8, bytes: &[u8]) -> Option<Frame>
    requires { HasCode bytes.now code × (5 ≤ code) × (code ≤ 6) }
    ensures operation { ReadsAs bytes.now result }
    ensures parts { PartsStand bytes.now result }
{
    if bytes.len() < WORD_END {
        return None;
    }
    let id = Identifier(big_endian::read8(&bytes[1..WORD_END]));
    if code == 6 {
        if bytes.len() != WORD_END {
            return None;
        }
        return Some(Frame::Release(id));
    }
    if bytes.len() != TWO_WORDS_END {
        return None;
    }
    Some(Frame::Commit(id, big_endian::read_amount(&bytes[WORD_END..TWO_WORDS_END])))
}

// 07, 0b and 0d: the ledger's snapshot, certificate and proof. Nothing follows.
fn read_alone(code: u8, bytes: &[u8]) -> Option<Frame>
    requires { HasCode bytes.now code × ((code ≡ 7) ⊎ (code ≡ 11) ⊎ (code ≡ 13)) }
    ensures operation { ReadsAs bytes.now result }
    ensures parts { PartsStand bytes.now result }
{
    if bytes.len() != 1 {
        return None;
    }
    match code {
        7 => Some(Frame::Snapshot),
        11 => Some(Frame::Certificate),
        _ => Some(Frame::ConservationProof),
    }
}

// 08, 09 and 0e: both restores, and the conservation status.
fn read_snapshot(code: u8, bytes: &[u8]) -> Option<Frame>
    requires { HasCode bytes.now code × ((code ≡ 8) ⊎ (code ≡ 9) ⊎ (code ≡ 14)) }
    ensures operation { ReadsAs bytes.now result }
    ensures parts { PartsStand bytes.now result }
{
    if !snapshot_reader::is_snapshot(&bytes[1..]) {
        return None;
    }
    match code {
        8 => Some(Frame::Restore),
        9 => Some(Frame::RecoveryRestore),
        _ => Some(Frame::Status),
    }
}

// 0a and 0c: a migration with its fence, and a certificate of a snapshot with its since.
fn read_word_and_snapshot(code: u8, bytes: &[u8]) -> Option<Frame>
    requires { HasCode bytes.now code × ((code ≡ 10) ⊎ (code ≡ 12)) }
    ensures operation { ReadsAs bytes.now result }
    ensures parts { PartsStand bytes.now result }
{
    if bytes.len() < WORD_END {
        return None;
    }
    if !snapshot_reader::is_snapshot(&bytes[WORD_END..]) {
        return None;
    }
    if code == 10 {
        return Some(Frame::Migrate(big_endian::read8(&bytes[1..WORD_END])));
    }
    Some(Frame::CertificateOfSnapshot(big_endian::read_amount(&bytes[1..WORD_END])))
}

// A frame with a snapshot is passed over once; any other is read without a pass.
fn read_operation(bytes: &[u8]) -> Option<Frame>
    ensures operation { ReadsAs bytes.now result }
    ensures parts { PartsStand bytes.now result }
{
    if bytes.len() == 0 {
        return None;
    }
    let code = bytes[0];
    match code {
        1..=4 => read_named(code, bytes),
        5..=6 => read_settlement(code, bytes),
        7 | 11 | 13 => read_alone(code, bytes),
        8 | 9 | 14 => read_snapshot(code, bytes),
        10 | 12 => read_word_and_snapshot(code, bytes),
        _ => None,
    }
}

// Document 01, Frames: no line has more characters than the longest frame takes, and more bytes than it has are a bad frame however they come.
pub fn read(bytes: &[u8]) -> Option<Frame>
    ensures operation { operation_read bytes.now result ≡ operation_of_frame bytes.now }
    ensures parts { PartsStand bytes.now result }
{
    if LONGEST_FRAME < bytes.len() {
        return None;
    }
    read_operation(bytes)
}
