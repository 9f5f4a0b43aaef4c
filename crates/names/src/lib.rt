// Names: compared by their bytes, kept by value, and written with their length in front.

#![tactic(auto)]

ghost use Rattle.std.specs.Prelude.{◌+◌, ◌*◌, ◌≤◌, ◌<◌, ◌≡◌, length, take, drop};
ghost use Rattle.rules.specs.Lists.{All};
ghost use Rattle.rules.specs.RoomAndSoundLedger.{IsByte, order, same, longest_name};
ghost use Rattle.rules.specs.SnapshotsMigrationCertificates.{number_of, name_bytes};
ghost use Rattle.names.specs.Names.{ordering_of, is_before, spelled, stored, IsStored};

use std::cmp::Ordering;

#[derive(Clone, Copy)]
pub struct Name {
    pub length: u8,
    pub bytes: [u8; rules::LONGEST_NAME],
}

// "Names are ordered by bytes, a prefix first." Any bytes compare: a name asked for may be too long to be kept.
#[tactic(auto, using(crate::proofs::Comparing::the_order))]
pub fn compare(left: &[u8], right: &[u8]) -> Ordering
    ensures { ordering_of result ≡ order left.now right.now }
{
    left.cmp(&right)
}

// Whether two names are one name. Names of airlines often begin alike, so their lengths are asked first and then their bytes, the last first.
pub fn is_same(left: &[u8], right: &[u8]) -> bool
    ensures { result ≡ same left.now right.now }
{
    left.len() == right.len() && (0..left.len()).rev().all(|i| left[i] == right[i])
}

// Eight bytes of a name as a number, the highest first: a name has three such parts.
fn word(name: Name, part: usize) -> u64
    requires { part < 3 }
    ensures { result ≡ number_of (take 8 (drop (8 * part) name.bytes)) }
{
    let bytes = name.bytes;
    let from = 8 * part;
    let end = from + 8;
    big_endian::read8(&bytes[from..end])
}

// Two names by value. Eight bytes with the highest first are in the order of their numbers; where all are the same, the bytes past the shorter name are
// zeros of the longer.
pub fn precedes(left: Name, right: Name) -> bool
    requires stored { IsStored left × IsStored right }
    requires bytes { All IsByte left.bytes × All IsByte right.bytes }
    ensures { result ≡ is_before (order (spelled left) (spelled right)) }
{
    for k in 0..3 {
        let before = word(left, k);
        let here = word(right, k);
        if before < here {
            return true;
        }
        if here < before {
            return false;
        }
    }
    left.length < right.length
}

// The name that a part spells. What it does not fill stays zero, so that a name has one form.
pub fn name_of(part: &[u8]) -> Name
    requires { length part.now ≤ longest_name }
    ensures { result ≡ stored part.now }
{
    let mut bytes = [0u8; rules::LONGEST_NAME];
    bytes[..part.len()].copy_from_slice(part);
    Name {
        length: part.len() as u8,
        bytes,
    }
}

// A name as a snapshot row and an answer have it: its length, and its bytes behind that.
pub fn write_name(part: &mut [u8], name: Name)
    requires { (length part.old ≡ 1 + name.length) × (name.length ≤ longest_name) }
    ensures { part.new ≡ name_bytes (spelled name) }
{
    let bytes = name.bytes;
    part[0] = name.length;
    part[1..].copy_from_slice(&bytes[..name.length as usize]);
}
