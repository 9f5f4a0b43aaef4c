// Numbers as frames and snapshots write them: big-endian in eight or two bytes, amounts in two's complement. And a version's tag and fence, by mask.
// specs/ has the sizes of a snapshot's parts, for the crates that read and write one.

#![tactic(auto)]

ghost use Rattle.std.specs.Prelude.{◌≤◌, length, ◌≡◌};
ghost use Rattle.rules.specs.RoomAndSoundLedger.{M, has_tag, fence_of};
ghost use Rattle.rules.specs.SnapshotsMigrationCertificates.{bytes_of, number_of, twos_complement, signed, amount_bytes, tagged};

use numbers::Microcents;

// Bit 63, which is 2^63; and the least amount, which is as far below 0.
pub const TAG: u64 = rules::M + 1;

pub const LEAST: i64 = -(rules::M as i64) - 1;

// Bytes are joined by `|` and shifts: this compiles to one load of the whole number, turned.
pub fn read8(bytes: &[u8]) -> u64
    requires { length bytes.now ≡ 8 }
    ensures { result ≡ number_of bytes.now }
{
    (bytes[7] as u64)
        | ((bytes[6] as u64) << 8)
        | ((bytes[5] as u64) << 16)
        | ((bytes[4] as u64) << 24)
        | ((bytes[3] as u64) << 32)
        | ((bytes[2] as u64) << 40)
        | ((bytes[1] as u64) << 48)
        | ((bytes[0] as u64) << 56)
}

pub fn write8(bytes: &mut [u8], number: u64)
    requires { length bytes.old ≡ 8 }
    ensures { bytes.new ≡ bytes_of 8 number }
{
    bytes.copy_from_slice(&number.to_be_bytes());
}

pub fn read2(bytes: &[u8]) -> u64
    requires { length bytes.now ≡ 2 }
    ensures { result ≡ number_of bytes.now }
{
    u64::from(u16::from_be_bytes(numbers::array_of(bytes)))
}

// Of a number that two bytes do not hold, the lower two are written.
pub fn write2(bytes: &mut [u8], number: u64)
    requires { length bytes.old ≡ 2 }
    ensures { bytes.new ≡ bytes_of 2 number }
{
    bytes.copy_from_slice(&number.to_be_bytes()[6..]);
}

// Two's complement: the bits stay as they are.
pub fn signed(word: u64) -> Microcents
    ensures { result.0 ≡ signed word }
{
    Microcents(word.cast_signed())
}

pub fn word_of(amount: Microcents) -> u64
    ensures { result ≡ twos_complement amount.0 }
{
    amount.0.cast_unsigned()
}

pub fn read_amount(bytes: &[u8]) -> Microcents
    requires { length bytes.now ≡ 8 }
    ensures { result.0 ≡ signed (number_of bytes.now) }
{
    signed(read8(bytes))
}

pub fn write_amount(bytes: &mut [u8], amount: Microcents)
    requires { length bytes.old ≡ 8 }
    ensures { bytes.new ≡ amount_bytes amount.0 }
{
    write8(bytes, word_of(amount));
}

// A version is a tag, its highest bit, and a fence, the bits below: the one is tested, and the other cut out, by mask.
pub fn has_tag(version: u64) -> bool
    ensures { result ≡ has_tag version }
{
    version & TAG != 0
}

pub fn fence_of(version: u64) -> u64
    ensures { result ≡ fence_of version }
{
    version & rules::M
}

// The version that carries a fence.
#[tactic(auto, unfolding(rules::specs::RoomAndSoundLedger::M))]
pub fn tagged(fence: u64) -> u64
    requires { fence ≤ M }
    ensures { result ≡ tagged fence }
{
    TAG + fence
}
