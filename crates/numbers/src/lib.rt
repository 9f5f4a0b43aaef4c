// Numbers: little-endian in lent bytes, and amounts of money. And bytes copied as they stand.

#![tactic(auto)]

ghost use Rattle.std.specs.Prelude.{◌<◌, ◌≤◌, ◌≡◌, ◌++◌, pos, ◌-ℤ◌, length, drop};
ghost use Rattle.rules.specs.RoomAndSoundLedger.{M};
ghost use Rattle.rules.specs.AccountRules.{natural};
ghost use Rattle.numbers.specs.LittleEndian.{little_number, little_bytes};
ghost use Rattle.numbers.specs.Amounts.{sum_of, natural_of, positive_of, remainder_of};

// What names a reservation.
#[derive(Clone, Copy)]
pub struct Identifier(pub u64);

// An amount of money as frames carry it: it may be negative.
#[derive(Clone, Copy)]
pub struct Microcents(pub i64);

// An amount that a reservation holds: it is never negative.
#[derive(Clone, Copy)]
pub struct Held(pub u64);

// A part of bytes as the array that std reads a number from. The two together compile to one load.
pub fn array_of<const N: usize>(bytes: &[u8]) -> [u8; N]
    requires { (0 < N) × (length bytes.now ≡ N) }
    ensures { result ≡ bytes.now }
{
    bytes.as_chunks().0[0]
}

pub fn read8(bytes: &[u8]) -> u64
    requires { length bytes.now ≡ 8 }
    ensures { result ≡ little_number bytes.now }
{
    u64::from_le_bytes(array_of(bytes))
}

pub fn write8(bytes: &mut [u8], number: u64)
    requires { length bytes.old ≡ 8 }
    ensures { bytes.new ≡ little_bytes 8 number }
{
    bytes.copy_from_slice(&number.to_le_bytes());
}

pub fn read2(bytes: &[u8]) -> u64
    requires { length bytes.now ≡ 2 }
    ensures { result ≡ little_number bytes.now }
{
    u64::from(u16::from_le_bytes(array_of(bytes)))
}

// Of a number that two bytes do not hold, the lower two are written.
pub fn write2(bytes: &mut [u8], number: u64)
    requires { length bytes.old ≡ 2 }
    ensures { bytes.new ≡ little_bytes 2 number }
{
    bytes.copy_from_slice(&number.to_le_bytes()[..2]);
}

#[tactic(auto, unfolding(crate::specs::LittleEndian::little_number))]
pub fn read1(bytes: &[u8]) -> u8
    requires { length bytes.now ≡ 1 }
    ensures { result ≡ little_number bytes.now }
{
    bytes[0]
}

#[tactic(auto, unfolding(crate::specs::LittleEndian::little_bytes))]
pub fn write1(bytes: &mut [u8], number: u8)
    requires { length bytes.old ≡ 1 }
    ensures { bytes.new ≡ little_bytes 1 number }
{
    bytes[0] = number;
}

// Over the output's front: what stands behind it is kept.
pub fn copy(bytes: &[u8], output: &mut [u8])
    requires { length bytes.now ≤ length output.old }
    ensures { output.new ≡ bytes.now ++ drop (length bytes.now) output.old }
{
    output[..bytes.len()].copy_from_slice(bytes);
}

// A sum that may not be above M. One that 64 bits do not hold saturates, and so is above M as well.
#[tactic(auto, unfolding(rules::specs::RoomAndSoundLedger::M))]
pub fn plus(a: u64, b: u64) -> Option<u64>
    ensures { result ≡ sum_of a b }
{
    let sum = a.saturating_add(b);
    (sum <= rules::M).then_some(sum)
}

// An amount that is not negative: tables hold amounts as unsigned numbers.
pub fn natural_of(m: Microcents) -> Option<u64>
    ensures { result ≡ natural_of m.0 }
{
    u64::try_from(m.0).ok()
}

// An amount above 0, where a rule refuses 0 or less.
pub fn positive_of(m: Microcents) -> Option<u64>
    ensures { result ≡ positive_of m.0 }
{
    natural_of(m).filter(|x| *x != 0)
}

#[tactic(auto, unfolding(rules::specs::RoomAndSoundLedger::M))]
pub fn amount(x: u64) -> Microcents
    requires { x ≤ M }
    ensures { result.0 ≡ pos x }
{
    Microcents(x as i64)
}

// "commit's delta is a signed difference"
#[tactic(auto, unfolding(rules::specs::RoomAndSoundLedger::M))]
pub fn delta(actual: u64, reserved: u64) -> Microcents
    requires { (actual ≤ M) × (reserved ≤ M) }
    ensures { result.0 ≡ pos actual -ℤ pos reserved }
{
    Microcents(actual as i64 - reserved as i64)
}

// Document 01, Account rules, commit: a delta past remaining is an overrun, any other is taken off. One that returns money is negated and added.
#[tactic(auto, unfolding(rules::specs::RoomAndSoundLedger::M))]
pub fn less_delta(remaining: u64, delta: Microcents) -> Option<u64>
    requires { natural (pos remaining -ℤ delta.0) ≤ M }
    ensures { result ≡ remainder_of remaining delta.0 }
{
    let d = delta.0;
    if d < 0 {
        Some(remaining + (-d) as u64)
    } else {
        remaining.checked_sub(d as u64)
    }
}
