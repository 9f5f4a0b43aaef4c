// Fixed-width records in one lent slice of bytes: a head, places, bookings. Where each field starts is said once, in the constants below.

#![tactic(auto)]

ghost use Rattle.std.specs.Prelude.{◌+◌, ◌*◌, ◌^◌, ◌≤◌, ◌<◌, ◌≡◌, length};
ghost use Rattle.rules.specs.RoomAndSoundLedger.{longest_name};
ghost use Rattle.records.specs.Layout.{place_start, ledger_head_offset, ledger_head_size, counts_offset, capacity_offset, pair_size, place_size, booking_size, head_size};
ghost use Rattle.records.specs.Rows.{row, put};
ghost use Rattle.records.specs.Records.{place_of, place_bytes, PlaceFits, booking_of, booking_bytes, BookingFits, head_of, head_bytes, HeadFits, sizes_of, pair_bytes, SizesFit};

use names::Name;
use numbers::{Held, Identifier};

// The head of a room: T and R, the ledger's head, the names in use and the live bookings.
const NAMES_OFFSET: usize = 0;

const RESERVATIONS_OFFSET: usize = NAMES_OFFSET + 8;

const NEXT_ID_OFFSET: usize = RESERVATIONS_OFFSET + 8;

const LAST_VERSION_OFFSET: usize = NEXT_ID_OFFSET + 8;

const BASELINE_OFFSET: usize = LAST_VERSION_OFFSET + 8;

const USED_OFFSET: usize = BASELINE_OFFSET + 8;

const LIVE_OFFSET: usize = USED_OFFSET + 8;

pub const HEAD_SIZE: usize = LIVE_OFFSET + 8;

// A place, whose name is a length and its bytes.
const INITIAL_OFFSET: usize = 0;

const REMAINING_OFFSET: usize = INITIAL_OFFSET + 8;

const RESERVED_OFFSET: usize = REMAINING_OFFSET + 8;

const COMMITTED_OFFSET: usize = RESERVED_OFFSET + 8;

const LIMIT_OFFSET: usize = COMMITTED_OFFSET + 8;

const ACCOUNT_OFFSET: usize = LIMIT_OFFSET + 8;

const NAME_OFFSET: usize = ACCOUNT_OFFSET + 1;

const NAME_BYTES_OFFSET: usize = NAME_OFFSET + 1;

pub const PLACE_SIZE: usize = NAME_BYTES_OFFSET + rules::LONGEST_NAME;

// The name of the first place, and its bytes, from the start of the room.
pub const FIRST_NAME: usize = HEAD_SIZE + NAME_OFFSET;

pub const FIRST_NAME_BYTES: usize = HEAD_SIZE + NAME_BYTES_OFFSET;

// A booking.
const ID_OFFSET: usize = 0;

const AMOUNT_OFFSET: usize = ID_OFFSET + 8;

const OWNER_OFFSET: usize = AMOUNT_OFFSET + 8;

pub const BOOKING_SIZE: usize = OWNER_OFFSET + 2;

// The largest room, the desk's: its head, a place for each name, a booking for each reservation.
pub const LARGEST_ROOM: usize = HEAD_SIZE
    + PLACE_SIZE * rules::MOST_NAMES
    + BOOKING_SIZE * rules::MOST_RESERVATIONS;

// What a name has: its amounts, whether it has an account, and its limit.
#[derive(Clone, Copy)]
pub struct Place {
    pub initial: u64,
    pub remaining: u64,
    pub reserved: u64,
    pub committed: u64,
    pub limit: u64,
    pub account: u8,
    pub name: Name,
}

// A live reservation. Its owner is the number of its airline's place, so that settling needs no search for the name.
#[derive(Clone, Copy)]
pub struct Booking {
    pub id: Identifier,
    pub amount: Held,
    pub owner: u64,
}

#[derive(Clone, Copy)]
pub struct Head {
    pub next_id: u64,
    pub last_version: u64,
    pub baseline: u64,
}

// How many names and reservations there is room for, how many names are in use, and how many bookings live.
#[derive(Clone, Copy)]
pub struct Sizes {
    pub names: u64,
    pub reservations: u64,
    pub used: u64,
    pub live: u64,
}

fn read_place(part: &[u8]) -> Place
    requires { length part.now ≡ place_size }
    ensures { result ≡ place_of part.now }
{
    let mut bytes = [0u8; rules::LONGEST_NAME];
    bytes.copy_from_slice(&part[NAME_BYTES_OFFSET..PLACE_SIZE]);
    Place {
        initial: numbers::read8(&part[INITIAL_OFFSET..REMAINING_OFFSET]),
        remaining: numbers::read8(&part[REMAINING_OFFSET..RESERVED_OFFSET]),
        reserved: numbers::read8(&part[RESERVED_OFFSET..COMMITTED_OFFSET]),
        committed: numbers::read8(&part[COMMITTED_OFFSET..LIMIT_OFFSET]),
        limit: numbers::read8(&part[LIMIT_OFFSET..ACCOUNT_OFFSET]),
        account: numbers::read1(&part[ACCOUNT_OFFSET..NAME_OFFSET]),
        name: Name {
            length: numbers::read1(&part[NAME_OFFSET..NAME_BYTES_OFFSET]),
            bytes,
        },
    }
}

fn write_place(part: &mut [u8], place: Place)
    requires { length part.old ≡ place_size }
    ensures { part.new ≡ place_bytes place }
{
    numbers::write8(&mut part[INITIAL_OFFSET..REMAINING_OFFSET], place.initial);
    numbers::write8(
        &mut part[REMAINING_OFFSET..RESERVED_OFFSET],
        place.remaining,
    );
    numbers::write8(&mut part[RESERVED_OFFSET..COMMITTED_OFFSET], place.reserved);
    numbers::write8(&mut part[COMMITTED_OFFSET..LIMIT_OFFSET], place.committed);
    numbers::write8(&mut part[LIMIT_OFFSET..ACCOUNT_OFFSET], place.limit);
    numbers::write1(&mut part[ACCOUNT_OFFSET..NAME_OFFSET], place.account);
    numbers::write1(&mut part[NAME_OFFSET..NAME_BYTES_OFFSET], place.name.length);
    part[NAME_BYTES_OFFSET..PLACE_SIZE].copy_from_slice(&place.name.bytes);
}

fn read_booking(part: &[u8]) -> Booking
    requires { length part.now ≡ booking_size }
    ensures { result ≡ booking_of part.now }
{
    Booking {
        id: Identifier(numbers::read8(&part[ID_OFFSET..AMOUNT_OFFSET])),
        amount: Held(numbers::read8(&part[AMOUNT_OFFSET..OWNER_OFFSET])),
        owner: numbers::read2(&part[OWNER_OFFSET..BOOKING_SIZE]),
    }
}

fn write_booking(part: &mut [u8], booking: Booking)
    requires { length part.old ≡ booking_size }
    ensures { part.new ≡ booking_bytes booking }
{
    numbers::write8(&mut part[ID_OFFSET..AMOUNT_OFFSET], booking.id.0);
    numbers::write8(&mut part[AMOUNT_OFFSET..OWNER_OFFSET], booking.amount.0);
    numbers::write2(&mut part[OWNER_OFFSET..BOOKING_SIZE], booking.owner);
}

pub fn load_place(room: &[u8], i: usize) -> Place
    requires { place_start i + place_size ≤ length room.now }
    ensures { result ≡ place_of (row place_size (place_start i) room.now) }
{
    let from = HEAD_SIZE + PLACE_SIZE * i;
    read_place(&room[from..from + PLACE_SIZE])
}

// A store also says what it knows of the values by their types, which the laws of the room ask for.
pub fn store_place(room: &mut [u8], i: usize, place: Place)
    requires { place_start i + place_size ≤ length room.old }
    ensures stored { room.new ≡ put (place_start i) place_size room.old (place_bytes place) }
    ensures fits { PlaceFits place }
{
    let to = HEAD_SIZE + PLACE_SIZE * i;
    write_place(&mut room[to..to + PLACE_SIZE], place);
}

// The bookings start at base, after the places.
pub fn load_booking(room: &[u8], base: usize, i: usize) -> Booking
    requires { base + booking_size * i + booking_size ≤ length room.now }
    ensures { result ≡ booking_of (row booking_size (base + booking_size * i) room.now) }
{
    let from = base + BOOKING_SIZE * i;
    read_booking(&room[from..from + BOOKING_SIZE])
}

// Two bytes hold the owner, the number of a place.
pub fn store_booking(room: &mut [u8], base: usize, i: usize, booking: Booking)
    requires within { base + booking_size * i + booking_size ≤ length room.old }
    requires owner { booking.owner < 2 ^ 16 }
    ensures stored { room.new ≡ put (base + booking_size * i) booking_size room.old (booking_bytes booking) }
    ensures fits { BookingFits booking }
{
    let to = base + BOOKING_SIZE * i;
    write_booking(&mut room[to..to + BOOKING_SIZE], booking);
}

pub fn load_head(room: &[u8]) -> Head
    requires { head_size ≤ length room.now }
    ensures { result ≡ head_of room.now }
{
    Head {
        next_id: numbers::read8(&room[NEXT_ID_OFFSET..LAST_VERSION_OFFSET]),
        last_version: numbers::read8(&room[LAST_VERSION_OFFSET..BASELINE_OFFSET]),
        baseline: numbers::read8(&room[BASELINE_OFFSET..USED_OFFSET]),
    }
}

pub fn store_head(room: &mut [u8], head: Head)
    requires { head_size ≤ length room.old }
    ensures stored { room.new ≡ put ledger_head_offset ledger_head_size room.old (head_bytes head) }
    ensures fits { HeadFits head }
{
    numbers::write8(&mut room[NEXT_ID_OFFSET..LAST_VERSION_OFFSET], head.next_id);
    numbers::write8(
        &mut room[LAST_VERSION_OFFSET..BASELINE_OFFSET],
        head.last_version,
    );
    numbers::write8(&mut room[BASELINE_OFFSET..USED_OFFSET], head.baseline);
}

pub fn load_sizes(room: &[u8]) -> Sizes
    requires { head_size ≤ length room.now }
    ensures { result ≡ sizes_of room.now }
{
    Sizes {
        names: numbers::read8(&room[NAMES_OFFSET..RESERVATIONS_OFFSET]),
        reservations: numbers::read8(&room[RESERVATIONS_OFFSET..NEXT_ID_OFFSET]),
        used: numbers::read8(&room[USED_OFFSET..LIVE_OFFSET]),
        live: numbers::read8(&room[LIVE_OFFSET..HEAD_SIZE]),
    }
}

pub fn store_counts(room: &mut [u8], used: u64, live: u64)
    requires { head_size ≤ length room.old }
    ensures stored { room.new ≡ put counts_offset pair_size room.old (pair_bytes used live) }
    ensures fits { (used < 2 ^ 64) × (live < 2 ^ 64) }
{
    numbers::write8(&mut room[USED_OFFSET..LIVE_OFFSET], used);
    numbers::write8(&mut room[LIVE_OFFSET..HEAD_SIZE], live);
}

// For a fresh room: what it holds room for is written once.
pub fn store_sizes(room: &mut [u8], sizes: Sizes)
    requires { head_size ≤ length room.old }
    ensures stored { room.new
        ≡ put counts_offset pair_size (put capacity_offset pair_size room.old (pair_bytes sizes.names sizes.reservations))
        (pair_bytes sizes.used sizes.live) }
    ensures fits { SizesFit sizes }
{
    numbers::write8(&mut room[NAMES_OFFSET..RESERVATIONS_OFFSET], sizes.names);
    numbers::write8(
        &mut room[RESERVATIONS_OFFSET..NEXT_ID_OFFSET],
        sizes.reservations,
    );
    store_counts(room, sizes.used, sizes.live);
}
