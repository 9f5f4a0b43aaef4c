// A snapshot that has passed every check, put in the place of all that a room holds: the room is made anew at its own sizes, so live reservations and limits
// are cleared with the rest, the rows are put into it, and the head is written last.

#![tactic(auto)]

ghost use Rattle.std.specs.Prelude.{◌≡◌, true, false, ◌+◌, ◌≤◌, min, length};
ghost use Rattle.rules.specs.RoomAndSoundLedger.{M, is_vacant, with_places, fresh, longest_name};
ghost use Rattle.rules.specs.AccountRules.{natural, seated, has_room};
ghost use Rattle.rules.specs.SnapshotsMigrationCertificates.{Row, restored};
ghost use Rattle.moves.specs.Moves.{meaning, SeatSound};
ghost use Rattle.room.specs.Room.{SoundRoom, OfRoom};
ghost use Rattle.filling.specs.Filling.{Takes, Holds, NotNegative, NoneNegative, seat_of_row, PutsRows};
ghost use Rattle.snapshot_reader.specs.Standing.{OfSnapshot};

use moves::Seat;
use numbers::Microcents;
use records::Head;
use snapshot_reader::StandingRow;

fn natural(amount: Microcents) -> u64
    requires { NotNegative amount.0 }
    ensures { result ≡ natural amount.0 }
{
    let x = amount.0;
    x as u64
}

// What a total grows to, or M where it would pass it.
fn capped(total: u64, more: u64) -> u64
    requires { total ≤ M }
    ensures { result ≡ min (total + more) M }
{
    numbers::plus(total, more).unwrap_or(rules::M)
}

fn seat_of(row: StandingRow) -> Seat
    requires { NoneNegative row }
    ensures { (rules : Row) → row.initial.0 ≡ rules.initial → row.remaining.0 ≡ rules.remaining → row.committed.0 ≡ rules.committed
        → result ≡ seat_of_row rules }
{
    Seat {
        initial: natural(row.initial),
        remaining: natural(row.remaining),
        reserved: 0,
        committed: natural(row.committed),
        limit: 0,
        account: 1,
    }
}

fn put_row(room: &mut [u8], part: &[u8], seat: Seat)
    requires { SoundRoom room.old × (length part.now ≤ longest_name) × SeatSound seat × (is_vacant (meaning seat) ≡ false)
        × (OfRoom room.old (λ L. has_room part.now (meaning seat) L ≡ true)) }
    ensures { OfRoom room.old
        (λ L. Holds (with_places L (seated part.now (meaning seat) L.places)) room.old room.new) }
{
    let found = lookup::find(room, part);
    let _ = seats::write_seat(room, part, found, seat);
}

// One pass over the rows; each is looked for among those already put, which ascend, and rows that come in ascending order move nothing.
fn put_rows(room: &mut [u8], bytes: &[u8]) -> u64
    requires { SoundRoom room.old × (OfRoom room.old (λ L. (L ≡ fresh L.T L.R) × Takes L.T bytes.now)) }
    ensures { OfRoom room.old (λ L. OfSnapshot bytes.now (λ s. PutsRows L.T L.R s.rows room.new result)) }
{
    let mut baseline = 0;
    let mut at = rules::SNAPSHOT_HEADER;
    while at < bytes.len() {
        let row = snapshot_reader::read_row(bytes, at);
        let from = at + 1;
        let name_end = row.name_end;
        put_row(room, &bytes[from..name_end], seat_of(row));
        baseline = capped(baseline, natural(row.committed));
        at = row.end;
    }
    baseline
}

// What a restore makes of the ledger: the rows' accounts and nothing else, the version and the next id that it carries, and a baseline at which nothing is
// committed since.
pub fn fill(room: &mut [u8], bytes: &[u8])
    requires { SoundRoom room.old × (OfRoom room.old (λ L. Takes L.T bytes.now)) }
    ensures { OfRoom room.old (λ L. OfSnapshot bytes.now (λ s. Holds (restored L s) room.old room.new)) }
{
    let sizes = records::load_sizes(room);
    let _ = soundness::make(room, sizes.names, sizes.reservations);
    let baseline = put_rows(room, bytes);
    let version = snapshot_reader::version(bytes);
    let fence = big_endian::fence_of(version);
    let head = Head {
        next_id: fence,
        last_version: version,
        baseline,
    };
    tables::put_head(room, head);
}
