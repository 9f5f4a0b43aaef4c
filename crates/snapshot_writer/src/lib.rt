// A snapshot of a ledger already known to be sound, written into lent output: the rows of the accounts one behind the other, and then the header before
// them, since it counts them. Nothing is written unless all of it has room, and what stands past it stays.

#![tactic(auto)]

ghost use Rattle.std.specs.Prelude.{◌≡◌, not, [], ◌∷◌, ◌++◌, ◌+◌, ◌≤◌, ◌<◌, length, drop, IfOk};
ghost use Rattle.rules.specs.SnapshotsMigrationCertificates.{row_bytes, account_rows, snapshot_of, too_short_for, snapshot, output_after, most_rows};
ghost use Rattle.rules.specs.RoomAndSoundLedger.{longest_name};
ghost use Rattle.big_endian.specs.Layout.{snapshot_header, row_amounts, shortest_row};
ghost use Rattle.room.specs.Room.{SoundRoom, Performs, OfRoom};
ghost use Rattle.snapshot_writer.specs.Rows.{row_in_place, amounts_bytes, header_bytes, WritesRows, account_bytes, Appends};
ghost use Rattle.snapshot_writer.specs.Output.{row_size, row_of_place};
ghost use Rattle.refusals.specs.Answers.{answer_of, carries_snapshot};

use records::Place;
use refusals::Refusal;

// How many rows are written, and where they end.
#[derive(Clone, Copy)]
struct Extent {
    rows: u64,
    end: usize,
}

fn write_amounts(part: &mut [u8], place: Place)
    requires { length part.old ≡ row_amounts }
    ensures { part.new ≡ amounts_bytes place }
{
    big_endian::write8(&mut part[0..8], place.initial);
    big_endian::write8(&mut part[8..16], place.remaining);
    big_endian::write8(&mut part[16..24], place.reserved);
    big_endian::write8(&mut part[24..rules::ROW_AMOUNTS], place.committed);
}

fn write_row(part: &mut [u8], place: Place)
    requires { (length part.old ≡ shortest_row + place.name.length) × (place.name.length ≤ longest_name) }
    ensures { part.new ≡ row_bytes (row_in_place place) }
{
    let name = place.name;
    let amounts = 1 + name.length as usize;
    names::write_name(&mut part[..amounts], name);
    write_amounts(&mut part[amounts..], place);
}

// One row more, behind those written.
fn append_row(output: &mut [u8], extent: Extent, place: Place) -> Extent
    requires room { extent.end + (shortest_row + place.name.length) ≤ length output.old }
    requires short { place.name.length ≤ longest_name }
    requires few { extent.rows < most_rows }
    ensures { Appends (row_in_place place ∷ []) output.old output.new extent result }
{
    let name = place.name;
    let from = extent.end;
    let end = from + rules::SHORTEST_ROW + name.length as usize;
    write_row(&mut output[from..end], place);
    Extent {
        rows: extent.rows + 1,
        end,
    }
}

fn write_header(output: &mut [u8], version: u64, active: u64, rows: u64)
    requires { snapshot_header ≤ length output.old }
    ensures { output.new ≡ header_bytes version active rows ++ drop snapshot_header output.old }
{
    big_endian::write8(&mut output[0..rules::ACTIVE_START], version);
    big_endian::write8(&mut output[rules::ACTIVE_START..rules::COUNT_START], active);
    big_endian::write2(
        &mut output[rules::COUNT_START..rules::SNAPSHOT_HEADER],
        rows,
    );
}

// A name with a limit alone is not a row.
fn row_size(place: Place) -> usize
    ensures { result ≡ row_size place }
{
    if place.account != 0 {
        let name = place.name;
        return rules::SHORTEST_ROW + name.length as usize;
    }
    0
}

fn rows_size(room: &[u8]) -> usize
    requires { SoundRoom room.now }
    ensures { OfRoom room.now (λ L. result ≡ length (account_bytes L)) }
{
    let sizes = records::load_sizes(room);
    let used = sizes.used as usize;
    let mut size = 0;
    for i in 0..used {
        size += row_size(records::load_place(room, i));
    }
    size
}

// Whether all of the snapshot fits; 22 is for where it does not. Output with room for the longest names needs no pass over the places to tell.
fn has_room(room: &[u8], size: usize) -> bool
    requires { SoundRoom room.now }
    ensures { OfRoom room.now (λ L. result ≡ not (too_short_for size (snapshot_of L))) }
{
    let sizes = records::load_sizes(room);
    let longest = rules::SNAPSHOT_HEADER + rules::LONGEST_ROW * (sizes.used as usize);
    if longest <= size {
        return true;
    }
    rules::SNAPSHOT_HEADER + rows_size(room) <= size
}

// A name with a limit alone is not a row.
fn append_account(output: &mut [u8], extent: Extent, place: Place) -> Extent
    requires room { extent.end + row_size place ≤ length output.old }
    requires short { place.name.length ≤ longest_name }
    requires few { extent.rows < most_rows }
    ensures { Appends (row_of_place place) output.old output.new extent result }
{
    if place.account == 0 {
        return extent;
    }
    append_row(output, extent, place)
}

// The rows ascend by name since the places do. One pass over them.
fn write_rows(room: &[u8], output: &mut [u8]) -> Extent
    requires { SoundRoom room.now × (OfRoom room.now (λ L. snapshot_header + length (account_bytes L) ≤ length output.old)) }
    ensures { OfRoom room.now (λ L. WritesRows (account_rows L.places) output.old output.new result) }
{
    let sizes = records::load_sizes(room);
    let used = sizes.used as usize;
    let mut extent = Extent {
        rows: 0,
        end: rules::SNAPSHOT_HEADER,
    };
    for i in 0..used {
        extent = append_account(output, extent, records::load_place(room, i));
    }
    extent
}

// The snapshot rule: 9 where no id is left to draw, then 22; else an id is drawn, and the version that carries the next one is written and kept. One pass
// over the places, and one more before it to measure them where the output might be too short.
pub fn snapshot(room: &mut [u8], output: &mut [u8]) -> Result<usize, Refusal>
    requires { SoundRoom room.old }
    ensures performs { Performs (snapshot (length output.old)) room.old (answer_of (carries_snapshot output.new) result) room.new }
    ensures output { output.new ≡ output_after (answer_of (carries_snapshot output.new) result) output.old }
    ensures size { IfOk result (λ size. size ≤ length output.old) }
{
    let Ok(head) = heads::stamp(records::load_head(room)) else {
        return Err(Refusal::AllocatorExhausted);
    };
    if !has_room(room, output.len()) {
        return Err(Refusal::OutputTooShort);
    }
    let sizes = records::load_sizes(room);
    let extent = write_rows(room, output);
    write_header(output, head.last_version, sizes.live, extent.rows);
    tables::put_head(room, head);
    Ok(extent.end)
}
