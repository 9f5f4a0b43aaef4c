// The three numbers of a ledger that stand apart from its tables: an id drawn and the baseline rotated in place, and what a snapshot stamps on them.

#![tactic(auto)]

ghost use Rattle.std.specs.Prelude.{◌≤◌, ◌≡◌};
ghost use Rattle.rules.specs.RoomAndSoundLedger.{M};
ghost use Rattle.heads.specs.Heads.{identifier_at, next_after, drawn_head, stamped_head, since_baseline, larger, rotated_head};

use numbers::Identifier;
use records::Head;
use refusals::Refusal;

// The id drawn, or that they are used up, and the head after it.
#[derive(Clone, Copy)]
pub struct Drawn {
    pub id: Option<Identifier>,
    pub head: Head,
}

#[derive(Clone, Copy)]
pub struct Rotated {
    pub since: u64,
    pub head: Head,
}

// Every test stands in the four functions that come first, which are by value: what is then changed in place is a straight line.

// "the id drawn is the old next id", and at M there is none.
#[tactic(auto, unfolding(rules::specs::RoomAndSoundLedger::M))]
fn identifier_at(next_id: u64) -> Option<Identifier>
    ensures { result ≡ identifier_at next_id }
{
    if next_id < rules::M {
        return Some(Identifier(next_id));
    }
    None
}

#[tactic(auto, unfolding(rules::specs::RoomAndSoundLedger::M))]
fn next_after(next_id: u64) -> u64
    ensures { result ≡ next_after next_id }
{
    if next_id < rules::M {
        return next_id + 1;
    }
    next_id
}

fn since_baseline(baseline: u64, total: u64) -> u64
    ensures { result ≡ since_baseline baseline total }
{
    total.saturating_sub(baseline)
}

fn larger(baseline: u64, total: u64) -> u64
    ensures { result ≡ larger baseline total }
{
    baseline.max(total)
}

// "next id grows by 1", but for M: then there is no id, and the head stays as it was.
pub fn draw(head: &mut Head) -> Option<Identifier>
    ensures { (result ≡ (drawn_head head.old).id) × (head.new ≡ (drawn_head head.old).head) }
{
    let id = identifier_at(head.next_id);
    head.next_id = next_after(head.next_id);
    id
}

// Document 01, Snapshots, certificate of the ledger: what was committed past the baseline, which follows a total only upwards.
pub fn rotate(head: &mut Head, total: u64) -> u64
    ensures { (result ≡ (rotated_head head.old total).since) × (head.new ≡ (rotated_head head.old total).head) }
{
    let since = since_baseline(head.baseline, total);
    head.baseline = larger(head.baseline, total);
    since
}

// For every caller whose head does not stand behind a reference.
pub fn after_draw(mut head: Head) -> Drawn
    ensures { result ≡ drawn_head head }
{
    let id = draw(&mut head);
    Drawn { id, head }
}

pub fn after_rotation(mut head: Head, total: u64) -> Rotated
    ensures { result ≡ rotated_head head total }
{
    let since = rotate(&mut head, total);
    Rotated { since, head }
}

// Document 01, Snapshots, the taking of one: refused at M; else the id after the one drawn, tagged, is the last version.
pub fn stamp(head: Head) -> Result<Head, Refusal>
    requires { head.next_id ≤ M }
    ensures { result ≡ stamped_head head }
{
    let drawn = after_draw(head);
    let Some(_) = drawn.id else {
        return Err(Refusal::AllocatorExhausted);
    };
    let next = drawn.head;
    Ok(Head {
        last_version: big_endian::tagged(next.next_id),
        ..next
    })
}
