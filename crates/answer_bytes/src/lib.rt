// The shapes that answers have (document 01, "Frames"), each written to the front of the output: the number's byte, and behind it numbers of eight bytes, a
// name with its length in front, a field's byte.

#![tactic(auto)]

ghost use Rattle.std.specs.Prelude.{[], ◌∷◌, ◌+◌, ◌≤◌, length};
ghost use Rattle.rules.specs.RoomAndSoundLedger.{longest_name};
ghost use Rattle.rules.specs.AnswerNumbers.{Value, TheName, reply};
ghost use Rattle.names.specs.Names.{spelled};
ghost use Rattle.answer_bytes.specs.Sizes.{one_word, two_words, three_words, named, named_word, named_field, longest_other_answer};
ghost use Rattle.answer_bytes.specs.Writing.{WritesReply, IsWritten, IsByteWritten};

use names::Name;

// How many bytes the number takes with so many words behind it.
pub const ONE_WORD: usize = 1 + 8;

pub const TWO_WORDS: usize = ONE_WORD + 8;

pub const THREE_WORDS: usize = TWO_WORDS + 8;

// Where the parts of a certificate end, and of a proof: behind three words, which both begin with.
pub const BALANCED_END: usize = THREE_WORDS + 1;

pub const INITIAL_END: usize = BALANCED_END + 8;

pub const COMMITTED_END: usize = INITIAL_END + 8;

pub const REPRESENTABLE_END: usize = COMMITTED_END + 1;

pub const PROVED_INITIAL_END: usize = THREE_WORDS + 8;

pub const PROVED_COMMITTED_END: usize = PROVED_INITIAL_END + 8;

pub const PROOF_SIZE: usize = PROVED_COMMITTED_END + 1;

// A certificate is the longest answer that hands out no snapshot: three words, a yes or no, both totals, a yes or no, and since.
pub const LONGEST_OTHER_ANSWER: usize = REPRESENTABLE_END + 8;

pub fn write_number(output: &mut [u8], number: u8) -> usize
    requires { 1 ≤ length output.old }
    ensures { WritesReply (reply number []) output.old output.new result }
{
    numbers::write1(&mut output[0..1], number);
    1
}

pub fn write_word(output: &mut [u8], number: u8, first: u64) -> usize
    requires { one_word ≤ length output.old }
    ensures { (v : Value) → IsWritten first v → WritesReply (reply number (v ∷ [])) output.old output.new result }
{
    numbers::write1(&mut output[0..1], number);
    big_endian::write8(&mut output[1..ONE_WORD], first);
    ONE_WORD
}

pub fn write_two_words(output: &mut [u8], number: u8, first: u64, second: u64) -> usize
    requires { two_words ≤ length output.old }
    ensures { (v w : Value) → IsWritten first v → IsWritten second w → WritesReply (reply number (v ∷ w ∷ []))
        output.old output.new result }
{
    numbers::write1(&mut output[0..1], number);
    big_endian::write8(&mut output[1..ONE_WORD], first);
    big_endian::write8(&mut output[ONE_WORD..TWO_WORDS], second);
    TWO_WORDS
}

pub fn write_three_words(
    output: &mut [u8],
    number: u8,
    first: u64,
    second: u64,
    third: u64,
) -> usize
    requires { three_words ≤ length output.old }
    ensures { (v w x : Value) → IsWritten first v → IsWritten second w → IsWritten third x → WritesReply (reply number (v ∷ w ∷ x ∷ []))
        output.old output.new result }
{
    numbers::write1(&mut output[0..1], number);
    big_endian::write8(&mut output[1..ONE_WORD], first);
    big_endian::write8(&mut output[ONE_WORD..TWO_WORDS], second);
    big_endian::write8(&mut output[TWO_WORDS..THREE_WORDS], third);
    THREE_WORDS
}

pub fn write_named(output: &mut [u8], number: u8, name: Name) -> usize
    requires { (named ≤ length output.old) × (name.length ≤ longest_name) }
    ensures { WritesReply (reply number (TheName (spelled name) ∷ [])) output.old output.new result }
{
    let end = 2 + name.length as usize;
    numbers::write1(&mut output[0..1], number);
    names::write_name(&mut output[1..end], name);
    end
}

pub fn write_named_word(output: &mut [u8], number: u8, name: Name, word: u64) -> usize
    requires { (named_word ≤ length output.old) × (name.length ≤ longest_name) }
    ensures { (v : Value) → IsWritten word v → WritesReply (reply number (TheName (spelled name) ∷ v ∷ []))
        output.old output.new result }
{
    let from = 2 + name.length as usize;
    let end = from + 8;
    numbers::write1(&mut output[0..1], number);
    names::write_name(&mut output[1..from], name);
    big_endian::write8(&mut output[from..end], word);
    end
}

pub fn write_named_field(output: &mut [u8], number: u8, name: Name, field: u8, word: u64) -> usize
    requires { (named_field ≤ length output.old) × (name.length ≤ longest_name) }
    ensures { (v w : Value) → IsByteWritten field v → IsWritten word w → WritesReply (reply number (TheName (spelled name) ∷ v ∷ w ∷ []))
        output.old output.new result }
{
    let byte = 2 + name.length as usize;
    let from = byte + 1;
    let end = from + 8;
    numbers::write1(&mut output[0..1], number);
    names::write_name(&mut output[1..byte], name);
    numbers::write1(&mut output[byte..from], field);
    big_endian::write8(&mut output[from..end], word);
    end
}

// What a certificate carries, in order, says document 01, "Snapshots, migration, certificates".
pub fn write_certificate(
    output: &mut [u8],
    version: u64,
    rows: u64,
    active: u64,
    balanced: u8,
    initial_total: u64,
    committed_total: u64,
    representable: u8,
    since: u64,
) -> usize
    requires { longest_other_answer ≤ length output.old }
    ensures { (v w x y z s t u : Value) → IsWritten version v → IsWritten rows w → IsWritten active x → IsByteWritten balanced y
        → IsWritten initial_total z → IsWritten committed_total s → IsByteWritten representable t → IsWritten since u
        → WritesReply (reply 0 (v ∷ w ∷ x ∷ y ∷ z ∷ s ∷ t ∷ u ∷ [])) output.old output.new result }
{
    write_three_words(output, 0, version, rows, active);
    numbers::write1(&mut output[THREE_WORDS..BALANCED_END], balanced);
    big_endian::write8(&mut output[BALANCED_END..INITIAL_END], initial_total);
    big_endian::write8(&mut output[INITIAL_END..COMMITTED_END], committed_total);
    numbers::write1(&mut output[COMMITTED_END..REPRESENTABLE_END], representable);
    big_endian::write8(&mut output[REPRESENTABLE_END..LONGEST_OTHER_ANSWER], since);
    LONGEST_OTHER_ANSWER
}

// Version, counts and totals of the ledger, and whether it is proved.
pub fn write_proof(
    output: &mut [u8],
    version: u64,
    accounts: u64,
    active: u64,
    initial_total: u64,
    committed_total: u64,
    proved: u8,
) -> usize
    requires { longest_other_answer ≤ length output.old }
    ensures { (v w x y z s : Value) → IsWritten version v → IsWritten accounts w → IsWritten active x
        → IsWritten initial_total y → IsWritten committed_total z → IsByteWritten proved s
        → WritesReply (reply 0 (v ∷ w ∷ x ∷ y ∷ z ∷ s ∷ [])) output.old output.new result }
{
    write_three_words(output, 0, version, accounts, active);
    big_endian::write8(&mut output[THREE_WORDS..PROVED_INITIAL_END], initial_total);
    big_endian::write8(
        &mut output[PROVED_INITIAL_END..PROVED_COMMITTED_END],
        committed_total,
    );
    numbers::write1(&mut output[PROVED_COMMITTED_END..PROOF_SIZE], proved);
    PROOF_SIZE
}
