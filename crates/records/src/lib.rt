// Bytes and records: readers by record number, the one writer of a record, and a buffer made zero.
#![tactic(auto)]

ghost use Rattle.std.specs.Prelude.{◌≡◌, ◌+◌, ◌*◌, length, replicate};
ghost use Rattle.rules.specs.Record.{rec};
ghost use Rattle.records.specs.Reading.{rec_at};
ghost use Rattle.records.specs.Writing.{Put};

use rules::Record;

// Two bytes as a number, low byte first. Not by `from_le_bytes`, and below byte by byte: made of an array, or put out as one, a number was
// read back from the stack, and a run of tests took twice as long, a conversion a quarter longer.
pub fn number(low: u8, high: u8) -> u16
    ensures { result ≡ low + 256 * high }
{
    u16::from(low) + 256 * u16::from(high)
}

// Record number i, from 1; kind, x and y are 0 where there is no such record. No Option: the definition makes zeros of none, and who
// reads a number of such a record is promised 0.
#[tactic(auto, using(crate::proofs::Reading::reading))]
pub fn record_at(s: &[u8], i: usize) -> Record
    ensures { result ≡ rec_at s.now i }
{
    if i == 0 || s.len() / 8 < i {
        return Record {
            kind: 0,
            x: 0,
            y: 0,
        };
    }
    let at = 8 * (i - 1);
    Record {
        kind: s[at],
        x: number(s[at + 2], s[at + 3]),
        y: number(s[at + 4], s[at + 5]),
    }
}

// The kind of record number i.
pub fn kind_at(s: &[u8], i: usize) -> u8
    ensures { result ≡ (rec_at s.now i).kind }
{
    record_at(s, i).kind
}

// x of record number i.
pub fn x_at(s: &[u8], i: usize) -> u16
    ensures { result ≡ (rec_at s.now i).x }
{
    record_at(s, i).x
}

// y of record number i.
pub fn y_at(s: &[u8], i: usize) -> u16
    ensures { result ≡ (rec_at s.now i).y }
{
    record_at(s, i).y
}

// The jump to k.
pub fn jump(k: u16) -> Record
    ensures { result ≡ rec 4 k 0 }
{
    Record {
        kind: 4,
        x: k,
        y: 0,
    }
}

// Writes a record at the start of the part lent, and answers its eight bytes; a part that is too short is left as it is, with 0:
// how many bytes are written, as every writer answers, and no Option.
pub fn put_record(out: &mut [u8], r: Record) -> usize
    ensures { Put r out.old out.new result }
{
    let [x, x_high] = r.x.to_le_bytes();
    let [y, y_high] = r.y.to_le_bytes();
    if out.len() < 8 {
        return 0;
    }
    out[0] = r.kind;
    out[1] = 0;
    out[2] = x;
    out[3] = x_high;
    out[4] = y;
    out[5] = y_high;
    out[6] = 0;
    out[7] = 0;
    8
}

// Makes every byte of a lent buffer zero.
pub fn clear(buffer: &mut [u8])
    ensures { buffer.new ≡ replicate (length buffer.old) 0 }
{
    buffer.fill(0);
}
