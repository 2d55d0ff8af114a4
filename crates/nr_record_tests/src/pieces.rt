//! Reads the records of a stream that comes in pieces.

ghost use Rattle.std.specs.Prelude.{◌≡◌, ◌<◌, ◌≤◌, ◌^◌, length};
ghost use Rattle.nr_record.specs.RecordsState.{kept};

use nr_record::{RecordFault, Records};
use nr_xdr::{Memory, Octets};
use std::alloc::Global;

/// What came of a stream: its records, the fault, and the offset after them.
#[derive(Drop)]
pub struct Seen {
    pub records: Vec<Octets>,
    pub fault: Option<RecordFault>,
    pub at: u64,
}

/// Feeds a stream in pieces of `step` bytes, and takes the records that are complete after each.
pub fn read_in_pieces(alloc: Global, stream: &[u8], step: usize) -> Result<Seen, Memory>
    requires { (0 < step) × (length stream.now ≤ 2 ^ 40) }
{
    let mut reader = Records::new(alloc);
    let mut records = Vec::new(alloc);
    let mut fault = None;
    let mut rest = stream;
    while !rest.is_empty() {
        let (piece, more) = rest.split_at(step.min(rest.len()));
        fault = reader.feed(piece).err();
        take_all(&mut reader, &mut records)?;
        rest = more;
    }
    let at = reader.at();
    Ok(Seen { records, fault, at })
}

/// Takes the records that wait, at most four.
fn take_all(reader: &mut Records, records: &mut Vec<Octets>) -> Result<(), Memory>
    ensures { (kept reader.new).count ≡ (kept reader.old).count }
{
    for _ in 0..4 {
        if let Some(record) = reader.next_record() {
            records.push(record)?;
        }
    }
    Ok(())
}

/// The offset of the record that comes next, and how many bytes it has.
pub fn next_of(reader: &mut Records) -> (u64, Option<usize>)
    ensures { (kept reader.new).count ≡ (kept reader.old).count }
{
    let at = reader.at();
    match reader.next_record() {
        Some(record) => (at, Some(record.len())),
        None => (at, None),
    }
}
