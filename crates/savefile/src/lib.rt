// The headers of a libpcap savefile, in two readings: the file's, and a record's.

#![tactic(auto)]

ghost use Rattle.std.specs.Prelude.{◌≡◌, Some};
ghost use Rattle.savefile.specs.Savefile.{other, order_by, format_by, time_at};
ghost use Rattle.savefile.specs.Headers.{file_header, of_file_header, recorded_at};

use fields::{ByteOrder, Field};
use points::Refusal;
use record_rule::{Reading, Record, TimeUnit, Timestamp};

// How the records of a file are written: the byte order of their numbers, by the magic and the reading, and the unit of
// their fractions, by the magic alone.
#[derive(Clone, Copy, Debug, PartialEq, Eq)]
pub struct RecordFormat {
    pub order: ByteOrder,
    pub unit: TimeUnit,
}

pub const FILE_HEADER_LEN: usize = 24;

const RECORD_HEADER_LEN: usize = 16;

pub fn file_header(data: &[u8], reading: Reading) -> Result<RecordFormat, Refusal>
    ensures { of_file_header result ≡ file_header reading «data».now }
{
    points::check_len(data)?;
    if data.len() < FILE_HEADER_LEN {
        return Err(Refusal::TooShort);
    }
    // The magic's least significant byte first, as a little-endian file has it, then its most.
    let Some(magic) = u32::read(data, 0, ByteOrder::Big) else {
        return Err(Refusal::TooShort);
    };
    match magic {
        0xd4c3_b2a1 => Ok(format_by(reading, ByteOrder::Little, TimeUnit::Microseconds)),
        0x4d3c_b2a1 => Ok(format_by(reading, ByteOrder::Little, TimeUnit::Nanoseconds)),
        0xa1b2_c3d4 => Ok(format_by(reading, ByteOrder::Big, TimeUnit::Microseconds)),
        0xa1b2_3c4d => Ok(format_by(reading, ByteOrder::Big, TimeUnit::Nanoseconds)),
        _ => Err(Refusal::WrongMark),
    }
}

// The reading turns the byte order of the magic, and not its unit.
fn format_by(reading: Reading, magic: ByteOrder, unit: TimeUnit) -> RecordFormat
    ensures { result ≡ format_by reading magic unit }
{
    RecordFormat {
        order: order_by(reading, magic),
        unit,
    }
}

fn order_by(reading: Reading, magic: ByteOrder) -> ByteOrder
    ensures { result ≡ order_by reading magic }
{
    match reading {
        Reading::Rust => other(magic),
        Reading::Savefile => magic,
    }
}

fn other(order: ByteOrder) -> ByteOrder
    ensures { result ≡ other order }
{
    match order {
        ByteOrder::Little => ByteOrder::Big,
        ByteOrder::Big => ByteOrder::Little,
    }
}

// The record at a place, where all of it is there.
#[tactic(auto, using(fields::proofs::Laws::part_found))]
pub fn record_at(data: &[u8], at: usize, format: RecordFormat) -> Option<Record>
    ensures { result ≡ recorded_at format «data».now at }
{
    let header = fields::bytes_at::<RECORD_HEADER_LEN>(data, at)?;
    let body = at + RECORD_HEADER_LEN;
    let len = u32::read(header, 8, format.order)? as usize;
    if data.len() - body < len {
        return None;
    }
    Some(Record {
        header: at,
        body,
        len,
        time: time_at(header, format)?,
    })
}

// The time that a record's header states.
fn time_at(header: &[u8; RECORD_HEADER_LEN], format: RecordFormat) -> Option<Timestamp>
    ensures { result ≡ Some (time_at format header.now 0) }
{
    let unit = format.unit;
    let seconds = u32::read(header, 0, format.order)?;
    let fraction = u32::read(header, 4, format.order)?;
    Some(Timestamp {
        seconds,
        fraction,
        unit,
    })
}
