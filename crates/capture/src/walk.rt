// The walk over a capture's records, payload by payload.

ghost use Rattle.std.specs.Prelude.{◌≡◌, ◌+◌, ◌≤◌, min, length};
ghost use Rattle.std.specs.Iterator.{YieldsFirst, item_count};
ghost use Rattle.record_rule.specs.Reading.{usual};
ghost use Rattle.capture.specs.Payloads.{place_in, bytes_at, PartAt, moved_to, opening, of_opened, places_from, step_of};
ghost use Rattle.capture.specs.Walked.{places_left};

use points::Refusal;
use record_rule::{Part, Reading, Record, Timestamp};
use savefile::RecordFormat;

// Where a payload stands: its record's header, its first byte, and its length. And when its record was captured.
// The default, all zeros, is no payload's, since none starts at 0. It is no `Record`, which says where a record's captured bytes stand.
#[derive(Clone, Copy, Debug, Default, PartialEq, Eq)]
pub struct Place {
    pub header: usize,
    pub start: usize,
    pub len: usize,
    pub time: Timestamp,
}

impl Place {
    // The bytes there, as far as the data has them.
    pub fn bytes(self, data: &[u8]) -> &[u8]
        ensures contents { result.now ≡ bytes_at «data».now self }
        ensures place { PartAt (min self.start (length «data».now)) «data».entry.ref_ptr result.ref_ptr }
    {
        let start = self.start.min(data.len());
        let end = start + self.len.min(data.len() - start);
        &data[start..end]
    }
}

// A place in the walk. It is a value: a copy of it goes the same way again.
#[derive(Clone, Copy, Debug, PartialEq, Eq)]
pub struct Cursor {
    pub at: usize,
    pub port: u16,
    pub reading: Reading,
    pub format: RecordFormat,
}

// Starts a walk for the payloads on a port; 0 asks for every port.
pub fn open_as(data: &[u8], reading: Reading, port: u16) -> Result<Cursor, Refusal>
    ensures { of_opened result ≡ opening reading port «data».now }
{
    let format = savefile::file_header(data, reading)?;
    Ok(Cursor {
        at: savefile::FILE_HEADER_LEN,
        port,
        reading,
        format,
    })
}

pub fn open(data: &[u8], port: u16) -> Result<Cursor, Refusal>
    ensures { of_opened result ≡ opening usual port «data».now }
{
    open_as(data, Reading::usual(), port)
}

impl Cursor {
    // The cursor at another place.
    pub fn moved_to(mut self, at: usize) -> Self
        ensures { result ≡ moved_to self at }
    {
        self.at = at;
        self
    }

    // The next payload, and the cursor after its record.
    pub fn step(self, data: &[u8]) -> Option<(Place, Cursor)>
        ensures { result ≡ step_of self «data».now }
    {
        let port = self.port;
        let reading = self.reading;
        let format = self.format;
        let mut at = self.at;
        // No index: each record's stated length says where the next one stands. And no iterator: `Places` goes by
        // these steps, and C keeps the cursor between calls.
        loop {
            let record = savefile::record_at(data, at, format)?;
            let body = record.body;
            let end = body + record.len;
            if let Ok(part) = record_rule::judge(&data[body..end], reading, port) {
                return Some((place_in(record, part), self.moved_to(end)));
            }
            at = end;
        }
    }
}

// The places of a capture's payloads, in order.
#[derive(Drop)]
pub struct Places<'a> {
    pub(crate) data: &'a [u8],
    pub(crate) cursor: Cursor,
}

// The places from a cursor on. Each payload has bytes of its own, so that there are no more than bytes.
#[tactic(auto, using(crate::proofs::Joined::few_places))]
pub fn places_from(data: &[u8], cursor: Cursor) -> Places<'_>
    ensures places { places_left result ≡ places_from cursor «data».entry.now }
    ensures few { length (places_left result) ≤ length «data».entry.now }
{
    Places { data, cursor }
}

impl<'a> Iterator for Places<'a> {
    type Item = Place;

    ghost next_gives = { YieldsFirst places_left };

    ghost remaining = { item_count places_left };

    #[tactic(auto, using(crate::proofs::Steps::step_payload, crate::proofs::Steps::step_end, crate::proofs::Steps::step_on))]
    fn next(&mut self) -> Option<Place> {
        let (place, next) = self.cursor.step(self.data)?;
        // The rest of the cursor is the same, and need not be copied.
        self.cursor.at = next.at;
        Some(place)
    }
}

// A payload's place, by the part of its record that it is.
fn place_in(record: Record, part: Part) -> Place
    requires { «record».body + part.start ≤ 18446744073709551615 }
    ensures { result ≡ place_in «record» part }
{
    let time = record.time;
    Place {
        header: record.header,
        start: record.body + part.start,
        len: part.len,
        time,
    }
}
