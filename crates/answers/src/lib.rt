// The numbers a call may give back, by name.

#![tactic(auto)]

ghost use Rattle.std.specs.Prelude.{◌≡◌};
ghost use Rattle.answers.specs.Answer.{refusal_number, refusal_points, number_of, points_of, frames_of};

// Why a call refuses, by the paper's numbers. A call makes its checks in an order of its own, and the
// first that applies is told.
#[derive(Clone, Copy, Debug, PartialEq, Eq)]
pub enum Refusal {
    // 1: the data is longer than 2,147,483,647 bytes.
    TooLong,
    // 2: Ouster settings out of range.
    BadSettings,
    // 3: the data is below 24 bytes (capture, LVX) or 28 (LVX2).
    TooShort,
    // 4: the opening mark, the file's magic, is wrong.
    WrongMark,
    // 5: the LVX code at offset 20 is wrong.
    WrongCode,
    // 6: LVX data is below 29 bytes.
    HeaderTooShort,
    // 7: the Livox device section ends past the data.
    DevicesPastEnd,
    // 8: KITTI data is not a multiple of 16 bytes.
    NotWholeRecords,
    // 9: a capture has no payload on the reader's port.
    NoPayload,
    // 10: a lent slice is too short. Carries the number of points in the data.
    NoRoom(usize),
    // 11: the point to be placed is no whole-millimetre Livox point, or there is none of its rank.
    NotPlaceable,
    // 12: the pulse length is outside 1 to 1,000 micrometres.
    BadPulseLength,
    // 13: the exact place lies beyond 16,000,000 micrometres either way.
    OutsideWindow,
}

// What a reader read: the points that it told, and the frames that it entered.
#[derive(Clone, Copy, Debug, PartialEq, Eq)]
pub struct Counts {
    pub points: usize,
    pub frames: usize,
}

impl Refusal {
    // A method and no From: a refusal tells two numbers, of which `u8::from` would not say the one.
    pub fn number(self) -> u8
        ensures { result ≡ refusal_number self }
    {
        match self {
            Refusal::TooLong => 1,
            Refusal::BadSettings => 2,
            Refusal::TooShort => 3,
            Refusal::WrongMark => 4,
            Refusal::WrongCode => 5,
            Refusal::HeaderTooShort => 6,
            Refusal::DevicesPastEnd => 7,
            Refusal::NotWholeRecords => 8,
            Refusal::NoPayload => 9,
            Refusal::NoRoom(_) => 10,
            Refusal::NotPlaceable => 11,
            Refusal::BadPulseLength => 12,
            Refusal::OutsideWindow => 13,
        }
    }

    // The points that there should be room for. Other refusals tell 0, which C writes for them.
    pub fn points_needed(self) -> usize
        ensures { result ≡ refusal_points self }
    {
        match self {
            Refusal::NoRoom(needed) => needed,
            _ => 0,
        }
    }
}

// 0 where a call did what it is for, else its refusal's number. No From, since a reader's answer tells three
// numbers.
pub fn number_of<T: Copy>(answer: Result<T, Refusal>) -> u8
    ensures { result ≡ number_of answer }
{
    match answer {
        Ok(_) => 0,
        Err(refusal) => refusal.number(),
    }
}

// The points told, or those needed where there is no room.
pub fn points_of(answer: Result<Counts, Refusal>) -> usize
    ensures { result ≡ points_of answer }
{
    match answer {
        Ok(counts) => counts.points,
        Err(refusal) => refusal.points_needed(),
    }
}

pub fn frames_of(answer: Result<Counts, Refusal>) -> usize
    ensures { result ≡ frames_of answer }
{
    match answer {
        Ok(counts) => counts.frames,
        Err(_) => 0,
    }
}
