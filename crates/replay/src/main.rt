// Replays captures that other tools wrote: for each file that an argument names, its UDP payloads.

#![tactic(auto)]

use capture::{Cursor, Reading, TimeUnit};
use console::{Console, Failure};
use input::Unread;
use std::env::{Env, FillError};
use std::io::{Read, Write};
use std::rt::Runtime;
use std::{fs, io, str};

// As `velodyne` has it; this program reads captures alone, and needs no reader.
const VELODYNE_DATA_PORT: u16 = 2368;

// Goes on while what is shown can be written.
fn main(rt: HostRuntime) {
    let mut out = Console {
        rt: &rt,
        program: "replay",
        out: io::writer(&rt),
    };
    let mut name = [0u8; 64];
    // By place: std's `env::args` collects the arguments in a `Vec` of `String`s, and this program allocates nothing.
    for i in 1..usize::MAX {
        match rt.arg(i, &mut name) {
            Ok(n) => {
                if !replay_argument(&mut out, &name[..n]) {
                    return;
                }
            }
            Err(FillError::TooLong) => complain(&rt, "an argument: File name too long"),
            Err(FillError::NotPresent) => return,
        }
    }
}

fn replay_argument<R: Runtime, W: Write>(out: &mut Console<'_, R, W>, name: &[u8]) -> bool {
    match str::from_utf8(name) {
        Ok(name) => replay(out, name),
        Err(_) => {
            complain(out.rt, "an argument: not UTF-8");
            true
        }
    }
}

fn replay<R: Runtime, W: Write>(out: &mut Console<'_, R, W>, name: &str) -> bool {
    match fs::open(out.rt, name) {
        Ok(mut file) => replay_file(out, name, &mut file),
        Err(error) => {
            fail(out.rt, name, error);
            true
        }
    }
}

fn replay_file<R: Runtime, W: Write, F: Read>(
    out: &mut Console<'_, R, W>,
    name: &str,
    file: &mut F,
) -> bool {
    // By no `Console::read_whole`: a file is told by its name, and a line that can't be written ends the program.
    let mut space = [0u8; 65536];
    match input::read_whole(file, &mut space) {
        Ok(data) => show(out, name, data),
        Err(Unread::TooLong) => out.print(name) && out.write(b" too long\n"),
        Err(Unread::Failed(error)) => {
            fail(out.rt, name, error);
            true
        }
    }
}

fn show<R: Runtime, W: Write>(out: &mut Console<'_, R, W>, name: &str, data: &[u8]) -> bool {
    if !out.print(name) {
        return false;
    }
    match capture::open_as(data, Reading::Savefile, 0) {
        Err(refusal) => {
            out.write(b" refused");
            out.print_next(refusal.number());
            out.write(b"\n")
        }
        Ok(cursor) => {
            out.write(b" payloads");
            out.print_next(count(data, Reading::Savefile, 0));
            out.write(b" on");
            out.print_next(VELODYNE_DATA_PORT);
            out.print_next(count(data, Reading::Savefile, VELODYNE_DATA_PORT));
            out.write(b" rust");
            out.print_next(count(data, Reading::Rust, 0));
            out.write(b"\n");
            show_payloads(out, name, data, cursor);
            true
        }
    }
}

// How many payloads the walk meets.
fn count(data: &[u8], reading: Reading, port: u16) -> usize {
    match capture::open_as(data, reading, port) {
        Ok(cursor) => capture::places_from(data, cursor).count(),
        Err(_) => 0,
    }
}

// A line for each payload: its rank, then its start and length as the walk tells them, then its time and its bytes as the call by rank hands them back. Last,
// the rank after them all.
fn show_payloads<R: Runtime, W: Write>(
    out: &mut Console<'_, R, W>,
    name: &str,
    data: &[u8],
    first: Cursor,
) {
    for (rank, place) in capture::places_from(data, first).enumerate() {
        out.print(name);
        out.print_next(rank);
        out.print_next(place.start);
        out.print_next(place.len);
        show_rank(out, data, rank);
    }
    let rank = capture::places_from(data, first).count();
    out.print(name);
    out.print_next(rank);
    show_rank(out, data, rank);
}

fn show_rank<R: Runtime, W: Write>(out: &mut Console<'_, R, W>, data: &[u8], rank: usize) {
    let payload = payloads::payload_as(data, Reading::Savefile, 0, rank);
    if payload.bytes.is_empty() {
        out.write(b" none\n");
        return;
    }
    out.print_next(payload.time.seconds);
    out.print_next(payload.time.fraction);
    out.write(match payload.time.unit {
        TimeUnit::Microseconds => b" us ",
        TimeUnit::Nanoseconds => b" ns ",
    });
    // `cases` has this loop, too: a function for both would need a contract, and save nothing.
    for byte in payload.bytes {
        out.print(format_args!("{byte:02x}"));
    }
    out.write(b"\n");
}

// Says on standard error what failed, and why. Where that fails, too, nothing is left to be said. `Console` has no
// public function for it: no contract can name what goes to standard error, so that no wrong one could be refused.
fn fail<R: Runtime>(rt: &R, what: &str, error: io::Error) {
    let _ = rt.eprintln(Failure { what, error });
}

fn complain<R: Runtime>(rt: &R, what: &str) {
    let _ = eprintln!(rt; "replay: {what}");
}
