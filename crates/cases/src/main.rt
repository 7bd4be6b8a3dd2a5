// Runs a list of cases from standard input, a line for each, and writes a line for what each call
// tells, so that a wrong value changes what is written. Here are the calls that read a whole file;
// `point_cases` runs those on single points. A case is what it is called, a colon, the call, its
// numbers, and its file's bytes, as in
//
//     lvx 28 bytes: lvx 28 8 @0=6c69766f785f74656368 @20=67a70eac
//
// The first number is the file's length. `@20=67a7` puts these bytes at place 20; all others are 0.
// The other numbers are, by the call:
//
//     kitti, kitti-bits, packet, lvx, lvx2     room
//     velodyne, os1-64, os-128                 room, reading
//     ouster                                   room, reading, columns, beams, port, elevations
//     payload                                  reading, port, rank
//
// The room is in points, at most 8. A reading is 0 for the Rust's and 1 for the savefile's, and 2 has
// the call that names none. Every elevation that is lent is half its channel's number. A reader's line
// shows all of both slices as they are left: the kinds were 9 before, and the numbers 7.

#![tactic(auto)]

mod parameters;
mod payload_call;
mod readers;

use case_lists::Calls;
use case_words::Case;
use console::Console;
use lidar::{Form, OusterSettings};
use std::io;
use std::io::Write;

fn main(rt: HostRuntime) {
    let mut out = Console {
        rt: &rt,
        program: "cases",
        out: io::writer(&rt),
    };
    case_lists::run(&FileCalls, &mut out, &mut rt.stdin());
}

struct FileCalls;

impl Calls for FileCalls {
    fn tell<R: Eprint, W: Write>(&self, out: &mut Console<'_, R, W>, case: &Case<'_>, data: &[u8]) {
        match case.word(1) {
            b"payload" => payload_call::tell(out, case, data),
            b"kitti" => readers::tell(out, case, [7.0f32; 24], |numbers, kinds| {
                lidar::read_kitti(data, numbers, kinds)
            }),
            b"packet" => readers::tell(out, case, [7.0f32; 24], |numbers, kinds| {
                lidar::decode_velodyne_packet(data, numbers, kinds)
            }),
            b"velodyne" => readers::tell_velodyne(out, case, data),
            b"ouster" => {
                let altitudes = parameters::halves();
                let altitudes = case_words::front(&altitudes, case.number(8));
                readers::tell_ouster(out, case, data, parameters::settings(case), altitudes);
            }
            b"os1-64" => {
                let altitudes = OusterSettings::os1_64_altitudes();
                readers::tell_ouster(out, case, data, OusterSettings::os1_64(), &altitudes);
            }
            b"os-128" => {
                let altitudes = OusterSettings::os_128_altitudes();
                readers::tell_ouster(out, case, data, OusterSettings::os_128(), &altitudes);
            }
            b"kitti-bits" => readers::tell(out, case, [7u32; 24], |bits, kinds| {
                lidar::read_kitti(data, bits, kinds)
            }),
            b"lvx" => readers::tell(out, case, [7u32; 24], |bits, kinds| {
                lidar::read_livox(Form::Lvx, data, bits, kinds)
            }),
            b"lvx2" => readers::tell(out, case, [7u32; 24], |bits, kinds| {
                lidar::read_livox(Form::Lvx2, data, bits, kinds)
            }),
            _ => {
                out.write(b" no such call");
            }
        }
    }
}
