// A record's rule: the Ethernet, IPv4 and UDP steps from a record to its payload.

ghost use Rattle.std.specs.Prelude.{◌≡◌, not, ◌&&◌, ◌||◌, [], ◌∷◌, ◌+◌, ◌≤◌, ◌<◌, leb, ltb, eqb, length, Ok};
ghost use Rattle.record_rule.specs.declared.reading.Reading.TheVariants.{Rust, Savefile};
ghost use Rattle.record_rule.specs.declared.rule.PassedOver.TheVariants.{ShortIpHeader, Fragment, BadUdpLength, NothingFollows};
ghost use Rattle.record_rule.specs.Ethernet.{type_at, ip_start};
ghost use Rattle.record_rule.specs.Ipv4.{ihl, is_fragment, udp_start};
ghost use Rattle.record_rule.specs.Udp.{destination_port, bad_udp_length, payload_start};
ghost use Rattle.record_rule.specs.Record.{first_that, udp_header_tests, udp_tests, payload_of, verdict};

use crate::reading::Reading;
use fields::{ByteOrder, Field};

// Why a record is passed over: the first of the tests that applies to it.
#[derive(Clone, Copy, Debug, PartialEq, Eq)]
pub enum PassedOver {
    ShortRecord,
    NotIpv4,
    WrongVersion,
    NotUdp,
    ShortIpHeader,
    Fragment,
    UdpPastEnd,
    OtherPort,
    BadUdpLength,
    NothingFollows,
}

// A part of a record: where it starts in the record's bytes, and how long it is.
#[derive(Clone, Copy, Debug, PartialEq, Eq)]
pub struct Part {
    pub start: usize,
    pub len: usize,
}

// The part that is the payload, or why there is none.
pub fn judge(bytes: &[u8], reading: Reading, port: u16) -> Result<Part, PassedOver>
    ensures { result ≡ verdict reading port bytes.now }
{
    if bytes.len() < 42 {
        return Err(PassedOver::ShortRecord);
    }
    let type_at = type_at(bytes);
    let Some(ether_type) = u16::read(bytes, type_at, ByteOrder::Big) else {
        return Err(PassedOver::NotIpv4);
    };
    if ether_type != 0x0800 {
        return Err(PassedOver::NotIpv4);
    }
    let ip = type_at + 2;
    let first = bytes[ip];
    if first / 16 != 4 {
        return Err(PassedOver::WrongVersion);
    }
    if bytes[ip + 9] != 17 {
        return Err(PassedOver::NotUdp);
    }
    judge_udp(bytes, ip, usize::from(first % 16), reading, port)
}

// The tests from the IHL on that the reading has.
fn judge_udp(
    bytes: &[u8],
    ip: usize,
    words: usize,
    reading: Reading,
    port: u16,
) -> Result<Part, PassedOver>
    requires { (42 ≤ length bytes.now) × (ip ≡ ip_start bytes.now) × (ip ≤ 18) × (words ≡ ihl bytes.now) × (words < 16) }
    ensures { result ≡ first_that (udp_tests reading port bytes.now) (payload_of reading bytes.now) }
{
    let udp = ip + words * 4;
    match reading {
        Reading::Rust => {
            check_udp_header(bytes, udp, port)?;
            to_record_end(bytes, udp)
        }
        Reading::Savefile => {
            check_ip_header(bytes, ip, words)?;
            check_udp_header(bytes, udp, port)?;
            to_udp_length(bytes, udp)
        }
    }
}

// A long enough header, and no fragment: tests of the savefile reading alone.
#[tactic(auto, unfolding(crate::specs::Record::first_that), using(std::proofs::lemmas::Bool::Decides::nat_tests))]
fn check_ip_header(bytes: &[u8], ip: usize, words: usize) -> Result<(), PassedOver>
    requires { (42 ≤ length bytes.now) × (ip ≡ ip_start bytes.now) × (ip ≤ 18) × (words ≡ ihl bytes.now) }
    ensures { result ≡ first_that ((ShortIpHeader, ltb (ihl bytes.now) 5) ∷ (Fragment, is_fragment bytes.now) ∷ []) (Ok tt) }
{
    if words < 5 {
        return Err(PassedOver::ShortIpHeader);
    }
    if is_fragment(bytes, ip) {
        return Err(PassedOver::Fragment);
    }
    Ok(())
}

// More-fragments and the offset are the low 14 bits.
fn is_fragment(bytes: &[u8], ip: usize) -> bool
    requires { (42 ≤ length bytes.now) × (ip ≡ ip_start bytes.now) × (ip ≤ 18) }
    ensures { result ≡ is_fragment bytes.now }
{
    let Some(field) = u16::read(bytes, ip + 6, ByteOrder::Big) else {
        return true;
    };
    field % 0x4000 != 0
}

// The UDP header fits, and its port was asked for.
#[tactic(auto, unfolding(crate::specs::Record::first_that, crate::specs::Record::udp_header_tests, crate::specs::Udp::payload_start), using(std::proofs::lemmas::Bool::Decides::nat_tests))]
fn check_udp_header(bytes: &[u8], udp: usize, port: u16) -> Result<(), PassedOver>
    requires { (udp ≡ udp_start bytes.now) × (udp ≤ 78) }
    ensures { result ≡ first_that (udp_header_tests port bytes.now) (Ok tt) }
{
    if bytes.len() < udp + 8 {
        return Err(PassedOver::UdpPastEnd);
    }
    if is_other_port(bytes, udp, port) {
        return Err(PassedOver::OtherPort);
    }
    Ok(())
}

fn is_other_port(bytes: &[u8], udp: usize, port: u16) -> bool
    requires { (udp ≡ udp_start bytes.now) × (udp + 8 ≤ length bytes.now) }
    ensures { result ≡ (not (eqb port 0) && not (eqb (destination_port bytes.now) port)) }
{
    let Some(destination) = u16::read(bytes, udp + 2, ByteOrder::Big) else {
        return true;
    };
    port != 0 && destination != port
}

// All that follows the UDP header.
#[tactic(auto, unfolding(crate::specs::Record::first_that, crate::specs::Udp::payload_start, crate::specs::Udp::payload_len), using(std::proofs::lemmas::Bool::Decides::nat_tests))]
fn to_record_end(bytes: &[u8], udp: usize) -> Result<Part, PassedOver>
    requires { (udp ≡ udp_start bytes.now) × (udp + 8 ≤ length bytes.now) }
    ensures { result ≡ first_that ((NothingFollows, leb (length bytes.now) (payload_start bytes.now)) ∷ []) (payload_of Rust bytes.now) }
{
    let start = udp + 8;
    if bytes.len() <= start {
        return Err(PassedOver::NothingFollows);
    }
    let len = bytes.len() - start;
    Ok(Part { start, len })
}

// As much of what follows the UDP header as its length says.
fn to_udp_length(bytes: &[u8], udp: usize) -> Result<Part, PassedOver>
    requires { (udp ≡ udp_start bytes.now) × (udp + 8 ≤ length bytes.now) }
    ensures { result ≡ first_that ((BadUdpLength, bad_udp_length bytes.now) ∷ []) (payload_of Savefile bytes.now) }
{
    let held = bytes.len() - udp;
    let Some(stated) = u16::read(bytes, udp + 4, ByteOrder::Big) else {
        return Err(PassedOver::BadUdpLength);
    };
    let stated = usize::from(stated);
    if is_bad_length(stated, held) {
        return Err(PassedOver::BadUdpLength);
    }
    let len = stated - 8;
    Ok(Part {
        start: udp + 8,
        len,
    })
}

// A UDP length that leaves no byte of payload, or is more than the record holds from the UDP header on.
fn is_bad_length(stated: usize, held: usize) -> bool
    ensures { result ≡ (ltb stated 9 || ltb held stated) }
{
    stated < 9 || held < stated
}

// Where the EtherType stands: after one tag, or without one.
fn type_at(bytes: &[u8]) -> usize
    requires { 42 ≤ length bytes.now }
    ensures place { result ≡ type_at bytes.now }
    ensures near { result ≤ 16 }
{
    let Some(first_type) = u16::read(bytes, 12, ByteOrder::Big) else {
        return 12;
    };
    if first_type == 0x8100 { 16 } else { 12 }
}
