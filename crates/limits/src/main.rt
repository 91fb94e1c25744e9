// The call up, on logs and work buffers of many lengths: 12 and 13 change nothing.
#![tactic(auto)]

ghost use Rattle.std.specs.Prelude.{◌≡◌, ◌≤◌, length};

use cyw43::fresh::{fresh_list, fresh_state};
use cyw43::ioctls::up;
use going::CallEnd;
use outcomes::numbers::refusal_of;

// Document 01's worked example: the request is written, and its reply is read.
fn recording() -> [u32; 22]
    ensures { 22 ≡ length result }
{
    [
        0x20000000, 0x20, 0x60000000, 0x40000000, 0, 0, 0x40000000, 0, 0, 0x10000020, 0x60000000,
        0x20000000, 0x3900, 0x3000001C, 0, 0xFFE3001C, 0x0C000000, 0x200, 2, 0, 0x10002, 0,
    ]
}

// What a log and a work buffer are filled with before a call.
const WORD: u32 = 0xAAAA_AAAA;

const BYTE: u8 = 0x5A;

fn log_words() -> [u32; 16]
    ensures { 16 ≡ length result }
{
    [WORD; 16]
}

fn work_bytes() -> [u8; 2049]
    ensures { 2049 ≡ length result }
{
    [BYTE; 2049]
}

// How many items are not as they were.
fn changed<T: PartialEq>(items: &[T], before: &T) -> usize {
    items.iter().filter(|x| *x != before).count()
}

fn print_number(text: &[u8], n: u64) {
    io::write_all(1, text);
    io::print_decimal(1, n);
}

// Written by the C library's write alone: the standard library's printing stands on more.
fn show(e: CallEnd, log: &[u32], buf: &[u8]) {
    let s = e.st.sdpcm;
    print_number(b": refusal ", refusal_of(e.outcome) as u64);
    print_number(b", log words ", e.len as u64);
    print_number(b"; sequence ", s.packet_tx_seq as u64);
    print_number(b", credit ", s.last_bus_data_credit as u64);
    print_number(b", flow ", s.wlan_flow_control as u64);
    print_number(b", id ", s.requested_ioctl_id as u64);
    print_number(b"; changed: words of the log ", changed(log, &WORD) as u64);
    print_number(b", bytes of the buffer ", changed(buf, &BYTE) as u64);
    io::write_all(1, b"\n");
}

// The first n words of the log and the first m bytes of the buffer are lent.
fn try_up(n: usize, m: usize, log: &mut [u32], buf: &mut [u8]) -> CallEnd
    requires n_in_bounds { n ≤ length log.old }
    requires m_in_bounds { m ≤ length buf.old }
{
    let rec = recording();
    up(
        fresh_state(),
        fresh_list(),
        &rec,
        &mut log[..n],
        &mut buf[..m],
    )
}

fn log_of(n: usize)
    requires { n ≤ 16 }
{
    let mut log = log_words();
    let mut buf = work_bytes();
    print_number(b"log of ", n as u64);
    let e = try_up(n, 2048, &mut log, &mut buf);
    show(e, &log, &buf);
}

fn buffer_of(n: usize)
    requires { n ≤ 2049 }
{
    let mut log = log_words();
    let mut buf = work_bytes();
    print_number(b"buffer of ", n as u64);
    let e = try_up(16, n, &mut log, &mut buf);
    show(e, &log, &buf);
}

fn main() {
    for n in [0, 1, 2, 5, 8, 14, 15] {
        log_of(n);
    }
    for n in [0, 2047, 2048, 2049] {
        buffer_of(n);
    }
}
