// Carries out stored reads and writes of fields. The file `accesses` is made by tools/stored_sheets, from the rules and not from this program; its format
// is told there. Each operation is carried out twice, by the sheet and at the field's locator. Prints how many gave the answer, and left the buffer, that the
// file has for them, and how many did not.
#![tactic(auto)]

ghost use Rattle.std.specs.Prelude.{◌≤◌, ◌-◌, length};

use answer::Refusal;
use locator::Locator;
use octets::{be16, be64, byte_at, part};
use packed::{Stored, Tally, answer_in, two};
use std::alloc::AllocError;
use std::process::ExitCode;

// ---- an operation

// With the number or the bytes that are written, or that an accepted read gives.
#[derive(Clone, Copy)]
enum Access<'a> {
    ReadNumber(u64),
    ReadBytes(&'a [u8]),
    WriteNumber(u64),
    WriteBytes(&'a [u8]),
}

fn access_in<'a>(head: &[u8], bytes: &'a [u8]) -> Access<'a> {
    match byte_at(head, 0) {
        0 => Access::ReadNumber(be64(head, 5)),
        1 => Access::ReadBytes(bytes),
        2 => Access::WriteNumber(be64(head, 5)),
        _ => Access::WriteBytes(bytes),
    }
}

#[derive(Clone, Copy)]
struct Operation<'a> {
    access: Access<'a>,
    field: usize,
    // a kind of filling, which the buffer holds before
    filling: u8,
    // what is answered, and the bytes that differ afterwards, with the index of the first
    right: Result<(), Stored>,
    from: usize,
    differ: &'a [u8],
}

fn operation_in<'a>(head: &[u8], bytes: &'a [u8], differ: &'a [u8]) -> Operation<'a> {
    Operation {
        access: access_in(head, bytes),
        field: usize::from(byte_at(head, 1)),
        filling: byte_at(head, 2),
        right: answer_in(part(head, 15, 18)),
        from: two(head, 18),
        differ,
    }
}

impl<'a> Operation<'a> {
    // ---- the buffer before and after

    // Byte i of the filling: zeros, ones, or mixed.
    fn filling(self, i: usize) -> u8 {
        match self.filling {
            0 => 0,
            1 => 255,
            _ => ((37 * (i % 256) + 11) % 256) as u8,
        }
    }

    fn fill(self, buf: &mut [u8]) {
        for (i, b) in buf.iter_mut().enumerate() {
            *b = self.filling(i);
        }
    }

    // Byte i afterwards.
    fn after(self, i: usize) -> u8 {
        match i.checked_sub(self.from) {
            Some(k) if k < self.differ.len() => self.differ[k],
            _ => self.filling(i),
        }
    }

    fn is_left(self, buf: &[u8]) -> bool {
        buf.iter().enumerate().all(|(i, b)| *b == self.after(i))
    }

    // ---- by the sheet and at the locator

    fn is_answer(self, v: Result<(), Refusal>) -> bool {
        v.map_err(Stored::from) == self.right
    }

    fn is_number(self, read: Result<u64, Refusal>, n: u64) -> bool {
        read.map_err(Stored::from) == self.right.map(|_| n)
    }

    fn by_sheet(self, s: &[u8], buf: &mut [u8]) -> bool {
        let i = self.field;
        match self.access {
            Access::ReadNumber(n) => self.is_number(access::read_number(s, buf, i), n),
            Access::ReadBytes(bytes) => {
                access::read_bytes(s, buf, i) == bytes
                    && self.is_answer(access::can_read_bytes(s, buf, i))
            }
            Access::WriteNumber(n) => self.is_answer(access::write_number(s, buf, i, n)),
            Access::WriteBytes(bytes) => self.is_answer(access::write_bytes(s, buf, i, bytes)),
        }
    }

    fn at_locator(self, p: Locator, buf: &mut [u8]) -> bool {
        match self.access {
            Access::ReadNumber(n) => self.is_number(p.read_number(buf), n),
            Access::ReadBytes(bytes) => {
                p.read_bytes(buf) == bytes && self.is_answer(p.can_read_bytes(buf))
            }
            Access::WriteNumber(n) => self.is_answer(p.write_number(buf, n)),
            Access::WriteBytes(bytes) => self.is_answer(p.write_bytes(buf, bytes)),
        }
    }

    fn by_locator(self, s: &[u8], buf: &mut [u8]) -> bool {
        match access::locate(s, self.field) {
            Ok(p) => self.at_locator(p, buf),
            Err(reason) => self.is_answer(Err(reason)),
        }
    }

    // Whether both give the answer and leave the buffer that the file has.
    fn is_right(self, s: &[u8], buf: &mut [u8]) -> bool {
        self.fill(buf);
        let first = self.by_sheet(s, buf) && self.is_left(buf);
        self.fill(buf);
        first && self.by_locator(s, buf) && self.is_left(buf)
    }
}

// In a buffer of n bytes.
fn replay_one(s: &[u8], operation: Operation<'_>, n: usize) -> bool {
    let mut buf = [0u8; 2048];
    n <= buf.len() && operation.is_right(s, &mut buf[..n])
}

// ---- the records

// n operations on a sheet, one behind the other; what is left behind them. Where the sheet is not whole, all of them are wrong.
fn replay_operations<'a>(
    tally: &mut Tally,
    s: &[u8],
    whole: bool,
    operations: &'a [u8],
    n: u16,
) -> &'a [u8]
    ensures { length result.now ≤ length operations.now }
{
    let mut left = operations;
    for _ in 0..n {
        let head = part(left, 0, 22);
        let differ = 22 + two(head, 13);
        let next = differ + two(head, 20);
        let operation = operation_in(head, part(left, 22, differ), part(left, differ, next));
        *tally = tally.with(whole && replay_one(s, operation, two(head, 3)));
        left = part(left, next, left.len());
    }
    left
}

// A record at the front of what is left: its head, the packed sheet, the operations; what is left behind it.
fn replay_record<'a>(tally: &mut Tally, left: &'a [u8]) -> &'a [u8]
    ensures { length result.now ≤ length left.now - 6 }
{
    let p = 6 + two(left, 0);
    let len = two(left, 2);
    let n = be16(left, 4);
    let mut sheet = [0u8; 65536];
    let whole = packed::unpack(part(left, 6, p), 0, &mut sheet) <= len;
    let operations = part(left, p, left.len());
    replay_operations(tally, part(&sheet, 0, len), whole, operations, n)
}

// Record after record up to the end of the file, or a thousand: what is over stays unread.
fn replay_all(file: &[u8]) -> Tally {
    let mut tally = Tally::NONE;
    let mut left = file;
    for _ in 0..1000 {
        if left.is_empty() {
            break;
        }
        left = replay_record(&mut tally, left);
    }
    tally
}

fn main(rt: HostRuntime) -> Result<ExitCode, AllocError> {
    // room for the file
    let mut file = vec![in rt.alloc(); 0; 1048576]?;
    let Ok(n) = streams::read_file(&rt, b"accesses", &mut file) else {
        return Ok(ExitCode::FAILURE);
    };
    let tally = replay_all(part(&file, 0, n));
    let mut out = [0u8; 128];
    let to = tally.put(&mut out, Some(0), b"");
    let written = rt.write_all(part(&out, 0, text::filled(&out, to)));
    Ok(packed::status(&rt, "test_accesses", written))
}
