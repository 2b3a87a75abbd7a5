// Replays the original's answers. The files `answers` and `alone` are made by oracle/ from runs of the original Rust; oracle/README.md tells their formats, and
// where the answer here is another on purpose. Prints, of each file, how many answers are the same and how many are not.
#![tactic(auto)]

use bits::BitPos;
use bounds::CondBounds;
use expr::UsableAlgExpr;
use number::{Bits, Bytes};
use octets::{be64, byte_at, part};
use packed::{Tally, two};
use std::alloc::AllocError;
use std::ops::Bound;
use std::process::ExitCode;
use types::BuiltinTypes;

// ---- sheets

// Whether the text that is printed of a sheet is the one expected. The original tells no place: its refusals end behind the number, with a space, and the
// text has to begin so.
fn is_printed(s: &[u8], expected: &[u8]) -> bool {
    let mut out = [0u8; 40000];
    let n = listing::list(s, &mut out);
    let text = part(&out, 0, n);
    if expected.ends_with(b" ") {
        return text.starts_with(expected);
    }
    text == expected
}

// Whether the sheet of so many bytes that a packed text stands for is printed so.
fn is_right(packed_sheet: &[u8], len: usize, expected: &[u8]) -> bool {
    let mut sheet = [0u8; 65536];
    let whole = packed::unpack(packed_sheet, 0, &mut sheet) <= len;
    whole && is_printed(part(&sheet, 0, len), expected)
}

// ---- functions that stand alone

// What is answered to a question, where it is no refusal: codes and numbers, zeros where it has none.
#[derive(Clone, Copy, Default, PartialEq, Eq)]
struct Answer {
    r1: u8,
    r2: u8,
    y: u64,
    z: u64,
}

impl Answer {
    fn number(y: u64) -> Answer {
        Answer {
            y,
            ..Answer::default()
        }
    }

    fn code(r1: u8) -> Answer {
        Answer {
            r1,
            ..Answer::default()
        }
    }
}

fn byte_val(num: u64) -> Option<Answer> {
    let b = number::parse_to_byte_val(num).ok()?;
    Some(Answer::number(u64::from(b)))
}

fn type_from(name: &[u8]) -> Option<Answer> {
    let t = BuiltinTypes::from(name).ok()?;
    Some(Answer::code(t.code()))
}

fn max_value(width: u64) -> Option<Answer> {
    Some(Answer::number(number::max_value(Bits(width))?))
}

fn end_pos(start: u64, width: u64) -> Option<Answer> {
    let p = BitPos::new(Bits(start)).end_pos(Bits(width)).ok()?;
    Some(Answer {
        r1: p.bit_pos(),
        r2: 0,
        y: p.byte_pos().0,
        z: p.to_global_pos().0,
    })
}

// The expression of a form from 1 to 5, with its numbers.
fn expr(form: u8, a: u64, b: u64) -> UsableAlgExpr {
    match form {
        1 => UsableAlgExpr::IdentOnly,
        2 => UsableAlgExpr::SimpleAdd(a),
        3 => UsableAlgExpr::SimpleMult(a),
        4 => UsableAlgExpr::AddMult(a, b),
        _ => UsableAlgExpr::MultAdd(a, b),
    }
}

fn exec(e: UsableAlgExpr, x: u64) -> Option<Answer> {
    Some(Answer::number(e.exec(x)?.0))
}

fn reverse_exec(e: UsableAlgExpr, y: u64) -> Option<Answer> {
    Some(Answer::number(e.reverse_exec(Bytes(y))?))
}

// A bound of kind 0 none, 1 included or 2 excluded.
fn bound(kind: u8, n: u64) -> Bound<u64> {
    match kind {
        0 => Bound::Unbounded,
        1 => Bound::Included(n),
        _ => Bound::Excluded(n),
    }
}

fn kind_and_number(b: Bound<u64>) -> (u8, u64) {
    match b {
        Bound::Unbounded => (0, 0),
        Bound::Included(n) => (1, n),
        Bound::Excluded(n) => (2, n),
    }
}

fn range(r: CondBounds) -> Answer {
    let (r1, y) = kind_and_number(r.start);
    let (r2, z) = kind_and_number(r.end);
    Answer { r1, r2, y, z }
}

fn is_empty(r: CondBounds) -> Option<Answer> {
    let empty = r.is_empty().ok()?;
    Some(Answer::code(u8::from(empty)))
}

fn intersect(r: CondBounds, q: CondBounds) -> Option<Answer> {
    Some(range(r.intersect(q).ok()?))
}

// A question's range: two codes, and two numbers.
fn range_at(codes: &[u8], numbers: &[u8]) -> CondBounds {
    let start = bound(byte_at(codes, 0), be64(numbers, 0));
    let end = bound(byte_at(codes, 1), be64(numbers, 8));
    CondBounds { start, end }
}

fn asked(q: &[u8]) -> Option<Answer> {
    let code = byte_at(q, 1);
    let a = be64(q, 8);
    let b = be64(q, 16);
    let c = be64(q, 24);
    let r = range_at(part(q, 1, 3), part(q, 8, 24));
    match byte_at(q, 0) {
        1 => byte_val(a),
        2 => type_from(part(q, 8, 8 + usize::from(code))),
        3 => max_value(a),
        4 => end_pos(a, b),
        5 => exec(expr(code, a, b), c),
        6 => reverse_exec(expr(code, a, b), c),
        7 => Some(range(r.update_end(c))),
        8 => is_empty(r),
        9 => intersect(r, range_at(part(q, 3, 5), part(q, 24, 40))),
        _ => None,
    }
}

// Whether the answer here is a refusal, though the original gives one: a run of no bits, and excluded starts.
fn differs(q: &[u8]) -> bool {
    match byte_at(q, 0) {
        4 => be64(q, 16) == 0,
        8 => byte_at(q, 1) == 2,
        9 => byte_at(q, 1) == 2 || byte_at(q, 3) == 2,
        _ => false,
    }
}

// What the original answered; none where it has none or panics, and where the answer here differs.
fn expected(q: &[u8]) -> Option<Answer> {
    if byte_at(q, 40) != 1 || differs(q) {
        return None;
    }
    Some(Answer {
        r1: byte_at(q, 41),
        r2: byte_at(q, 42),
        y: be64(q, 48),
        z: be64(q, 56),
    })
}

// ---- the files

// Sheet after sheet up to the end of the file, or a hundred thousand: what is over stays unread.
fn replay_answers(file: &[u8]) -> Tally {
    let mut tally = Tally::NONE;
    let mut left = file;
    for _ in 0..100000 {
        if left.is_empty() {
            break;
        }
        let text = 6 + two(left, 0);
        let next = text + two(left, 4);
        let right = is_right(part(left, 6, text), two(left, 2), part(left, text, next));
        tally = tally.with(right);
        left = part(left, next, left.len());
    }
    tally
}

// Question after question.
fn replay_alone(file: &[u8]) -> Tally {
    let mut tally = Tally::NONE;
    for q in file.chunks(64) {
        tally = tally.with(asked(q) == expected(q));
    }
    tally
}

fn main(rt: HostRuntime) -> Result<ExitCode, AllocError> {
    // room for a file
    let mut file = vec![in rt.alloc(); 0; 1048576]?;
    let Ok(n) = streams::read_file(&rt, b"answers", &mut file) else {
        return Ok(ExitCode::FAILURE);
    };
    let answers = replay_answers(part(&file, 0, n));
    let Ok(n) = streams::read_file(&rt, b"alone", &mut file) else {
        return Ok(ExitCode::FAILURE);
    };
    let alone = replay_alone(part(&file, 0, n));
    let mut out = [0u8; 256];
    let to = answers.put(&mut out, Some(0), b"answers: ");
    let to = alone.put(&mut out, to, b"alone: ");
    let written = rt.write_all(part(&out, 0, text::filled(&out, to)));
    Ok(packed::status(&rt, "test_replay", written))
}
