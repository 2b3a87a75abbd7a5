// Runs the steps over stored sheets. The file `sheets` is made by tools/stored_sheets, from the rules and not from this program; its record format
// is told there. Prints how many sheets gave the answer, and what a sheet that passed holds, that the file has for them, and how many did not.
#![tactic(auto)]

mod facts;

use answer::{Group, Refusal};
use facts::Facts;
use header::Header;
use octets::{byte_at, part};
use packed::{Stored, Tally, answer_in, two};
use std::alloc::AllocError;
use std::process::ExitCode;

// ---- the template of an accepted sheet, built in a buffer that holds the filling and nothing else

const FILLING: u8 = 165;

fn is_filling(buf: &[u8]) -> bool {
    buf.iter().all(|b| *b == FILLING)
}

// The length of a piece.
const PIECE: usize = 65536;

// Whether a piece of a text is what is packed.
fn is_piece(text: &[u8], packed: &[u8], first: usize) -> bool {
    let mut piece = [0u8; PIECE];
    let end = packed::unpack(packed, first, &mut piece);
    let had = part(part(text, first, text.len()), 0, PIECE);
    end <= text.len() && piece.starts_with(had)
}

// Whether a text is what is packed. It goes piece by piece: there is no room for the longest template twice.
fn is_unpacked(text: &[u8], packed: &[u8]) -> bool {
    (0..=text.len() / PIECE).all(|k| is_piece(text, packed, PIECE * k))
}

// Whether a buffer is refused for this reason and keeps its bytes.
fn is_refused(s: &[u8], buf: &mut [u8], reason: Stored) -> bool {
    let built = template::build_header_template(s, buf).map_err(Stored::from);
    built == Err(reason) && is_filling(buf)
}

// So for lack of room.
fn lacks_room(s: &[u8], buf: &mut [u8]) -> bool {
    let reason = Stored {
        group: Group::Room.number(),
        number: 1,
        place: sheet::block_count(s),
    };
    is_refused(s, buf, reason)
}

// So for one byte less than the header has. No buffer is shorter than a header of 0 bytes.
fn refuses_short(s: &[u8], buf: &mut [u8], len: usize) -> bool {
    let Some(short) = len.checked_sub(1) else {
        return true;
    };
    short <= buf.len() && lacks_room(s, &mut buf[..short])
}

// Whether a buffer gets the template that is packed, and keeps its other bytes.
fn is_built(s: &[u8], buf: &mut [u8], packed: &[u8], len: usize) -> bool {
    let built = template::build_header_template(s, buf).is_ok()
        && is_unpacked(part(buf, 0, len), packed)
        && is_filling(part(buf, len, buf.len()));
    buf.fill(FILLING);
    built
}

// So for 16 bytes more than the header has.
fn builds_longer(s: &[u8], buf: &mut [u8], packed: &[u8], len: usize) -> bool {
    let Some(long) = len.checked_add(16) else {
        return false;
    };
    long <= buf.len() && is_built(s, &mut buf[..long], packed, len)
}

// Whether the template of an accepted sheet is the one that is packed.
fn has_template(s: &[u8], header: Header, packed: &[u8], buf: &mut [u8]) -> bool {
    let len = header.len.0 as usize;
    refuses_short(s, buf, len) && builds_longer(s, buf, packed, len)
}

// ---- the records

// Steps 1 and 2.
fn first_steps(s: &[u8]) -> Result<(), Refusal> {
    sheet::check(s)?;
    field_blocks::check(s)
}

// The others one by one, of a sheet that passed these: what the first that refuses answers. What a sheet that passed so far holds is read from the facts.
fn further_steps(
    s: &[u8],
    accepted: bool,
    facts: &mut Facts<'_>,
    buf: &mut [u8],
) -> Result<(), Refusal> {
    facts.of_sheet(s);
    let header = Header::new(s)?;
    let packed = facts.of_header(header);
    if accepted {
        facts.and(has_template(s, header, packed, buf));
    }
    length::check(s, header)?;
    facts.of_lengths(s);
    cond::check(s)?;
    facts.of_conds(s);
    Ok(())
}

// Whether the steps, one by one, answer what the record has, and the facts are right, with nothing left of them. (Of a sheet that step 1 or 2 refuses none is asked.)
fn are_steps(s: &[u8], right: Result<(), Stored>, facts: &[u8], buf: &mut [u8]) -> bool {
    if let Err(reason) = first_steps(s) {
        return right == Err(Stored::from(reason));
    }
    let mut facts = Facts::new(facts);
    let v = further_steps(s, right.is_ok(), &mut facts, buf);
    v.map_err(Stored::from) == right && facts.are_read()
}

// Whether the template of a refused sheet is refused as the sheet is. (That of an accepted one is built.)
fn no_template(s: &[u8], right: Result<(), Stored>) -> bool {
    match right {
        Ok(()) => true,
        Err(reason) => is_refused(s, &mut [FILLING; 16], reason),
    }
}

// Whether the verdict is the one that the record has, and so are the steps, one by one, and what a sheet holds that passed them.
fn is_expected(s: &[u8], right: Result<(), Stored>, facts: &[u8], buf: &mut [u8]) -> bool {
    definition::check(s).map_err(Stored::from) == right
        && no_template(s, right)
        && are_steps(s, right, facts, buf)
}

// One record: its head, the packed sheet, the facts.
fn replay_one(head: &[u8], packed: &[u8], facts: &[u8], buf: &mut [u8]) -> bool {
    let mut sheet = [0u8; 65536];
    let len = two(head, 2);
    let whole = packed::unpack(packed, 0, &mut sheet) <= len;
    whole
        && is_expected(
            part(&sheet, 0, len),
            answer_in(part(head, 4, 7)),
            facts,
            buf,
        )
}

// Record after record up to the end of the file.
fn replay_all(file: &[u8], buf: &mut [u8]) -> Tally {
    let mut tally = Tally::NONE;
    let mut left = file;
    while !left.is_empty() {
        let facts = 9 + two(left, 0);
        let next = facts + two(left, 7);
        let right = replay_one(
            part(left, 0, 9),
            part(left, 9, facts),
            part(left, facts, next),
            buf,
        );
        tally = tally.with(right);
        left = part(left, next, left.len());
    }
    tally
}

fn main(rt: HostRuntime) -> Result<ExitCode, AllocError> {
    // room for the file, and to spare
    let mut file = vec![in rt.alloc(); 0; 2097152]?;
    let Ok(n) = streams::read_file(&rt, b"sheets", &mut file) else {
        return Ok(ExitCode::FAILURE);
    };
    // room for the longest header, and 16 bytes more
    let mut buf = vec![in rt.alloc(); FILLING; 4194319]?;
    let tally = replay_all(part(&file, 0, n), &mut buf);
    let mut out = [0u8; 128];
    let to = tally.put(&mut out, Some(0), b"");
    let written = rt.write_all(part(&out, 0, text::filled(&out, to)));
    Ok(packed::status(&rt, "test_stored", written))
}
