// Locators: where a field stands in a header, worked out once, and reading and writing there, in any number of buffers.
// Nothing relies on a locator having come from a sheet: one that no field can have is refused.
#![tactic(auto)]

ghost use Rattle.std.specs.Prelude.{◌≡◌, true, false, not, ◌&&◌, eqb, length, ◌*◌};
ghost use Rattle.answer.specs.declared.Group.{Group};
ghost use Rattle.answer.specs.Paper.{access_number, says, refuse as refused_if};
ghost use Rattle.bits.specs.Positions.{global_of};
ghost use Rattle.layout.specs.Access.{number as a_number, bytes as some_bytes};
ghost use Rattle.locator.specs.Working.{holds_no_number, holds_no_bytes, bars_number, access_fault, at_field};
ghost use Rattle.locator.specs.Locator.{held_is_bytes, is_number_of, is_bytes_of, has_shape, is_locator, held_default, held_fixed, reach_at, write_check_at, read_at, seen_at, WrittenAt, WrittenAtOnce, number_answer_says, part_of};

use answer::{AccessFault, Refusal};
use bits::{Run, RunFault};
use number::{Bits, Bytes};

// What a field holds: a number, with its default and whether it is fixed to that; or bytes.
#[derive(Clone, Copy, Debug, PartialEq, Eq)]
pub enum Held {
    Number(u64, bool),
    Bytes,
}

#[derive(Clone, Copy, Debug, PartialEq, Eq)]
pub struct Locator {
    // of the field in its sheet
    pub index: usize,
    // the header's length
    pub header: Bytes,
    pub run: Run,
    pub held: Held,
}

impl Held {
    fn is_bytes(self) -> bool
        ensures { result ≡ held_is_bytes self }
    {
        matches!(self, Held::Bytes)
    }

    // Whether it is a number with its default within so many bits, one at least.
    fn is_number_of(self, width: Bits) -> bool
        ensures { result ≡ is_number_of self width.0 }
    {
        match self {
            Held::Number(default, _) => (1 <= width.0) & width.holds(default),
            Held::Bytes => false,
        }
    }

    // Whether it is bytes, and the run is two or more whole ones.
    fn is_bytes_of(self, run: Run) -> bool
        ensures { result ≡ is_bytes_of self (global_of run.start) run.width.0 }
    {
        let Run { start, width } = run;
        match self {
            Held::Number(_, _) => false,
            Held::Bytes => (start.bit_pos() == 0) & width.is_whole_bytes() & (16 <= width.0),
        }
    }

    // Whether a run can hold it.
    fn has_shape(self, run: Run) -> bool
        ensures { result ≡ has_shape self (global_of run.start) run.width.0 }
    {
        match self {
            Held::Number(_, _) => self.is_number_of(run.width) & (run.touched().0 <= 8),
            Held::Bytes => self.is_bytes_of(run),
        }
    }

    // Whether it is fixed, to another number than this.
    fn fixed_off(self, v: u64) -> bool
        ensures { result ≡ (held_fixed self && not (eqb v (held_default self))) }
    {
        match self {
            Held::Number(default, fixed) => fixed & (v != default),
            Held::Bytes => false,
        }
    }
}

// Whether so many bytes are so many bits.
fn are_bits(count: usize, width: Bits) -> bool
    ensures { result ≡ eqb (8 * count) width.0 }
{
    width.is_whole_bytes() & (width.whole_bytes().0 == count as u64)
}

// What it is for a field that its run cannot be read or written.
fn access_fault(fault: RunFault) -> AccessFault
    ensures { result ≡ access_fault fault }
{
    match fault {
        RunFault::TooWide | RunFault::Outside => AccessFault::NoSuchField,
        RunFault::Short => AccessFault::BufferUnderHeader,
        RunFault::TooLarge => AccessFault::ValueNotTheWidth,
    }
}

impl Locator {
    // Whether a field can stand there: the header is not too long, the field ends in it, and has the shape of what it holds.
    fn is_locator(self) -> bool
        ensures { result ≡ is_locator self }
    {
        let end = self.run.start.byte_pos().0 + self.run.touched().0;
        !self.header.over_max() & (end <= self.header.0) & self.held.has_shape(self.run)
    }

    fn access(self, fault: AccessFault) -> Refusal
        ensures { result ≡ Refusal.Access fault self.index }
    {
        Refusal::Access(fault, self.index)
    }

    // What a run answered, of the field: where the run is at fault, the field is refused.
    fn at_field<T>(self, told: Result<T, RunFault>) -> Result<T, Refusal>
        ensures { result ≡ at_field self.index told }
    {
        told.map_err(|fault| self.access(access_fault(fault)))
    }

    // Refused for this reason where the test holds.
    fn refuse(self, test: bool, fault: AccessFault) -> Result<(), Refusal>
        ensures { says result ≡ refused_if test Group.Access (access_number fault) self.index }
    {
        answer::refuse(test, self.access(fault))
    }

    // Access 1 to 3, in a buffer of n bytes.
    #[tactic(auto, unfolding(crate::specs::Locator::reach_at))]
    fn reach(self, n: usize, as_bytes: bool) -> Result<(), Refusal>
        ensures { says result ≡ reach_at self n as_bytes }
    {
        self.refuse(!self.is_locator(), AccessFault::NoSuchField)?;
        self.refuse((n as u64) < self.header.0, AccessFault::BufferUnderHeader)?;
        self.refuse(
            as_bytes != self.held.is_bytes(),
            AccessFault::FieldOfOtherKind,
        )
    }

    // What no run asks: whether no number is reached there in any buffer, for the header's limit and what is held; or no bytes are.
    fn holds_no_number(self) -> bool
        ensures { result ≡ holds_no_number self }
    {
        self.header.over_max() | !self.held.is_number_of(self.run.width)
    }

    fn holds_no_bytes(self) -> bool
        ensures { result ≡ holds_no_bytes self }
    {
        self.header.over_max() | !self.held.is_bytes_of(self.run)
    }

    // Whether a number is refused there in every buffer, for these or for what it is fixed to.
    fn bars_number(self, v: u64) -> bool
        ensures { result ≡ bars_number self v }
    {
        self.holds_no_number() | self.held.fixed_off(v)
    }

    // Access 1 to 5 of a number.
    #[tactic(auto, unfolding(crate::specs::Locator::write_check_at, layout::specs::Access::suit))]
    fn judge_number(self, n: usize, v: u64) -> Result<(), Refusal>
        ensures { says result ≡ write_check_at self n (a_number v) }
    {
        self.reach(n, false)?;
        self.refuse(!self.run.width.holds(v), AccessFault::ValueNotTheWidth)?;
        self.refuse(self.held.fixed_off(v), AccessFault::FixedToItsDefault)
    }

    // Access 1 to 4 of bytes; they are never fixed.
    fn judge_bytes(self, n: usize, bytes: &[u8]) -> Result<(), Refusal>
        ensures { says result ≡ write_check_at self n (some_bytes bytes.now) }
    {
        self.reach(n, true)?;
        self.refuse(
            !are_bits(bytes.len(), self.run.width),
            AccessFault::ValueNotTheWidth,
        )
    }

    // The number that is held there, or access 1 to 3.
    pub fn read_number(self, buf: &[u8]) -> Result<u64, Refusal>
        ensures { number_answer_says result ≡ read_at self buf.now false }
    {
        if self.holds_no_number() {
            self.reach(buf.len(), false)?; // and this refuses it
        }
        self.at_field(self.run.read_number(buf, self.header))
    }

    // The number that is held there by one load, where it can be read and the buffer has 8 bytes. Most reads are such; where this one is not, `read_number` tells
    // why, or gives it.
    pub fn read_at_once(self, buf: &[u8]) -> Option<u64>
        ensures { result ≡ seen_at self buf.now }
    {
        if self.holds_no_number() {
            return None;
        }
        self.run.read_at_once(buf, self.header)
    }

    // Whether bytes can be read there, or access 1 to 3.
    pub fn can_read_bytes(self, buf: &[u8]) -> Result<(), Refusal>
        ensures { says result ≡ reach_at self (length buf.now) true }
    {
        self.reach(buf.len(), true)
    }

    // The bytes that are held there; an empty part where they cannot be read.
    pub fn read_bytes(self, buf: &[u8]) -> &[u8]
        ensures { result.now ≡ part_of (read_at self buf.now true) }
    {
        if self.holds_no_bytes() {
            return &buf[..0];
        }
        bits::read_bytes(
            buf,
            self.header,
            self.run.start.byte_pos(),
            self.run.width.whole_bytes(),
        )
    }

    // Writes a number there, and changes no other bit; or access 1 to 5, and nothing is changed.
    pub fn write_number(self, buf: &mut [u8], v: u64) -> Result<(), Refusal>
        ensures { WrittenAt self buf.old buf.new (a_number v) result }
    {
        if self.bars_number(v) {
            return self.judge_number(buf.len(), v);
        }
        self.at_field(self.run.write_number(buf, self.header, v))
    }

    // Writes a number there by one load and one store, where that is allowed and the buffer has 8 bytes; says whether it did. Most writes are such; where this one
    // is not, `write_number` tells why, or does it.
    pub fn write_at_once(self, buf: &mut [u8], v: u64) -> bool
        ensures { WrittenAtOnce self buf.old buf.new v result }
    {
        if self.bars_number(v) {
            return false;
        }
        self.run.write_at_once(buf, self.header, v)
    }

    // Writes bytes there, and changes no other bit; or access 1 to 4, and nothing is changed.
    pub fn write_bytes(self, buf: &mut [u8], bytes: &[u8]) -> Result<(), Refusal>
        ensures { WrittenAt self buf.old buf.new (some_bytes bytes.now) result }
    {
        if self.holds_no_bytes() | !are_bits(bytes.len(), self.run.width) {
            return self.judge_bytes(buf.len(), bytes);
        }
        self.at_field(bits::write_bytes(buf, self.header, self.run.start.byte_pos(), bytes))
    }
}
