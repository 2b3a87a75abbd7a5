// Runs of bits of a buffer, in the order of RFC 791, Appendix B: bit 0 is the most significant bit of byte 0.
// A run has to lie in the first so many bytes of its buffer (`within`): those of a header, or all.
// A number is read and written through 8 bytes that hold its run, by shifts; a run of whole bytes is copied.
#![tactic(auto)]

ghost use Rattle.std.specs.Prelude.{◌≡◌, ◌+◌, ◌-◌, ◌*◌, ◌/◌, ◌%◌, ◌^◌, ◌≤◌, ◌<◌, min, length, IfOk};
ghost use Rattle.bits.specs.Bits.{value, spelled, touched as touched_by};
ghost use Rattle.bits.specs.Positions.{global_of, end_pos, end_pos_says};
ghost use Rattle.bits.specs.Writes.{put};
ghost use Rattle.bits.specs.Runs.{fit_of, read_number, read_at_once, NumberWritten, NumberAtOnce, bytes_answer, bytes_at, BytesWritten};
ghost use Rattle.bits.specs.Working.{FitsIn, pasted};

use answer::{PositionFault, Refusal};
use number::{Bits, Bytes};

// The position of a bit: its number, counted from the header's first bit on.
#[derive(Clone, Copy, Debug, PartialEq, Eq)]
pub struct BitPos {
    pub global: Bits,
}

// Why a run cannot be read or written: as a number it touches more than 8 bytes; it ends past the bytes that it has to lie in; the buffer is too short for
// those; the number has more bits than the run.
#[derive(Clone, Copy, Debug, PartialEq, Eq)]
pub enum RunFault {
    TooWide,
    Outside,
    Short,
    TooLarge,
}

impl BitPos {
    pub fn new(global: Bits) -> BitPos
        ensures { global_of result ≡ global.0 }
    {
        BitPos { global }
    }

    pub fn to_global_pos(self) -> Bits
        ensures { result.0 ≡ global_of self }
    {
        self.global
    }

    // The byte that the bit is in.
    pub fn byte_pos(self) -> Bytes
        ensures { result.0 ≡ global_of self / 8 }
    {
        self.global.whole_bytes()
    }

    // Which bit of that byte it is: 0 is the most significant.
    pub fn bit_pos(self) -> u8
        ensures { result ≡ global_of self % 8 }
    {
        (self.global.0 % 8) as u8
    }

    // How many bytes a run that starts here touches.
    pub fn touched(self, width: Bits) -> Bytes
        ensures { result.0 ≡ touched_by (global_of self) width.0 }
    {
        let s = self.global.0;
        let w = width.0;
        Bytes(w / 8 + (s % 8 + w % 8 + 7) / 8)
    }

    // The position of the last bit of a run that starts here, or position 1.
    #[tactic(auto, unfolding(crate::specs::Positions::end_pos))]
    pub fn end_pos(self, width: Bits) -> Result<BitPos, Refusal>
        ensures { end_pos_says result ≡ end_pos (global_of self) width.0 }
    {
        match self.global.0.checked_add(width.0) {
            Some(end) if 0 < width.0 => Ok(BitPos::new(Bits(end - 1))),
            _ => Err(Refusal::Position(PositionFault::RunHasNoEnd)),
        }
    }
}

// ---- a number in the 8 bytes that hold its run

// The w bits of x that follow its first `skipped` ones.
fn cut(x: u64, skipped: u64, w: u64) -> u64
    requires { skipped + w ≤ 64 }
    ensures { result ≡ x / 2 ^ (64 - (skipped + w)) % 2 ^ w }
{
    if w == 0 {
        return 0;
    }
    (x << skipped) >> (64 - w)
}

// x with v in the w bits that follow its first `skipped` ones.
fn paste(x: u64, skipped: u64, w: u64, v: u64) -> u64
    requires w_bound { skipped + w ≤ 64 }
    requires v_bound { v < 2 ^ w }
    ensures { result ≡ pasted x w (64 - (skipped + w)) v }
{
    if w == 0 {
        return x;
    }
    let used = skipped + w;
    let low = 64 - used;
    x - (cut(x, skipped, w) << low) + (v << low)
}

// Stores the first `count` of the 8 bytes of x, the highest first: where they are all 8, compiled, one store.
fn store(buf: &mut [u8], from: usize, count: usize, x: u64)
    requires { (from + count ≤ length buf.old) × (count ≤ 8) }
    ensures { buf.new ≡ put buf.old (8 * from) (8 * count) (x / 2 ^ (64 - 8 * count)) }
{
    buf[from..from + count].copy_from_slice(&x.to_be_bytes()[..count]);
}

// ---- runs

// A run: its first bit, and how many bits it has.
#[derive(Clone, Copy, Debug, PartialEq, Eq)]
pub struct Run {
    pub start: BitPos,
    pub width: Bits,
}

impl Run {
    // How many bytes it touches.
    pub fn touched(self) -> Bytes
        ensures { result.0 ≡ touched_by (global_of self.start) self.width.0 }
    {
        self.start.touched(self.width)
    }

    // Whether it can be read and written as a number.
    #[tactic(auto, unfolding(crate::specs::Runs::fit_of))]
    fn fit(self, len: usize, within: Bytes) -> Result<(), RunFault>
        ensures answer { result ≡ fit_of len within.0 (global_of self.start) self.width.0 }
        ensures fits { IfOk result (λ _. FitsIn len self) }
    {
        let touched = self.touched().0;
        if 8 < touched {
            return Err(RunFault::TooWide);
        }
        if within.0 < self.start.byte_pos().0 + touched {
            return Err(RunFault::Outside);
        }
        if (len as u64) < within.0 {
            return Err(RunFault::Short);
        }
        Ok(())
    }

    // Where the 8 bytes that hold it begin: with its first byte, or as much before it as the buffer ends too soon.
    fn window_at(self, len: usize) -> usize
        requires { 8 ≤ len }
        ensures { result ≡ min (global_of self.start / 8) (len - 8) }
    {
        (len - 8).min(self.start.byte_pos().0 as usize)
    }

    // The number that it spells, where it fits: one load.
    fn read_window(self, buf: &[u8]) -> u64
        requires in_bounds { 8 ≤ length buf.now }
        requires fits { FitsIn (length buf.now) self }
        ensures { result ≡ value buf.now (global_of self.start) self.width.0 }
    {
        let f = self.window_at(buf.len());
        let x = octets::be64(&buf[f..f + 8], 0);
        cut(x, self.start.global.0 - 8 * f as u64, self.width.0)
    }

    // The same, of a short buffer too: its bytes, and zeros after them. (Not one function with `read_window`: the call that copies a short buffer's bytes would be
    // compiled into every read at once.)
    fn read(self, buf: &[u8]) -> u64
        requires { FitsIn (length buf.now) self }
        ensures { result ≡ value buf.now (global_of self.start) self.width.0 }
    {
        if buf.len() < 8 {
            return cut(octets::be64(buf, 0), self.start.global.0, self.width.0);
        }
        self.read_window(buf)
    }

    // Writes a number, which has no more bits, where the run fits: the 8 bytes that hold it are stored again.
    fn write_window(self, buf: &mut [u8], v: u64)
        requires in_bounds { 8 ≤ length buf.old }
        requires fits { FitsIn (length buf.old) self }
        requires v_bound { v < 2 ^ self.width.0 }
        ensures { buf.new ≡ put buf.old (global_of self.start) self.width.0 v }
    {
        let f = self.window_at(buf.len());
        let x = octets::be64(&buf[f..f + 8], 0);
        let skipped = self.start.global.0 - 8 * f as u64;
        store(buf, f, 8, paste(x, skipped, self.width.0, v));
    }

    // The same, of a short buffer too: all of it is stored again.
    fn write(self, buf: &mut [u8], v: u64)
        requires fits { FitsIn (length buf.old) self }
        requires v_bound { v < 2 ^ self.width.0 }
        ensures { buf.new ≡ put buf.old (global_of self.start) self.width.0 v }
    {
        if buf.len() < 8 {
            let x = paste(octets::be64(buf, 0), self.start.global.0, self.width.0, v);
            store(buf, 0, buf.len(), x);
        } else {
            self.write_window(buf, v);
        }
    }

    // The number that its bits spell.
    #[tactic(auto, unfolding(crate::specs::Runs::read_number))]
    pub fn read_number(self, buf: &[u8], within: Bytes) -> Result<u64, RunFault>
        ensures { result ≡ read_number buf.now within.0 (global_of self.start) self.width.0 }
    {
        self.fit(buf.len(), within)?;
        Ok(self.read(buf))
    }

    // Reads a number by one load, where `read_number` would and the buffer has 8 bytes. Most reads are such, and this is small enough to be compiled into where they
    // are made.
    #[tactic(auto, unfolding(crate::specs::Runs::read_number))]
    pub fn read_at_once(self, buf: &[u8], within: Bytes) -> Option<u64>
        ensures { result ≡ read_at_once buf.now within.0 (global_of self.start) self.width.0 }
    {
        if buf.len() < 8 {
            return None;
        }
        self.fit(buf.len(), within).ok()?;
        Some(self.read_window(buf))
    }

    // Writes a number into its bits, and into no other bit.
    #[tactic(auto, unfolding(crate::specs::Runs::write_answer))]
    pub fn write_number(self, buf: &mut [u8], within: Bytes, v: u64) -> Result<(), RunFault>
        ensures { NumberWritten buf.old buf.new within.0 (global_of self.start) self.width.0 v result }
    {
        self.fit(buf.len(), within)?;
        if !self.width.holds(v) {
            return Err(RunFault::TooLarge);
        }
        self.write(buf, v);
        Ok(())
    }

    // Writes a number by one load and one store, where `write_number` would and the buffer has 8 bytes; says whether it did. Most writes are such, and this is small
    // enough to be compiled into where they are made.
    #[tactic(auto, unfolding(crate::specs::Runs::write_answer))]
    pub fn write_at_once(self, buf: &mut [u8], within: Bytes, v: u64) -> bool
        ensures { NumberAtOnce buf.old buf.new within.0 (global_of self.start) self.width.0 v result }
    {
        if buf.len() < 8 {
            return false;
        }
        let Ok(()) = self.fit(buf.len(), within) else {
            return false;
        };
        let done = self.width.holds(v);
        if done {
            self.write_window(buf, v);
        }
        done
    }
}

// ---- whole bytes

// Whether a run of so many bytes lies where it has to.
#[tactic(auto, unfolding(crate::specs::Runs::bytes_answer))]
fn bytes_answer(len: usize, within: Bytes, from: Bytes, count: Bytes) -> Result<(), RunFault>
    ensures answer { result ≡ bytes_answer len within.0 from.0 count.0 }
    ensures inside { IfOk result (λ _. from.0 + count.0 ≤ len) }
{
    match from.0.checked_add(count.0) {
        Some(end) if end <= within.0 => {}
        _ => return Err(RunFault::Outside),
    }
    if (len as u64) < within.0 {
        return Err(RunFault::Short);
    }
    Ok(())
}

// A run of whole bytes, or an empty part where it does not lie where it has to.
#[tactic(auto, unfolding(crate::specs::Runs::bytes_at))]
pub fn read_bytes(buf: &[u8], within: Bytes, from: Bytes, count: Bytes) -> &[u8]
    ensures { result.now ≡ bytes_at buf.now within.0 from.0 count.0 }
{
    if bytes_answer(buf.len(), within, from, count).is_err() {
        return &buf[..0];
    }
    let a = from.0 as usize;
    &buf[a..a + count.0 as usize]
}

// Copies as many bytes as there are. (A loop, since `copy_from_slice` is compiled to a call of `memmove` here, which nothing else asks of who links the library.)
fn copy_in(to: &mut [u8], bytes: &[u8])
    requires { length to.old ≡ length bytes.now }
    ensures { to.new ≡ bytes.now }
{
    for i in 0..bytes.len() {
        to[i] = bytes[i];
    }
}

// Writes a run of whole bytes, and no other byte.
pub fn write_bytes(buf: &mut [u8], within: Bytes, from: Bytes, bytes: &[u8]) -> Result<(), RunFault>
    ensures { BytesWritten buf.old buf.new within.0 from.0 (length bytes.now) (spelled bytes.now) result }
{
    bytes_answer(buf.len(), within, from, Bytes(bytes.len() as u64))?;
    let a = from.0 as usize;
    copy_in(&mut buf[a..a + bytes.len()], bytes);
    Ok(())
}

// Clears a run of whole bytes, and no other byte.
pub fn clear_bytes(buf: &mut [u8], within: Bytes, from: Bytes, count: Bytes) -> Result<(), RunFault>
    ensures { BytesWritten buf.old buf.new within.0 from.0 count.0 0 result }
{
    bytes_answer(buf.len(), within, from, count)?;
    let a = from.0 as usize;
    buf[a..a + count.0 as usize].fill(0);
    Ok(())
}
