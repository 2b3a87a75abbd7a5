// Every run of 1 to 64 bits from bits 0 to 15 of buffers of several lengths: written with several numbers over several fillings, read back, and held bit by
// bit to what the buffer, and what lies behind it, should then be. The loop over bits is the whole of what is known here of bit order. Prints how many were
// right.
#![tactic(auto)]

ghost use Rattle.std.specs.Prelude.{◌≤◌};

use bits::{BitPos, RunFault};
use number::{Bits, Bytes};
use std::io;

// The bits from bit s on, so many as w.
#[derive(Clone, Copy)]
struct Run {
    s: u64,
    w: u64,
}

impl Run {
    fn in_bits(self) -> bits::Run {
        bits::Run {
            start: BitPos::new(Bits(self.s)),
            width: Bits(self.w),
        }
    }
}

// What is lent of the 16 bytes of a buffer, which are filled with one byte but for two: the first n; and the run has to lie in the first h of them.
#[derive(Clone, Copy)]
struct Lent {
    n: usize,
    h: u64,
    fill: u8,
}

// Bit k of a buffer, counted from the most significant bit of byte 0.
fn bit_of(b: &[u8], k: u64) -> u64 {
    match b.get((k / 8) as usize) {
        Some(byte) => ((*byte >> (7 - k % 8)) % 2) as u64,
        None => 0,
    }
}

// What bit k should be after v is written to the run, which ends below 2^64. (Without a branch for each end of the run, since all bits of all runs come here.)
fn wanted(before: &[u8], run: Run, v: u64, k: u64) -> u64 {
    let kept = bit_of(before, k);
    let at = k.wrapping_sub(run.s);
    if at < run.w {
        let below = run.w - 1 - at;
        if below < 64 { (v >> below) % 2 } else { 0 }
    } else {
        kept
    }
}

// Whether `after` is `before` with v in the run: each of 128 bits. (All are looked at, so that no branch is made for each.)
fn is_written(before: &[u8], after: &[u8], run: Run, v: u64) -> bool {
    let mut ok = true;
    for k in 0..128 {
        ok &= bit_of(after, k) == wanted(before, run, v, k);
    }
    ok
}

// What a read answers of a run in the first h bytes.
fn read(b: &[u8], h: u64, run: Run) -> Result<u64, RunFault> {
    run.in_bits().read_number(b, Bytes(h))
}

impl Lent {
    // The first n, all of which the run may lie in.
    fn all_of(n: usize, fill: u8) -> Lent {
        Lent {
            n,
            h: n as u64,
            fill,
        }
    }

    fn filled(self) -> [u8; 16] {
        let mut b = [self.fill; 16];
        b[2] = 0x3c;
        b[9] = 0xa6;
        b
    }

    // What a write to the run answers where it fits in the bytes, if these are all lent.
    fn fit(self, run: Run) -> Result<(), RunFault> {
        if 64 - run.s % 8 < run.w {
            return Err(RunFault::TooWide);
        }
        if self.h < run.s / 8 + (run.s % 8 + run.w + 7) / 8 {
            return Err(RunFault::Outside);
        }
        Ok(())
    }

    // What a write of v to the run does answer.
    fn write(self, b: &mut [u8], run: Run, v: u64) -> Result<(), RunFault> {
        let n = self.n.min(b.len());
        run.in_bits().write_number(&mut b[..n], Bytes(self.h), v)
    }

    // One write: it answers as it should; done, it makes the buffer what it should be and reads back; else nothing changes. 1 where all is right.
    fn once(self, run: Run, v: u64, answer: Result<(), RunFault>) -> u64
        ensures { result ≤ 1 }
    {
        let before = self.filled();
        let mut after = before;
        let told = self.write(&mut after, run, v);
        let left = if answer.is_ok() {
            let part = octets::part(&after, 0, self.n);
            is_written(&before, &after, run, v) & (read(part, self.h, run) == Ok(v))
        } else {
            after == before
        };
        ((told == answer) & left) as u64
    }

    // A number one too large for the width, where there is one.
    fn over(self, run: Run) -> u64
        ensures { result ≤ 1 }
    {
        if 64 <= run.w {
            return 0;
        }
        self.once(run, 1 << run.w, self.fit(run).and(Err(RunFault::TooLarge)))
    }

    // Each width is tried with no bits set, with all, with a mixed pattern, and with a number too large.
    fn widths(self, s: u64) -> u64
        ensures { result ≤ 256 }
    {
        let mut right: u64 = 0;
        for w in 1..65 {
            let run = Run { s, w };
            let answer = self.fit(run);
            right += self.once(run, 0, answer)
                + self.once(run, u64::MAX >> (64 - w), answer)
                + self.once(run, MIXED >> (64 - w), answer)
                + self.over(run);
        }
        right
    }

    fn starts(self) -> u64
        ensures { result ≤ 4096 }
    {
        let mut right: u64 = 0;
        for s in 0..16 {
            right += self.widths(s);
        }
        right
    }
}

const MIXED: u64 = 0xa5c3_0ff0_9669_3cb4;

// Buffers of under 8 bytes, of 8, and longer ones; and of a longer one the first 5 bytes alone.
fn lengths(fill: u8) -> u64
    ensures { result ≤ 32768 }
{
    Lent::all_of(1, fill).starts()
        + Lent::all_of(3, fill).starts()
        + Lent::all_of(6, fill).starts()
        + Lent::all_of(7, fill).starts()
        + Lent::all_of(8, fill).starts()
        + Lent::all_of(9, fill).starts()
        + Lent::all_of(16, fill).starts()
        + Lent { n: 12, h: 5, fill }.starts()
}

// The figure of one octet in RFC 791, Appendix B, 170; the first octet of its header, version 4 and length 5; runs that do not fit.
fn reads() -> u64
    ensures { result ≤ 1 }
{
    let b = [170u8, 0x45];
    let ok = (read(&b, 2, Run { s: 0, w: 8 }) == Ok(170))
        & (read(&b, 2, Run { s: 0, w: 1 }) == Ok(1))
        & (read(&b, 2, Run { s: 7, w: 1 }) == Ok(0))
        & (read(&b, 2, Run { s: 8, w: 4 }) == Ok(4))
        & (read(&b, 2, Run { s: 12, w: 4 }) == Ok(5))
        & (read(&b, 2, Run { s: 1, w: 64 }) == Err(RunFault::TooWide))
        & (read(&b, 2, Run { s: 16, w: 1 }) == Err(RunFault::Outside))
        & (read(&b, 1, Run { s: 8, w: 4 }) == Err(RunFault::Outside))
        & (read(&b, 3, Run { s: 8, w: 4 }) == Err(RunFault::Short));
    ok as u64
}

// The last bits of a buffer and the first past them, of all bytes and of fewer; and a buffer that is too short.
fn ends() -> u64
    ensures { result ≤ 7 }
{
    let all = Lent::all_of(16, 2);
    let four = Lent {
        n: 16,
        h: 4,
        fill: 2,
    };
    let lacking = Lent {
        n: 15,
        h: 16,
        fill: 2,
    };
    let none = Lent {
        n: 0,
        h: u64::MAX,
        fill: 2,
    };
    let last = Run { s: u64::MAX, w: 1 };
    all.once(Run { s: 120, w: 8 }, 7, Ok(()))
        + all.once(Run { s: 121, w: 8 }, 7, Err(RunFault::Outside))
        + all.once(last, 1, Err(RunFault::Outside))
        + four.once(Run { s: 24, w: 8 }, 7, Ok(()))
        + four.once(Run { s: 25, w: 8 }, 7, Err(RunFault::Outside))
        + lacking.once(Run { s: 0, w: 8 }, 7, Err(RunFault::Short))
        + none.once(last, 1, Err(RunFault::Short))
}

fn main(rt: HostRuntime) -> io::Result<()> {
    let right = reads() + ends() + lengths(0x00) + lengths(0xff) + lengths(0x5a);
    println!(rt; "{right} right")
}
