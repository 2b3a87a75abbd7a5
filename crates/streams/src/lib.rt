// Reading an input, a buffer at a time or to its end. A read that fails is no end of the input. A call that a signal interrupts before it moves a byte counts as one that failed.
#![tactic(auto)]

ghost use Rattle.std.specs.Prelude.{◌≡◌, length, OnOk};
ghost use Rattle.std.specs.Io.KnownBytes.{IsAtEnd};
ghost use Rattle.streams.specs.Streams.{heard_of, InFront, IsTaken, IsReadOut};

use std::fs::File;
use std::io::{ErrorKind, Read};
use std::rt::Files;
use std::{io, str};

// What one call of `read` came to, by its answer: so many bytes, or none where the input has ended; or the error.
fn hear(got: io::Result<usize>) -> io::Result<Option<usize>>
    ensures { result ≡ heard_of got }
{
    match got {
        Ok(0) => Ok(None),
        Ok(n) => Ok(Some(n)),
        Err(e) => Err(e),
    }
}

// Reads what is left of the input and drops it: whether it came to the end. (No input takes 2^64 reads.)
fn drop_rest<R: Read>(input: &mut R) -> io::Result<()>
    ensures { OnOk result (IsAtEnd (R.remaining input.new)) }
{
    let mut rest = [0; 65536];
    for _ in 0..u64::MAX {
        if hear(input.read(&mut rest))?.is_none() {
            return Ok(());
        }
    }
    Err(io::Error::from(ErrorKind::FileTooLarge))
}

// Reads until the buffer is full or the input ends, and says how many bytes stand at its front: that the input has ended is told by a buffer that is not full.
pub fn fill<R: Read>(input: &mut R, buf: &mut [u8]) -> io::Result<usize>
    ensures in_front { InFront result buf.new }
    ensures buf_len_unchanged { length buf.new ≡ length buf.old }
    ensures taken { IsTaken (R.remaining input.old) (R.remaining input.new) result buf.new }
{
    let mut n = 0;
    // (No index counts here: a read brings as many bytes as it brings.)
    while n < buf.len() {
        let Some(came) = hear(input.read(&mut buf[n..]))? else {
            return Ok(n);
        };
        n += came;
    }
    Ok(n)
}

// Reads to the end of the input. What does not fit into the buffer is read too, and dropped, so that whoever writes it comes to an end.
pub fn read_to_end<R: Read>(input: &mut R, buf: &mut [u8]) -> io::Result<usize>
    ensures in_front { InFront result buf.new }
    ensures read_out { IsReadOut (R.remaining input.old) (R.remaining input.new) result buf.new }
{
    let n = fill(input, buf)?;
    if n == buf.len() {
        drop_rest(input)?;
    }
    Ok(n)
}

// The file of a name, for reading. A name that is no text is the name of no file, and is answered so: a `&str` would ask more of who calls.
fn open<R: Files>(rt: &R, path: &[u8]) -> io::Result<R::File> {
    let path = str::from_utf8(path).map_err(|_| io::Error::from(ErrorKind::InvalidInput))?;
    File::open(rt, path)
}

// The file of a name, opened, read to its end and closed.
fn read_named<R: Files>(rt: &R, path: &[u8], buf: &mut [u8]) -> io::Result<usize>
    ensures { InFront result buf.new }
{
    let mut file = open(rt, path)?;
    read_to_end(&mut file, buf)
}

// The same. Where that fails, a line on standard error says so.
pub fn read_file<R: Files + Eprint>(rt: &R, path: &[u8], buf: &mut [u8]) -> io::Result<usize>
    ensures { InFront result buf.new }
{
    let read = read_named(rt, path, buf);
    if let Err(e) = &read {
        let _ = eprintln!(rt; "{}: {e}", path.escape_ascii());
    }
    read
}

#[cfg(test)]
mod tests {
    use super::*;

    // An input of so many bytes, which come one by one. Behind them it fails or ends.
    #[derive(Drop)]
    struct Fake {
        left: usize,
        fails: bool,
    }

    impl Read for Fake {
        fn read(&mut self, buf: &mut [u8]) -> io::Result<usize> {
            if self.left == 0 && self.fails {
                return Err(io::Error::from(ErrorKind::ConnectionReset));
            }
            if self.left == 0 || buf.is_empty() {
                return Ok(0);
            }
            self.left -= 1;
            buf[0] = 7;
            Ok(1)
        }
    }

    // Of a buffer of four bytes.
    #[test]
    fn fills(rt: HostRuntime) {
        for (left, fails, want) in [
            (0, false, Some(0)),
            (3, false, Some(3)),
            (3, true, None),
            (4, true, Some(4)),
            (9, true, Some(4)),
        ] {
            let mut buf = [0u8; 4];
            let read = fill(&mut Fake { left, fails }, &mut buf);
            assert_eq!(rt; read.ok(), want, "of {left}, {fails}");
        }
    }

    #[test]
    fn reads_to_the_end(rt: HostRuntime) {
        for (left, fails, want) in [
            (0, false, Some(0)),
            (3, false, Some(3)),
            (4, false, Some(4)),
            (9, false, Some(4)),
            (0, true, None),
            (3, true, None),
            (4, true, None),
            (9, true, None),
        ] {
            let mut buf = [0u8; 4];
            let read = read_to_end(&mut Fake { left, fails }, &mut buf);
            assert_eq!(rt; read.ok(), want, "of {left}, {fails}");
        }
    }

    #[test]
    fn no_file_fails(rt: HostRuntime) {
        let mut buf = [0u8; 4];
        assert_eq!(rt; read_file(&rt, b"no/such/file", &mut buf).ok(), None);
        assert_eq!(rt; read_file(&rt, &[255], &mut buf).ok(), None);
    }
}
