// Reading into a buffer as far as it goes: `planrun` reads its files by it, `edges` its standard input. Nothing is refused: where a read fails, what was
// read before it is what there is.
#![tactic(auto)]

ghost use Rattle.std.specs.Prelude.{◌≤◌, length, take};
ghost use Rattle.std.specs.Io.KnownBytes.{Consumes};

use std::io::Read;

// Reads until buf is full, the input ends or a read fails: each turn but the last reads a byte at least. How many bytes were read; they stand at the
// front of buf, in their order.
pub fn read_full<R: Read>(input: &mut R, buf: &mut [u8]) -> usize
    ensures within { result ≤ length buf.new }
    ensures bytes { Consumes (R.remaining input.old) (R.remaining input.new) (take result buf.new) }
{
    let mut filled = 0;
    // a turn for each byte at most, whatever the reads give
    for _ in 0..buf.len() {
        match input.read(&mut buf[filled..]) {
            Ok(0) | Err(_) => break,
            Ok(count) => filled += count,
        }
    }
    filled
}

#[cfg(test)]
mod tests {
    use super::*;
    use std::io;
    use std::io::{Error, ErrorKind};

    // Gives a byte at a time, and an error after the last.
    #[derive(Drop)]
    struct Broken<'a> {
        left: &'a [u8],
    }

    impl<'a> Read for Broken<'a> {
        fn read(&mut self, buf: &mut [u8]) -> io::Result<usize> {
            let Some((byte, left)) = self.left.split_first() else {
                return Err(Error::from(ErrorKind::Other));
            };
            let Some(room) = buf.first_mut() else {
                return Ok(0);
            };
            *room = *byte;
            self.left = left;
            Ok(1)
        }
    }

    #[test]
    fn ends_with_the_input(rt: HostRuntime) {
        let mut buf = [9u8; 5];
        let mut input = [1u8, 2, 3].as_slice();
        assert_eq!(rt; read_full(&mut input, &mut buf), 3);
        assert!(rt; buf == [1, 2, 3, 9, 9]);
    }

    #[test]
    fn ends_with_the_buffer(rt: HostRuntime) {
        let mut buf = [9u8; 2];
        let mut input = [1u8, 2, 3].as_slice();
        assert_eq!(rt; read_full(&mut input, &mut buf), 2);
        assert!(rt; buf == [1, 2]);
        assert_eq!(rt; read_full(&mut input, &mut buf), 1);
        assert!(rt; buf == [3, 2]);
    }

    #[test]
    fn reads_on_until_one_fails(rt: HostRuntime) {
        let mut buf = [9u8; 5];
        let bytes = [1u8, 2, 3];
        let mut input = Broken {
            left: bytes.as_slice(),
        };
        assert_eq!(rt; read_full(&mut input, &mut buf), 3);
        assert!(rt; buf == [1, 2, 3, 9, 9]);
    }
}
