// Inputs read into buffers of a fixed length.
#![tactic(auto)]

ghost use Rattle.std.specs.Prelude.{◌≡◌, ◌<◌, ◌≤◌, length, take, IfOk, OnOk};
ghost use Rattle.std.specs.Io.{ReadsAtMost};
ghost use Rattle.std.specs.Io.KnownBytes.{Consumes, IsAtEnd};

use std::io;
use std::io::Read;

// Reads until the buffer is full, the input ends or a read fails: how many bytes it put at the start of the buffer, and the failure.
fn fill<R: Read>(input: &mut R, buf: &mut [u8]) -> (usize, io::Result<()>)
    ensures within { result.0 ≤ length buf.new }
    ensures bytes { Consumes (R.remaining input.old) (R.remaining input.new) (take result.0 buf.new) }
    ensures end { OnOk result.1 (result.0 < length buf.new → IsAtEnd (R.remaining input.new)) }
{
    let mut n = 0;
    while n < buf.len() {
        match input.read(&mut buf[n..]) {
            Ok(0) => return (n, Ok(())),
            Ok(more) => n += more,
            Err(e) => return (n, Err(e)),
        }
    }
    (n, Ok(()))
}

// How many bytes were read; a read that fails ends the input.
pub fn read_full<R: Read>(input: &mut R, buf: &mut [u8]) -> usize
    ensures within { result ≤ length buf.new }
    ensures len { result ≡ length (take result buf.new) }
    ensures bytes { Consumes (R.remaining input.old) (R.remaining input.new) (take result buf.new) }
{
    let (n, _) = fill(input, buf);
    n
}

// How many bytes were read, fewer than the buffer has only where the input ended, or the error of the read that failed.
pub fn read_all<R: Read>(input: &mut R, buf: &mut [u8]) -> io::Result<usize>
    ensures within { ReadsAtMost result buf.new }
    ensures bytes { IfOk result (λ n. Consumes (R.remaining input.old) (R.remaining input.new) (take n buf.new)) }
    ensures end { IfOk result (λ n. n < length buf.new → IsAtEnd (R.remaining input.new)) }
{
    let (n, result) = fill(input, buf);
    result?;
    Ok(n)
}

#[cfg(test)]
mod tests {
    use super::*;
    use std::test::Fail;

    #[test]
    fn stops_at_the_buffer_and_at_the_end(rt: HostRuntime) -> Result<(), Fail> {
        let mut input: &[u8] = b"citp";
        let mut buf = [0u8; 3];
        assert_eq!(rt; read_all(&mut input, &mut buf)?, 3);
        assert_eq!(rt; buf.as_slice(), b"cit".as_slice());
        assert_eq!(rt; read_all(&mut input, &mut buf)?, 1);
        assert_eq!(rt; buf.as_slice(), b"pit".as_slice());
        assert_eq!(rt; read_all(&mut input, &mut buf)?, 0);
        Ok(())
    }

    #[test]
    fn reads_to_the_end_in_one(rt: HostRuntime) {
        let mut input: &[u8] = b"citp";
        let mut buf = [0u8; 6];
        assert_eq!(rt; read_full(&mut input, &mut buf), 4);
        assert_eq!(rt; buf.as_slice(), b"citp\0\0".as_slice());
    }
}
