// What the programs share of input and files: the start of an input, and saying which file failed.
#![tactic(auto)]

ghost use Rattle.std.specs.Prelude.{◌≡◌, ◌<◌, ◌≤◌, length, Ok, IfOk, OnErr, IsErr};
ghost use Rattle.std.specs.Io.KnownBytes.{Consumes, IsAtEnd};

use rules::MAX_RULES;
use std::io;
use std::io::{Print, Read};

// The most bytes that a rule file can have: five for each rule that there can be, and one for the end.
pub const MAX_RULE_FILE: usize = 5 * MAX_RULES + 1;

// Fills the buffer from the reader, as far as there is input. The bytes that were read.
// Of an error no clause speaks: the library does not say what a reader that failed has left.
#[tactic(auto, using(crate::proofs::Filling::consumed_read))]
pub fn read_start<'a, R: Read>(reader: &mut R, buffer: &'a mut [u8]) -> io::Result<&'a [u8]>
    ensures within { IfOk result (λ s. length s.now ≤ length buffer.old) }
    ensures read { IfOk result (λ s. Consumes (R.remaining reader.old) (R.remaining reader.new) s.now) }
    ensures whole { IfOk result (λ s. length s.now < length buffer.old → IsAtEnd (R.remaining reader.new)) }
{
    // The count is kept here: `io::copy` into lent memory says nothing of the bytes there.
    let mut filled = 0;
    while filled < buffer.len() {
        let count = reader.read(&mut buffer[filled..])?;
        if count == 0 {
            break;
        }
        filled += count;
    }
    Ok(&buffer[..filled])
}

// Gives the answer on; where it is an error, it is said first which file can not be read, or written.
// Where that can not be said either, the error of printing is given in its place.
pub fn name_failure<T: Drop, P: Print>(
    rt: &P,
    act: &str,
    path: &str,
    answer: io::Result<T>,
) -> io::Result<T>
    ensures taken { IfOk answer (λ v. result ≡ Ok v) }
    ensures failed { OnErr answer (IsErr result) }
{
    match answer {
        Ok(value) => Ok(value),
        Err(error) => {
            println!(rt; "cannot {act} {path}: {error}")?;
            Err(error)
        }
    }
}

#[cfg(test)]
mod tests {
    use crate::{name_failure, read_start};
    use std::io;
    use std::io::{ErrorKind, Read};
    use std::test::Fail;

    #[test]
    fn short_reads_are_put_together(rt: HostRuntime) -> Result<(), Fail> {
        let mut buffer = [0; 8];
        let first: &[u8] = b"pla";
        let second: &[u8] = b"nt";
        let all = read_start(&mut first.chain(second), &mut buffer)?;
        assert!(rt; all == b"plant".as_slice());
        let start = read_start(&mut first.chain(second), &mut buffer[0..4])?;
        assert!(rt; start == b"plan".as_slice());
        Ok(())
    }

    #[test]
    fn an_answer_is_given_on(rt: HostRuntime) -> Result<(), Fail> {
        let missing: io::Result<u8> = Err(io::Error::from(ErrorKind::NotFound));
        assert!(rt; name_failure(&rt, "read", "here", missing).is_err());
        assert_eq!(rt; name_failure(&rt, "read", "here", Ok(7))?, 7);
        Ok(())
    }
}
