// Bytes and numbers, as far as a writer takes them.
ghost use Rattle.std.specs.Prelude.{OnOk, OnErr, ◌++◌};
ghost use Rattle.std.specs.Fmt.{decimal};
ghost use Rattle.std.specs.Io.KnownBytes.{Appends};
ghost use Rattle.console.specs.Output.{AppendsPart};

use itoa::Buffer;
use std::io;
use std::io::{ErrorKind, Write};

// Writes all bytes, by as many writes as it takes. A writer that takes none of those left is an error of the kind `WriteZero`.
pub fn write_bytes<W: Write>(out: &mut W, bytes: &[u8]) -> io::Result<()>
    ensures ok { OnOk result (Appends (W.contents out.old) (W.contents out.new) bytes.now) }
    ensures err { OnErr result (AppendsPart (W.contents out.old) (W.contents out.new) bytes.now) }
{
    let mut done: usize = 0;
    // Stays a loop over `write`: std promises nothing of the writer where `write_all` fails, and `err` does.
    while done < bytes.len() {
        let more = out.write(&bytes[done..])?;
        if more == 0 {
            return Err(io::Error::from(ErrorKind::WriteZero));
        }
        done += more;
    }
    Ok(())
}

// A number's digits.
pub(crate) fn print_digits<W: Write>(out: &mut W, number: u64) -> io::Result<()>
    ensures ok { OnOk result (Appends (W.contents out.old) (W.contents out.new) (decimal number)) }
    ensures err { OnErr result (AppendsPart (W.contents out.old) (W.contents out.new) (decimal number)) }
{
    let mut buffer = Buffer::new();
    write_bytes(out, buffer.format(number).as_bytes())
}

// A number, and what stands behind it.
#[tactic(auto, using(crate::proofs::Parts::parts))]
pub fn print_number<W: Write>(out: &mut W, number: u64, behind: &[u8]) -> io::Result<()>
    ensures ok { OnOk result (Appends (W.contents out.old) (W.contents out.new) (decimal number ++ behind.now)) }
    ensures err { OnErr result (AppendsPart (W.contents out.old) (W.contents out.new) (decimal number ++ behind.now)) }
{
    print_digits(out, number)?;
    write_bytes(out, behind)
}

// Two numbers, and what stands before, between and behind them.
#[tactic(auto, using(crate::proofs::Parts::parts))]
pub fn print_pair<W: Write>(
    out: &mut W,
    before: &[u8],
    one: u64,
    between: &[u8],
    two: u64,
    behind: &[u8],
) -> io::Result<()>
    ensures ok { OnOk result (Appends (W.contents out.old) (W.contents out.new)
        (before.now ++ decimal one ++ between.now ++ decimal two ++ behind.now)) }
    ensures err { OnErr result (AppendsPart (W.contents out.old) (W.contents out.new)
        (before.now ++ decimal one ++ between.now ++ decimal two ++ behind.now)) }
{
    write_bytes(out, before)?;
    print_number(out, one, between)?;
    print_number(out, two, behind)
}
