//! Whole texts, written.
ghost use Rattle.std.specs.Prelude.{◌≡◌, OnOk, OnErr, IsOkUnless};
ghost use Rattle.std.specs.Io.KnownBytes.{Appends, Keeps};
ghost use Rattle.trac_streams.specs.Written.{WritesFront, Closes};

use crate::ending::Ending;
use std::io::Write;

/// Writes a whole text. An empty text makes no call of `write`.
/// Any error of the writer, an interrupted call too, and a call that takes nothing end the run as `Write`.
pub fn write_whole<W: Write>(output: &mut W, text: &[u8]) -> Result<(), Ending>
    ensures ok { OnOk result (Appends (W.contents output.old) (W.contents output.new) text.now) }
    ensures err { OnErr result (WritesFront (W.contents output.old) (W.contents output.new) text.now) }
    ensures fault { IsOkUnless result Ending.Write }
{
    let mut at = 0;
    while at < text.len() {
        match output.write(&text[at..]) {
            Ok(0) => return Err(Ending::Write),
            Ok(count) => at += count,
            Err(_) => return Err(Ending::Write),
        }
    }
    Ok(())
}

/// Flushes. Any error ends the run as `Write`.
pub fn flush<W: Write>(output: &mut W) -> Result<(), Ending>
    ensures same { Keeps (W.contents output.old) (W.contents output.new) }
    ensures fault { IsOkUnless result Ending.Write }
{
    if output.flush().is_err() {
        return Err(Ending::Write);
    }
    Ok(())
}

/// Writes what is pending, flushes and ends the run so; or as `Write` if the writer fails.
pub fn finish<W: Write>(output: &mut W, text: &[u8], ending: Ending) -> Ending
    ensures { Closes (W.contents output.old) (W.contents output.new) text.now ending result }
{
    if let Err(fault) = write_whole(output, text) {
        return fault;
    }
    if let Err(fault) = flush(output) {
        return fault;
    }
    ending
}
