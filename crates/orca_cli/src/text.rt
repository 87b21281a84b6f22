// Texts are made whole, and then put line by line.
ghost use Rattle.std.specs.Prelude.{◌≡◌, ◌≤◌, ◌<◌, length, OnOk, OnErr};
ghost use Rattle.std.specs.Io.KnownBytes.{Appends};
ghost use Rattle.orca_base.specs.Causes.{Rose};
ghost use Rattle.orca_io.specs.Sink.{TakesPrefix};
ghost use Rattle.orca_cli.specs.Views.{bytes_of_texts};

use memchr::memchr;
use orca_io::{Sink, SinkError};

/// Puts the lines of the texts, one text behind the other.
pub fn put_texts<K: Sink>(out: &mut K, texts: &[Vec<u8>]) -> Result<(), SinkError>
    ensures ok { OnOk result
        (Appends (K.taken out.old) (K.taken out.new) (bytes_of_texts texts.now)) }

    ensures failed { OnErr result (Rose (K.faults out.old) (K.faults out.new)) }
    ensures err { OnErr result
        (TakesPrefix (K.taken out.old) (K.taken out.new) (bytes_of_texts texts.now)) }
{
    for text in texts {
        put_lines(out, text)?;
    }
    Ok(())
}

// Puts each line of the text, one put a line.
fn put_lines<K: Sink>(out: &mut K, text: &[u8]) -> Result<(), SinkError>
    ensures ok { OnOk result
        (Appends (K.taken out.old) (K.taken out.new) text.now) }

    ensures failed { OnErr result (Rose (K.faults out.old) (K.faults out.new)) }
    ensures err { OnErr result
        (TakesPrefix (K.taken out.old) (K.taken out.new) text.now) }

    ensures later { K.faults out.old ≤ K.faults out.new }
{
    let mut rest = text;
    while !rest.is_empty() {
        let (line, behind) = rest.split_at(line_length(rest));
        match out.put(line) {
            Ok(()) => {}
            Err(refused) => return Err(refused),
        }
        rest = behind;
    }
    Ok(())
}

// How many bytes the first line has, with its newline; all, where there is none.
fn line_length(text: &[u8]) -> usize
    requires { 0 < length text.now }
    ensures some { 0 < result }
    ensures within { result ≤ length text.now }
{
    match memchr(b'\n', text) {
        Some(at) => at + 1,
        None => text.len(),
    }
}
