// Reads a policy from standard input and prints its text in the one form that the writer gives it, or `refused N at P`.
#![tactic(auto)]

mod standard_error;

ghost use Rattle.std.specs.Prelude.{◌≡◌, ◌<◌, ◌≤◌, length, take, IfOk};
ghost use Rattle.std.specs.Io.KnownBytes.{Consumes, IsAtEnd};
ghost use Rattle.rewritten.specs.Printed.{printed_of};

use refusal::MAX_TEXT;
use rewritten::rewrite_text;
use standard_error::fail;
use std::io;
use std::io::Read;

// One byte more than a text may have, so that 14 is seen; and room for all that is printed.
const BUFFER: usize = MAX_TEXT + 1;

const ROOM: usize = MAX_TEXT * 2;

fn main(rt: HostRuntime) {
    let mut text = [0u8; BUFFER];
    match read_all(&mut rt.stdin(), &mut text) {
        Ok(n) => rewrite(&rt, &text[..n]),
        Err(error) => fail(&rt, "standard input", &error),
    }
}

// Standard input to its end, or until the buffer is full: of a reader whose bytes are known, these are the next. A read that fails is no
// end of input.
fn read_all<I: Read>(input: &mut I, buffer: &mut [u8]) -> io::Result<usize>
    ensures in_bounds { IfOk result (λ n. n ≤ length buffer.new) }
    ensures bytes { IfOk result (λ n. Consumes (I.remaining input.old) (I.remaining input.new) (take n buffer.new)) }
    ensures end { IfOk result (λ n. n < length buffer.new → IsAtEnd (I.remaining input.new)) }
{
    let mut n = 0;
    while n < buffer.len() {
        let more = input.read(&mut buffer[n..])?;
        if more == 0 {
            return Ok(n);
        }
        n += more;
    }
    Ok(n)
}

fn rewrite(rt: &(impl Print + Eprint + AllocGlobal), text: &[u8]) {
    let mut out = [0u8; ROOM];
    let n = rewrite_text(text, &mut out);
    print(rt, text, &out[..n]);
}

// Nothing else is printed: the bytes are what `printed_of` says of the text.
fn print(rt: &(impl Print + Eprint + AllocGlobal), text: &[u8], bytes: &[u8])
    requires { bytes.now ≡ printed_of text.now }
{
    if let Err(error) = rt.write_all(bytes) {
        fail(rt, "standard output", &error);
    }
}
