// What the program `rewrite` prints.
#![tactic(auto)]

ghost use Rattle.std.specs.Prelude.{◌≤◌, length};
ghost use Rattle.refusal.specs.Said.{number_of, place_of, follow};
ghost use Rattle.policy.specs.Reader.{read_policy};
ghost use Rattle.policy_text.specs.Writer.{written};
ghost use Rattle.output.specs.Bytes.{WriterTells};
ghost use Rattle.report.specs.Prints.{Prints, whole_in};
ghost use Rattle.report.specs.Texts.{refused_text};
ghost use Rattle.rewritten.specs.Printed.{printed_in, printed_of, enough};

use refusal::Refusal;

// The line of a refusal, where there is room for it.
fn put_refusal(why: Refusal, out: &mut [u8]) -> usize
    ensures { Prints (whole_in (length out.old) (refused_text (number_of why) (place_of why))) out.old result
        out.new }
{
    let line = report::refused_line(refusal::number(why) as usize, refusal::place(why));
    let bytes = line.bytes;
    let text = table::range(&bytes, 0, line.len);
    if out.len() < text.len() {
        return 0;
    }
    // One line, put by one call: a writer would be made for it alone.
    output::bytes::put(out, 0, text, true)
}

// A policy that is read, and written again.
fn put_policy(text: &[u8], out: &mut [u8]) -> Result<usize, Refusal>
    ensures { WriterTells (follow (read_policy text.now) (λ p. written text.now p (length out.old))) out.old result out.new }
{
    let p = policy::read_policy(text)?;
    policy_text::write_policy(text, p, out)
}

// The policy's text in the writer's one form, or `refused N at P`; and how many bytes that is. Nothing past them is touched.
pub fn rewrite_text(text: &[u8], out: &mut [u8]) -> usize
    ensures prints { Prints (printed_in (length out.old) text.now) out.old result out.new }
    ensures prints_2 { enough ≤ length out.old → Prints (printed_of text.now) out.old result out.new }
    ensures upper_bound { result ≤ length out.new }
{
    match put_policy(text, out) {
        Err(why) => put_refusal(why, out),
        Ok(n) => n,
    }
}
