// The lines of the report that need no table.
ghost use Rattle.std.specs.Prelude.{◌≡◌};
ghost use Rattle.refusal.specs.Said.{number_of, beside_of, where_of};
ghost use Rattle.table.specs.Table.{range_of};
ghost use Rattle.output.specs.Writing.{Added};
ghost use Rattle.report.specs.Decimal.{decimal_of};
ghost use Rattle.reviewed.specs.Texts.{path_text, name_text, counts_text, words_of, beside_text, reason_text, whether, mark_text};
ghost use Rattle.reviewed.specs.Texts.{domain_text, domains_text, violated_text, violated_texts, compliance_text};
ghost use Rattle.reviewed.specs.Texts.{stand_text, verdict_text, none_text};
ghost use Rattle.reviewed.specs.Review.{shown_name};

use crate::escape::put_quoted;
use output::bytes::Writer;
use policy::Policy;
use refusal::Refusal;
use report::line::Line;
use verdicts::{Verdict, is_violation};
use wasm::Module;

// The bytes of a text by value.
fn put_line(out: &mut Writer, l: Line)
    ensures same_reference { out.new.out.ghost_name ≡ out.old.out.ghost_name }
    ensures added { Added out.old (range_of l.bytes 0 l.len) out.new }
{
    let bytes = l.bytes;
    out.put(table::range(&bytes, 0, l.len));
}

fn put_number(out: &mut Writer, n: usize)
    ensures same_reference { out.new.out.ghost_name ≡ out.old.out.ghost_name }
    ensures added { Added out.old (decimal_of n) out.new }
{
    put_line(out, report::number_text(n));
}

// What a file is, and its path.
pub(crate) fn put_path(out: &mut Writer, what: &[u8], path: &[u8])
    ensures same_reference { out.new.out.ghost_name ≡ out.old.out.ghost_name }
    ensures added { Added out.old (path_text what.now path.now) out.new }
{
    out.put(what);
    put_quoted(out, path);
    out.put(b"\n");
}

fn put_named(out: &mut Writer, name: &[u8], permit: bool)
    ensures same_reference { out.new.out.ghost_name ≡ out.old.out.ghost_name }
    ensures added { Added out.old (name_text name.now permit) out.new }
{
    out.put(b"  ");
    put_quoted(out, name);
    if permit {
        out.put(b", default allow\n");
    } else {
        out.put(b", default deny\n");
    }
}

// The name of a policy that was read, and its default.
pub(crate) fn put_name(out: &mut Writer, text: &[u8], p: Policy)
    ensures same_reference { out.new.out.ghost_name ≡ out.old.out.ghost_name }
    ensures added { Added out.old (name_text (shown_name text.now p) p.permit) out.new }
{
    if p.named {
        put_named(out, table::range(text, p.start, p.size), p.permit);
    } else {
        put_named(out, b"default-deny", p.permit);
    }
}

// How long a module is, and how many sections, imports and exports it has.
pub(crate) fn put_counts(out: &mut Writer, m: Module)
    ensures same_reference { out.new.out.ghost_name ≡ out.old.out.ghost_name }
    ensures added { Added out.old (counts_text m.length m.sections m.imports m.exports) out.new }
{
    out.put(b"  bytes ");
    put_number(out, m.length);
    out.put(b", sections ");
    put_number(out, m.sections);
    out.put(b", imports ");
    put_number(out, m.imports);
    out.put(b", exports ");
    put_number(out, m.exports);
    out.put(b"\n");
}

// What a refusal means; nothing where no file is refused so.
#[tactic(auto, unfolding(crate::specs::Texts::words_of))]
fn words_of(why: Refusal) -> &'static [u8]
    ensures { result.now ≡ words_of (number_of why) }
{
    match why {
        Refusal::UnexpectedEof(_) => b": the bytes end too soon",
        Refusal::BadMagic(_) => b": not a WebAssembly module",
        Refusal::BadUtf8(_) => b": not well-formed UTF-8",
        Refusal::MalformedSection(_, _) => b": an import of unknown kind",
        Refusal::Directive(_) => b": a line that is no directive",
        Refusal::BadDefault(_) => b": a default that is neither allow nor deny",
        Refusal::BadDomain(_) => b": no such domain",
        Refusal::Full(_) => b": more entries than are taken",
        Refusal::TooLong => b": longer than 65,536 bytes",
        Refusal::TooManyBytes(_) => b": a number of more than ten bytes",
        Refusal::TenthByte(_) => b": a number whose tenth byte is too large",
        Refusal::AboveU32(_) => b": a number above 4,294,967,295",
        _ => b"",
    }
}

// Of an import of unknown kind, where in the file the kind byte is.
fn put_beside(out: &mut Writer, why: Refusal)
    ensures same_reference { out.new.out.ghost_name ≡ out.old.out.ghost_name }
    ensures added { Added out.old (beside_text (number_of why) (beside_of why)) out.new }
{
    match why {
        Refusal::MalformedSection(_, offset) => {
            out.put(b", offset ");
            put_number(out, offset);
        }
        _ => {}
    }
}

// Below its path, why a file is refused.
pub(crate) fn put_reason(out: &mut Writer, why: Refusal)
    ensures same_reference { out.new.out.ghost_name ≡ out.old.out.ghost_name }
    ensures added { Added out.old (reason_text (number_of why) (where_of why)) out.new }
{
    out.put(b"  refused ");
    put_number(out, refusal::number(why) as usize);
    out.put(b" at ");
    put_number(out, refusal::place(why));
    put_beside(out, why);
    out.put(words_of(why));
    out.put(b"\n");
}

// A word, or `not` before it.
fn put_whether(out: &mut Writer, yes: bool, word: &[u8])
    ensures same_reference { out.new.out.ghost_name ≡ out.old.out.ghost_name }
    ensures added { Added out.old (whether yes word.now) out.new }
{
    if !yes {
        out.put(b"not ");
    }
    out.put(word);
}

fn put_mark(out: &mut Writer, v: Verdict)
    ensures same_reference { out.new.out.ghost_name ≡ out.old.out.ghost_name }
    ensures added { Added out.old (mark_text v) out.new }
{
    if is_violation(v) {
        out.put(b", violation");
    }
}

// A domain: required or not, how many times, allowed or not, and whether that is a violation.
fn put_verdict_of(out: &mut Writer, d: usize, v: Verdict)
    ensures same_reference { out.new.out.ghost_name ≡ out.old.out.ghost_name }
    ensures added { Added out.old (domain_text d v) out.new }
{
    out.put(b"  ");
    out.put_domain(d);
    out.put(b": ");
    put_whether(out, v.required, b"required");
    out.put(b" (");
    put_number(out, v.many);
    out.put(b"), ");
    put_whether(out, v.allowed, b"allowed");
    put_mark(out, v);
    out.put(b"\n");
}

// The seven domains.
pub(crate) fn put_domains(out: &mut Writer, verdicts: [Verdict; 7])
    ensures same_reference { out.new.out.ghost_name ≡ out.old.out.ghost_name }
    ensures added { Added out.old (domains_text verdicts) out.new }
{
    for (d, &v) in verdicts.iter().enumerate() {
        put_verdict_of(out, d, v);
    }
}

// A domain's word, where it violates.
fn put_violated(out: &mut Writer, d: usize, v: Verdict)
    ensures same_reference { out.new.out.ghost_name ≡ out.old.out.ghost_name }
    ensures added { Added out.old (violated_text d v) out.new }
{
    if is_violation(v) {
        out.put(b" ");
        out.put_domain(d);
    }
}

fn put_all_violated(out: &mut Writer, verdicts: [Verdict; 7])
    ensures same_reference { out.new.out.ghost_name ≡ out.old.out.ghost_name }
    ensures added { Added out.old (violated_texts verdicts) out.new }
{
    for (d, &v) in verdicts.iter().enumerate() {
        put_violated(out, d, v);
    }
}

// Compliant; or the domains that violate.
pub(crate) fn put_compliance(out: &mut Writer, fine: bool, verdicts: [Verdict; 7])
    ensures same_reference { out.new.out.ghost_name ≡ out.old.out.ghost_name }
    ensures added { Added out.old (compliance_text fine verdicts) out.new }
{
    if fine {
        out.put(b"compliant\n");
    } else {
        out.put(b"not compliant:");
        put_all_violated(out, verdicts);
        out.put(b"\n");
    }
}

pub(crate) fn put_stand(out: &mut Writer, yes: bool)
    ensures same_reference { out.new.out.ghost_name ≡ out.old.out.ghost_name }
    ensures added { Added out.old (stand_text yes) out.new }
{
    if yes {
        out.put(b"the candidate can stand in for the baseline\n");
    } else {
        out.put(b"the candidate cannot stand in for the baseline\n");
    }
}

// The last line: whether the candidate is compliant, and can stand in for the baseline.
#[tactic(auto, unfolding(crate::specs::Texts::verdict_text))]
fn verdict_line(fine: bool, stands: bool) -> &'static [u8]
    ensures { result.now ≡ verdict_text fine stands }
{
    match (fine, stands) {
        (true, true) => b"verdict: pass\n",
        (true, false) => b"verdict: fail, no stand-in\n",
        (false, true) => b"verdict: fail, not compliant\n",
        (false, false) => b"verdict: fail, not compliant, no stand-in\n",
    }
}

pub(crate) fn put_verdict(out: &mut Writer, fine: bool, stands: bool)
    ensures same_reference { out.new.out.ghost_name ≡ out.old.out.ghost_name }
    ensures added { Added out.old (verdict_text fine stands) out.new }
{
    out.put(verdict_line(fine, stands));
}

// The last line where there is no verdict.
pub(crate) fn put_none(out: &mut Writer, whose: &[u8], why: Refusal)
    ensures same_reference { out.new.out.ghost_name ≡ out.old.out.ghost_name }
    ensures added { Added out.old (none_text whose.now (number_of why) (where_of why)) out.new }
{
    out.put(b"verdict: none, ");
    out.put(whose);
    put_line(
        out,
        report::refused_line(refusal::number(why) as usize, refusal::place(why)),
    );
}
