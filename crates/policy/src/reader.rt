// A line of a policy's text: what it says, by ranges of the text.
ghost use Rattle.std.specs.Prelude.{◌≡◌, ◌≤◌, length};
ghost use Rattle.refusal.specs.Said.{said_by};
ghost use Rattle.policy.specs.Piece.{quotes, bare};
ghost use Rattle.text.specs.Piece.{trim, piece};
ghost use Rattle.policy.specs.Directive.{defaulted, rule_directive, policy_worded, policy_directive};
ghost use Rattle.policy.specs.Reader.{stance_of};
ghost use Rattle.policy.specs.Heard.{part_of, ranged, named};
ghost use Rattle.domains.specs.Domain.{domain_of};

use crate::{Slot, Stance};
use domains::{domain_number, from_slug};
use refusal::{Part, Refusal};
use text::find::find;
use text::order::{equal, starts};
use text::pieces::{shorn_of, trimmed_at};

// Nothing; the range of a name; whether the default is to allow; a rule for the domain with a number.
#[derive(Clone, Copy)]
pub(crate) enum Heard {
    Blank,
    Called(Part),
    Preset(bool),
    Ruled(usize, Slot),
}

// How many quotes stand at the front.
fn quotes_of(s: &[u8]) -> usize
    ensures { result ≡ quotes s.now }
{
    s.iter().position(|c| *c != b'"').unwrap_or(s.len())
}

// The name of a policy, without the quotes around it.
fn name_at(s: &[u8], a: usize, e: usize) -> Part
    requires { (a ≤ e) × (e ≤ length s.now) }
    ensures { result ≡ part_of (bare (trim (piece s.now a e))) }
{
    let t = trimmed_at(s, a, e);
    let from = t.from + quotes_of(&s[t.from..t.past]);
    let len = shorn_of(&s[from..t.past], b'"');
    Part { from, len }
}

// Fault 7 of the line, where it is neither of the two words.
fn preset_at(s: &[u8], a: usize, e: usize, line: usize) -> Result<Heard, Refusal>
    requires { (a ≤ e) × (e ≤ length s.now) }
    ensures { said_by result ≡ ranged line (defaulted (trim (piece s.now a e)).bytes) }
{
    let t = trimmed_at(s, a, e);
    let word = &s[t.from..t.past];
    if equal(word, b"allow") {
        return Ok(Heard::Preset(true));
    }
    if equal(word, b"deny") {
        return Ok(Heard::Preset(false));
    }
    Err(Refusal::BadDefault(line))
}

// The number of the domain that the part names; fault 8 of the line where it names none.
fn domain_at(s: &[u8], a: usize, e: usize, line: usize) -> Result<usize, Refusal>
    requires { (a ≤ e) × (e ≤ length s.now) }
    ensures { said_by result ≡ named line (domain_of (trim (piece s.now a e)).bytes) }
{
    let t = trimmed_at(s, a, e);
    match from_slug(&s[t.from..t.past]) {
        Some(d) => Ok(domain_number(d)),
        None => Err(Refusal::BadDomain(line)),
    }
}

fn stance_of(allow: bool) -> Stance
    ensures { result ≡ stance_of allow }
{
    if allow { Stance::Allow } else { Stance::Deny }
}

// The rule for a domain, up to the first `:`, with the list after it.
fn ruled_at(s: &[u8], a: usize, e: usize, allow: bool, line: usize) -> Result<Heard, Refusal>
    requires { (a ≤ e) × (e ≤ length s.now) }
    ensures { said_by result ≡ ranged line (rule_directive allow (piece s.now a e)) }
{
    let colon = a + find(&s[a..e], b':');
    let d = domain_at(s, a, colon, line)?;
    let stance = stance_of(allow);
    if colon < e {
        let from = colon + 1;
        let len = e - from;
        return Ok(Heard::Ruled(d, Slot { stance, from, len }));
    }
    Ok(Heard::Ruled(
        d,
        Slot {
            stance,
            from: 0,
            len: 0,
        },
    ))
}

// Fault 6 of the line, where it begins with no directive's word.
fn worded_at(s: &[u8], a: usize, e: usize, line: usize) -> Result<Heard, Refusal>
    requires { (a ≤ e) × (e ≤ length s.now) }
    ensures { said_by result ≡ ranged line (policy_worded (piece s.now a e)) }
{
    let said = &s[a..e];
    if starts(said, b"policy ") {
        return Ok(Heard::Called(name_at(s, a + 7, e)));
    }
    if starts(said, b"default ") {
        return preset_at(s, a + 8, e, line);
    }
    if starts(said, b"allow ") {
        return ruled_at(s, a + 6, e, true, line);
    }
    if starts(said, b"deny ") {
        return ruled_at(s, a + 5, e, false, line);
    }
    Err(Refusal::Directive(line))
}

// What the line from a to e says, the line's number beside it.
pub(crate) fn heard_at(s: &[u8], a: usize, e: usize, line: usize) -> Result<Heard, Refusal>
    requires { (a ≤ e) × (e ≤ length s.now) }
    ensures { said_by result ≡ ranged line (policy_directive (piece s.now a e)) }
{
    let hash = a + find(&s[a..e], b'#');
    let t = trimmed_at(s, a, hash);
    if t.from < t.past {
        return worded_at(s, t.from, t.past, line);
    }
    Ok(Heard::Blank)
}
