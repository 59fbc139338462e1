// A policy as text: its tokens, and the whole of it written again.
#![tactic(auto)]

pub mod token;

ghost use Rattle.std.specs.Prelude.{◌≡◌, ◌+◌, ◌≤◌, length};
ghost use Rattle.refusal.specs.Pick.{pick};
ghost use Rattle.refusal.specs.Sizes.{text_limit};
ghost use Rattle.policy.specs.Eight.{SlotFits, SlotsFit};
ghost use Rattle.policy.specs.View.{tokens, no_name, range, rule_of, says};
ghost use Rattle.output.specs.Bytes.{FormedFrom};
ghost use Rattle.output.specs.Writing.{Added};
ghost use Rattle.policy_text.specs.Writer.{stance_word, list_part, form, Writes};
ghost use Rattle.policy_text.specs.Writing.{token_form, any_token, line_text, rule_text, rules_text};

use output::bytes::Writer;
use policy::ranges::test_policy;
use policy::{Policy, Slot, Stance};
use refusal::Refusal;
use text::find::find;
use text::white::trim;

// A token after its separator: `: ` before the first, `, ` before each other. No token, nothing.
fn put_token(out: &mut Writer, token: &[u8], some: bool)
    ensures same_reference { out.new.out.ghost_name ≡ out.old.out.ghost_name }
    ensures added { Added out.old (token_form some token.now) out.new }
{
    if !token.is_empty() {
        out.put(if some { b", " } else { b": " });
        out.put(token);
    }
}

// There was a token, or there is one now.
fn mark(some: bool, token: &[u8]) -> bool
    ensures { result ≡ any_token some token.now }
{
    some || !token.is_empty()
}

// The tokens of a list.
fn put_list(out: &mut Writer, list: &[u8])
    requires { length list.now ≤ text_limit }
    ensures same_reference { out.new.out.ghost_name ≡ out.old.out.ghost_name }
    ensures added { Added out.old (list_part (tokens list.now)) out.new }
{
    let mut i = 0;
    let mut some = false;
    while i <= list.len() {
        let j = i + find(&list[i..], b',');
        let t = trim(&list[i..j]);
        let from = i + t.from;
        let token = &list[from..from + t.len];
        put_token(out, token, some);
        some = mark(some, token);
        i = j + 1;
    }
}

fn put_stance(out: &mut Writer, allow: bool)
    ensures same_reference { out.new.out.ghost_name ≡ out.old.out.ghost_name }
    ensures added { Added out.old (stance_word allow) out.new }
{
    if allow {
        out.put(b"allow");
    } else {
        out.put(b"deny");
    }
}

// The line of a rule for domain d, with its list.
fn put_line(out: &mut Writer, list: &[u8], allow: bool, d: usize)
    requires { length list.now ≤ text_limit }
    ensures same_reference { out.new.out.ghost_name ≡ out.old.out.ghost_name }
    ensures added { Added out.old (line_text allow d (tokens list.now)) out.new }
{
    put_stance(out, allow);
    out.put(b" ");
    out.put_domain(d);
    put_list(out, list);
    out.put(b"\n");
}

// A domain's rule, where it has one.
fn put_rule(out: &mut Writer, s: &[u8], x: Slot, d: usize)
    requires { (SlotFits (length s.now) x) × (length s.now ≤ text_limit) }
    ensures same_reference { out.new.out.ghost_name ≡ out.old.out.ghost_name }
    ensures added { Added out.old (rule_text d (rule_of s.now x)) out.new }
{
    let list = &s[x.from..x.from + x.len];
    match x.stance {
        Stance::None => {}
        Stance::Allow => put_line(out, list, true, d),
        Stance::Deny => put_line(out, list, false, d),
    }
}

// The explicit rules, in domain order.
fn put_rules(out: &mut Writer, s: &[u8], p: Policy)
    requires { (SlotsFit (length s.now) p.rules) × (length s.now ≤ text_limit) }
    ensures same_reference { out.new.out.ghost_name ≡ out.old.out.ghost_name }
    ensures added { Added out.old (rules_text s.now p) out.new }
{
    for (d, rule) in p.rules.iter().enumerate() {
        put_rule(out, s, *rule, d);
    }
}

fn put_name(out: &mut Writer, s: &[u8], p: Policy)
    requires { p.start + p.size ≤ length s.now }
    ensures same_reference { out.new.out.ghost_name ≡ out.old.out.ghost_name }
    ensures added { Added out.old (pick p.named (range s.now p.start p.size) no_name) out.new }
{
    if p.named {
        out.put(&s[p.start..p.start + p.size]);
    } else {
        out.put(b"default-deny");
    }
}

// The whole text of a policy whose ranges fit its text.
fn put_form(out: &mut Writer, s: &[u8], p: Policy)
    requires { (SlotsFit (length s.now) p.rules) × (p.start + p.size ≤ length s.now) × (length s.now ≤ text_limit) }
    ensures same_reference { out.new.out.ghost_name ≡ out.old.out.ghost_name }
    ensures added { Added out.old (form (says s.now p)) out.new }
{
    out.put(b"policy \"");
    put_name(out, s, p);
    out.put(b"\"\ndefault ");
    put_stance(out, p.permit);
    out.put(b"\n");
    put_rules(out, s, p);
}

// The text of such a policy into the buffer, where it has room for all of it.
fn write_form(s: &[u8], p: Policy, out: &mut [u8]) -> Result<usize, Refusal>
    requires { (SlotsFit (length s.now) p.rules) × (p.start + p.size ≤ length s.now) × (length s.now ≤ text_limit) }
    ensures { FormedFrom 0 (form (says s.now p)) out.old result out.new }
{
    let mut counted = Writer::counting(out, 0);
    put_form(&mut counted, s, p);
    let needed = counted.at;
    if out.len() < needed {
        return Err(Refusal::NoRoom(needed));
    }
    let mut written = Writer::writing(out, 0);
    put_form(&mut written, s, p);
    Ok(written.at)
}

// The text of a policy: 14, 4 and 15 of what is handed in, 16 last. Refused, nothing is touched; accepted, nothing past the text.
pub fn write_policy(s: &[u8], p: Policy, out: &mut [u8]) -> Result<usize, Refusal>
    ensures { Writes s.now p out.old result out.new }
{
    test_policy(s, p)?;
    write_form(s, p, out)
}
