// policy.rs over the C interface: a policy as ranges of its text, its tokens one call after another, and its text written again.
ghost use Rattle.std.specs.Prelude.{◌≡◌, length};
ghost use Rattle.output.specs.Bytes.{WriterTells};
ghost use Rattle.policy.specs.Reader.{read_policy};
ghost use Rattle.capi.specs.Policies.{rule_told, policy_shown, policy_told};
ghost use Rattle.told.specs.Policies.{token_told, WriteTells};
ghost use Rattle.capi.specs.Policies.{token_read, rewritten};

use policy::{Policy, Slot, default_policy, read_policy};
use refusal::Refusal;
use told::policies::{TokenTold, WrittenTold, no_token, token_for, written_of};

// stance: 0 none, 1 allow, 2 deny; then the range of the tokens.
#[repr(C)]
#[derive(Clone, Copy)]
pub struct RuleTold {
    pub stance: usize,
    pub from: usize,
    pub len: usize,
}

// `named` false: the name is `default-deny`. The rules are in domain order.
#[repr(C)]
#[derive(Clone, Copy)]
pub struct PolicyTold {
    pub number: u32,
    pub place: usize,
    pub named: bool,
    pub start: usize,
    pub size: usize,
    pub permit: bool,
    pub rules: [RuleTold; 7],
}

fn rule_of(x: Slot) -> RuleTold
    ensures { result ≡ rule_told x }
{
    RuleTold {
        stance: x.stance as usize,
        from: x.from,
        len: x.len,
    }
}

fn show(number: u32, place: usize, p: Policy) -> PolicyTold
    ensures { result ≡ policy_shown number place p }
{
    PolicyTold {
        number,
        place,
        named: p.named,
        start: p.start,
        size: p.size,
        permit: p.permit,
        rules: p.rules.map(rule_of),
    }
}

pub fn viscrombal_policy(text: &[u8]) -> PolicyTold
    ensures { result ≡ policy_told (read_policy text.now) }
{
    match read_policy(text) {
        Ok(p) => show(0, 0, p),
        Err(why) => show(refusal::number(why), refusal::place(why), default_policy()),
    }
}

// The first token of a domain's list at or after offset `from`.
pub fn viscrombal_token(text: &[u8], domain: usize, from: usize) -> TokenTold
    ensures { result ≡ token_told (token_read text.now domain from) }
{
    match read_policy(text) {
        Ok(p) => token_for(text, p, domain, from),
        Err(why) => no_token(refusal::number(why), refusal::place(why)),
    }
}

// The reader, then the writer.
fn rewrite(text: &[u8], out: &mut [u8]) -> Result<usize, Refusal>
    ensures { WriterTells (rewritten text.now (length out.old)) out.old result out.new }
{
    let p = read_policy(text)?;
    policy_text::write_policy(text, p, out)
}

// Refused, nothing is touched; accepted, nothing past the text.
pub fn viscrombal_rewrite(text: &[u8], out: &mut [u8]) -> WrittenTold
    ensures { WriteTells (rewritten text.now (length out.old)) out.old result out.new }
{
    written_of(rewrite(text, out))
}
