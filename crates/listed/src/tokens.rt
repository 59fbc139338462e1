// policy.rs: a policy's text, as the ranges of the tokens of one domain's list.
ghost use Rattle.std.specs.Prelude.{◌≡◌, ◌*◌, ◌≤◌, length};
ghost use Rattle.refusal.specs.Said.{number_of, where_of};
ghost use Rattle.refusal.specs.Sizes.{text_limit};
ghost use Rattle.domains.specs.Domain as domain;
ghost use Rattle.table.specs.Table.{put};
ghost use Rattle.output.specs.Bytes.{room_for};
ghost use Rattle.policy_text.specs.Token.{tokens_in, all_tokens};
ghost use Rattle.listed.specs.Delivered.{Lays, Delivers};
ghost use Rattle.listed.specs.Tokens.{no_tokens, tokens_by, tokens_bytes, tokens_told, tokens_read};

use domains::{Domain, domain_of};
use output::cells::put_cells;
use policy::Policy;
use policy::ranges::test_policy;
use policy_text::token::first_token;
use refusal::Refusal;
use verdicts::effective;

// How many tokens there are, and how many bytes their ranges are: sixteen each.
#[repr(C)]
#[derive(Clone, Copy)]
pub struct TokensTold {
    pub number: u32,
    pub place: usize,
    pub count: usize,
    pub bytes: usize,
}

fn no_tokens(why: Refusal) -> TokensTold
    ensures { result ≡ no_tokens (number_of why) (where_of why) }
{
    TokensTold {
        number: refusal::number(why),
        place: refusal::place(why),
        count: 0,
        bytes: 0,
    }
}

// How many tokens the bytes from `from` to `end` have.
fn count_tokens(s: &[u8], from: usize, end: usize) -> usize
    ensures value { result ≡ length (tokens_in s.now from end) }
    ensures upper_bound { result ≤ end }
{
    let mut i = from;
    let mut n = 0;
    while let Some(token) = first_token(s, i, end) {
        n += 1;
        i = token.next;
    }
    n
}

// Their ranges at the start of a buffer, which has room for them all.
fn put_tokens(s: &[u8], from: usize, end: usize, out: &mut [u8])
    requires { length (tokens_in s.now from end) * 16 ≤ length out.old }
    ensures { out.new ≡ put out.old 0 (tokens_bytes (tokens_in s.now from end)) }
{
    let mut i = from;
    let mut o = 0;
    while let Some(token) = first_token(s, i, end) {
        let row = [token.part.from, token.part.len];
        o = put_cells(&row, out, o);
        i = token.next;
    }
}

// The same for any buffer: 16 where it has no room.
fn lay_tokens(s: &[u8], from: usize, end: usize, out: &mut [u8]) -> TokensTold
    requires { end ≤ text_limit }
    ensures { Lays (tokens_by (length (tokens_in s.now from end)))
        (room_for (tokens_bytes (tokens_in s.now from end)) (length out.old)) out.old result out.new }
{
    let count = count_tokens(s, from, end);
    let bytes = count * 16;
    if out.len() < bytes {
        return no_tokens(Refusal::NoRoom(bytes));
    }
    put_tokens(s, from, end, out);
    TokensTold {
        number: 0,
        place: 0,
        count,
        bytes,
    }
}

// Of a policy and its text: 14, 4, 15, then 16.
fn list_rule(text: &[u8], p: Policy, d: Domain, out: &mut [u8]) -> TokensTold
    ensures { Delivers tokens_bytes tokens_told (all_tokens text.now p (domain.domain_number d))
        out.old result out.new }
{
    match test_policy(text, p) {
        Err(why) => no_tokens(why),
        Ok(()) => {
            let rule = effective(p, d);
            let from = rule.from;
            let end = from + rule.len;
            lay_tokens(text, from, end, out)
        }
    }
}

// The text is read: what the reader refuses, then 16. A number above 6 is no domain's, and there is no token.
pub fn list_tokens(text: &[u8], domain: usize, out: &mut [u8]) -> TokensTold
    ensures { Delivers tokens_bytes tokens_told (tokens_read text.now domain) out.old result out.new }
{
    match policy::read_policy(text) {
        Err(why) => no_tokens(why),
        Ok(p) => match domain_of(domain) {
            Some(d) => list_rule(text, p, d, out),
            None => TokensTold {
                number: 0,
                place: 0,
                count: 0,
                bytes: 0,
            },
        },
    }
}
