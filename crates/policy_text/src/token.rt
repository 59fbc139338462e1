// The tokens of a domain's list, one call after another.
ghost use Rattle.std.specs.Prelude.{◌≡◌, ◌≤◌, length};
ghost use Rattle.domains.specs.Domain.{domain_number};
ghost use Rattle.text.specs.Piece.{bytes_between};
ghost use Rattle.policy_text.specs.Token.{token_from, next_token, found_token, said_token};

use domains::Domain;
use policy::Policy;
use policy::ranges::test_policy;
use refusal::{Part, Refusal};
use text::find::find;
use text::white::trim;
use verdicts::effective;

// A token's range, and the offset from which the next one is looked for.
#[derive(Clone, Copy)]
pub struct Token {
    pub part: Part,
    pub next: usize,
}

// The first token of the bytes from `from` to `end`.
fn token_at(s: &[u8], from: usize, end: usize) -> Option<Token>
    requires { end ≤ length s.now }
    ensures { found_token result ≡ token_from from 0 (bytes_between s.now from end) }
{
    let mut i = from;
    while i < end {
        let comma = i + find(&s[i..end], b',');
        let t = trim(&s[i..comma]);
        if t.len != 0 {
            let part = Part {
                from: i + t.from,
                len: t.len,
            };
            // After the comma, or the end where there is none.
            let next = (comma + 1).min(end);
            return Some(Token { part, next });
        }
        i = comma + 1;
    }
    None
}

// The same for any `end`: there is no byte past the text's.
pub fn first_token(s: &[u8], from: usize, end: usize) -> Option<Token>
    ensures { found_token result ≡ token_from from 0 (bytes_between s.now from end) }
{
    if s.len() < end {
        return token_at(s, from, s.len());
    }
    token_at(s, from, end)
}

// The first token of domain d's list at or after offset `from`: 14, 4 and 15 of the text and the policy first.
pub fn next_token(s: &[u8], p: Policy, d: Domain, from: usize) -> Result<Option<Token>, Refusal>
    ensures { said_token result ≡ next_token s.now p (domain_number d) from }
{
    test_policy(s, p)?;
    let rule = effective(p, d);
    let end = rule.from + rule.len;
    let at = from.clamp(rule.from, end);
    Ok(token_at(s, at, end))
}
