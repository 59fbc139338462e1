// What a token, and a text that is written, tell.
ghost use Rattle.std.specs.Prelude.{◌≡◌};
ghost use Rattle.refusal.specs.Said.{said_by};
ghost use Rattle.policy_text.specs.Token.{said_token};
ghost use Rattle.told.specs.Policies.{number_in, place_in, beside_in, no_token, token_told, token_asked, written_told};

use domains::domain_of;
use policy::Policy;
use policy_text::token::{Token, next_token};
use refusal::Refusal;

// Where a token was found: its range, and the offset from which the next is looked for.
#[repr(C)]
#[derive(Clone, Copy)]
pub struct TokenTold {
    pub number: u32,
    pub place: usize,
    pub found: bool,
    pub from: usize,
    pub len: usize,
    pub next: usize,
}

#[repr(C)]
#[derive(Clone, Copy)]
pub struct WrittenTold {
    pub number: u32,
    pub place: usize,
    pub bytes: usize,
}

// By name and no `From`: of one answer the number, the place and the offset are told apart, each by a call of its own.
pub fn number_of(a: Result<(), Refusal>) -> u32
    ensures { result ≡ number_in (said_by a) }
{
    match a {
        Ok(()) => 0,
        Err(why) => refusal::number(why),
    }
}

pub fn place_of(a: Result<(), Refusal>) -> usize
    ensures { result ≡ place_in (said_by a) }
{
    match a {
        Ok(()) => 0,
        Err(why) => refusal::place(why),
    }
}

// The offset beside 5.
pub fn beside_of(a: Result<(), Refusal>) -> usize
    ensures { result ≡ beside_in (said_by a) }
{
    match a {
        Ok(()) => 0,
        Err(why) => refusal::beside(why),
    }
}

pub fn no_token(number: u32, place: usize) -> TokenTold
    ensures { result ≡ no_token number place }
{
    TokenTold {
        number,
        place,
        found: false,
        from: 0,
        len: 0,
        next: 0,
    }
}

pub fn token_of(t: Result<Option<Token>, Refusal>) -> TokenTold
    ensures { result ≡ token_told (said_token t) }
{
    match t {
        Ok(Some(token)) => TokenTold {
            number: 0,
            place: 0,
            found: true,
            from: token.part.from,
            len: token.part.len,
            next: token.next,
        },
        Ok(None) => no_token(0, 0),
        Err(why) => no_token(refusal::number(why), refusal::place(why)),
    }
}

// A token of domain d, none where d is no domain's number.
pub fn token_for(text: &[u8], p: Policy, domain: usize, from: usize) -> TokenTold
    ensures { result ≡ token_told (token_asked text.now p domain from) }
{
    match domain_of(domain) {
        Some(d) => token_of(next_token(text, p, d, from)),
        None => no_token(0, 0),
    }
}

pub fn written_of(w: Result<usize, Refusal>) -> WrittenTold
    ensures { result ≡ written_told (said_by w) }
{
    match w {
        Ok(bytes) => WrittenTold {
            number: 0,
            place: 0,
            bytes,
        },
        Err(why) => WrittenTold {
            number: refusal::number(why),
            place: refusal::place(why),
            bytes: 0,
        },
    }
}
