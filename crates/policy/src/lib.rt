// Policies and their reader: of the original's policy.rs.
#![tactic(auto)]

pub mod ranges;
mod reader;

ghost use Rattle.std.specs.Prelude.{◌≡◌};
ghost use Rattle.refusal.specs.Said.{said_by};
ghost use Rattle.policy.specs.Piece.{lines_of};
ghost use Rattle.policy.specs.Reader.{run, obey, zero_policy, read_policy};
ghost use Rattle.policy.specs.Heard.{obeyed, Small};

use crate::reader::Heard;
use refusal::Refusal;
use text::lines::line_at;
use text::pieces::test_text;

// The number of a stance is what C is told.
#[derive(Clone, Copy)]
pub enum Stance {
    None = 0,
    Allow = 1,
    Deny = 2,
}

// A domain's rule, and the range of its token list: from after the `:` to the end of the line; 0, 0 without one.
// No `Option<Rule>`: a slot can be handed in as cells, and its range is tested beside `Stance::None` too.
#[derive(Clone, Copy)]
pub struct Slot {
    pub stance: Stance,
    pub from: usize,
    pub len: usize,
}

// A policy as ranges of its text: the name, and a rule for each domain in domain order.
// The name of one that is not `named` is `default-deny`, which is no range of any text.
// No `Option<Part>`: a policy can be handed in as cells, and its range is tested beside `named: false` too.
#[derive(Clone, Copy)]
pub struct Policy {
    pub named: bool,
    pub start: usize,
    pub size: usize,
    pub permit: bool,
    pub rules: [Slot; 7],
}

// Deny by default: what an empty text gives.
#[tactic(auto, unfolding(crate::specs::Reader::zero_policy))]
pub fn default_policy() -> Policy
    ensures { result ≡ zero_policy }
{
    let none = Slot {
        stance: Stance::None,
        from: 0,
        len: 0,
    };
    Policy {
        named: false,
        start: 0,
        size: 0,
        permit: false,
        rules: [none; 7],
    }
}

// The policy becomes what it is after what a line says.
fn obey(policy: &mut Policy, heard: Heard)
    requires { Small heard }
    ensures { policy.new ≡ obeyed heard policy.old }
{
    match heard {
        Heard::Blank => {}
        Heard::Called(name) => {
            policy.named = true;
            policy.start = name.from;
            policy.size = name.len;
        }
        Heard::Preset(allow) => policy.permit = allow,
        Heard::Ruled(d, rule) => policy.rules[d] = rule,
    }
}

// No `for` over the lines: where one ends is read, and each has its number.
fn read_lines(s: &[u8]) -> Result<Policy, Refusal>
    ensures { said_by result ≡ run obey 1 zero_policy (lines_of s.now) }
{
    let mut policy = default_policy();
    let mut at = 0;
    let mut line = 1;
    while at < s.len() {
        let l = line_at(s, at);
        let heard = reader::heard_at(s, at, l.end, line)?;
        obey(&mut policy, heard);
        line += 1;
        at = l.next;
    }
    Ok(policy)
}

// A policy from its text: 14, then 4, then 6, 7 or 8 at the first line that has a fault.
pub fn read_policy(s: &[u8]) -> Result<Policy, Refusal>
    ensures { said_by result ≡ read_policy s.now }
{
    test_text(s)?;
    read_lines(s)
}
