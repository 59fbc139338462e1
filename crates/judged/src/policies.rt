// policy.rs, with policies of any ranges, handed in as cells.
ghost use Rattle.std.specs.Prelude.{◌≡◌, ◌≤◌, length};
ghost use Rattle.domains.specs.Classify.{import_domain, path_domain};
ghost use Rattle.verdicts.specs.Evaluate.{evaluated};
ghost use Rattle.verdicts.specs.Records.{numbers};
ghost use Rattle.policy_text.specs.Writer.{written};
ghost use Rattle.told.specs.Policies.{token_told, token_asked, WriteTells};
ghost use Rattle.told.specs.Check.{evaluation_told};
ghost use Rattle.judged.specs.Policies.{cell, stance_at, slot_at, policy_in, effective_told, effective_asked};

use domains::classify::{classify_import, classify_path};
use domains::{domain_number, domain_of};
use policy::{Policy, Slot, Stance};
use told::check::{EvaluationTold, evaluation_of};
use told::policies::{TokenTold, WrittenTold, token_for, written_of};
use verdicts::Rule;
use verdicts::records::Requirement;

#[repr(C)]
#[derive(Clone, Copy)]
pub struct EffectiveTold {
    pub allow: bool,
    pub from: usize,
    pub len: usize,
}

// Cell k of the 25 of a policy: named, start, size, permit, then stance, from, len of each rule.
fn at(cells: &[usize], k: usize) -> usize
    ensures { result ≡ cell cells.now k }
{
    table::cell(cells, 25, 0, k)
}

fn stance_of(mark: usize) -> Stance
    ensures { result ≡ stance_at mark }
{
    match mark {
        0 => Stance::None,
        1 => Stance::Allow,
        _ => Stance::Deny,
    }
}

fn slot_at(cells: &[usize], k: usize) -> Slot
    requires { k ≤ 22 }
    ensures { result ≡ slot_at cells.now k }
{
    Slot {
        stance: stance_of(at(cells, k)),
        from: at(cells, k + 1),
        len: at(cells, k + 2),
    }
}

fn policy_of(cells: &[usize]) -> Policy
    ensures { result ≡ policy_in cells.now }
{
    Policy {
        named: at(cells, 0) != 0,
        start: at(cells, 1),
        size: at(cells, 2),
        permit: at(cells, 3) != 0,
        rules: [
            slot_at(cells, 4),
            slot_at(cells, 7),
            slot_at(cells, 10),
            slot_at(cells, 13),
            slot_at(cells, 16),
            slot_at(cells, 19),
            slot_at(cells, 22),
        ],
    }
}

fn rule_of(r: Rule) -> EffectiveTold
    ensures { result ≡ effective_told r }
{
    EffectiveTold {
        allow: r.allow,
        from: r.from,
        len: r.len,
    }
}

// The rule that holds for a domain; of a number above 6 there is none.
pub fn judged_effective(cells: &[usize], domain: usize) -> EffectiveTold
    ensures { result ≡ effective_asked (policy_in cells.now) domain }
{
    let p = policy_of(cells);
    match domain_of(domain) {
        Some(d) => rule_of(verdicts::effective(p, d)),
        None => EffectiveTold {
            allow: false,
            from: 0,
            len: 0,
        },
    }
}

pub fn judged_token(text: &[u8], cells: &[usize], domain: usize, from: usize) -> TokenTold
    ensures { result ≡ token_told (token_asked text.now (policy_in cells.now) domain from) }
{
    let p = policy_of(cells);
    token_for(text, p, domain, from)
}

pub fn judged_write(text: &[u8], cells: &[usize], out: &mut [u8]) -> WrittenTold
    ensures { WriteTells (written text.now (policy_in cells.now) (length out.old))
        out.old result out.new }
{
    let p = policy_of(cells);
    written_of(policy_text::write_policy(text, p, out))
}

pub fn judged_evaluate(domains: &[usize], n: usize, cells: &[usize]) -> EvaluationTold
    ensures { result ≡ evaluation_told (evaluated domains.now n (policy_in cells.now)) }
{
    let p = policy_of(cells);
    evaluation_of(verdicts::evaluate_domains(domains, n, p))
}

pub fn judged_evaluate_records(list: &[Requirement], n: usize, cells: &[usize]) -> EvaluationTold
    ensures { result ≡ evaluation_told (evaluated (numbers list.now) n (policy_in cells.now)) }
{
    let p = policy_of(cells);
    evaluation_of(verdicts::records::evaluate(list, n, p))
}

pub fn judged_import(source: &[u8], field: &[u8]) -> usize
    ensures { result ≡ import_domain source.now field.now }
{
    domain_number(classify_import(source, field))
}

pub fn judged_path(path: &[u8]) -> usize
    ensures { result ≡ path_domain path.now }
{
    domain_number(classify_path(path))
}
