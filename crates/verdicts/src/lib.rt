// Required domains held against a policy: of the original's policy.rs.
#![tactic(auto)]

pub mod records;

ghost use Rattle.std.specs.Prelude.{◌≡◌, map, ℕ, ◌<◌, get_or};
ghost use Rattle.std.specs.Int.Count.{ones};
ghost use Rattle.refusal.specs.Said.{said_by};
ghost use Rattle.domains.specs.Domain.{domain_number};
ghost use Rattle.verdicts.specs.Evaluate.{effective_of, verdict_for, violates, compliant, seven_of, bits, members, firsts};
ghost use Rattle.verdicts.specs.Evaluate.{outcome_in, outcome_by, tallied, evaluated, said_evaluation};

use domains::{Domain, LAST_DOMAIN, domain_number};
use policy::{Policy, Slot, Stance};
use refusal::Refusal;
use table::shape::{MAX_REQUIREMENTS, REQUIREMENT_WIDTH};

// The rule that holds for a domain: whether it is allowed, and the range of its tokens.
#[derive(Clone, Copy)]
pub struct Rule {
    pub allow: bool,
    pub from: usize,
    pub len: usize,
}

// Of a domain: whether it is required, whether the policy allows it, and how many requirements there are.
#[derive(Clone, Copy)]
pub struct Verdict {
    pub required: bool,
    pub allowed: bool,
    pub many: usize,
}

// Bit d of `set`: domain d violates. `count` is how many do.
#[derive(Clone, Copy)]
pub struct Evaluation {
    pub verdicts: [Verdict; 7],
    pub set: u32,
    pub count: usize,
}

// The rule for a domain, or the default, which has no tokens.
pub fn effective(p: Policy, d: Domain) -> Rule
    ensures { result ≡ effective_of p (domain_number d) }
{
    rule_at(p, domain_number(d))
}

#[tactic(auto, unfolding(crate::specs::Evaluate::effective_of))]
fn rule_at(p: Policy, d: usize) -> Rule
    requires { d < 7 }
    ensures { result ≡ effective_of p d }
{
    let Slot { stance, from, len } = p.rules[d];
    match stance {
        Stance::None => Rule {
            allow: p.permit,
            from: 0,
            len: 0,
        },
        Stance::Allow => Rule {
            allow: true,
            from,
            len,
        },
        Stance::Deny => Rule {
            allow: false,
            from,
            len,
        },
    }
}

pub fn is_violation(v: Verdict) -> bool
    ensures { result ≡ violates v }
{
    v.required && !v.allowed
}

// Never true of a refusal.
pub fn is_compliant(e: Result<Evaluation, Refusal>) -> bool
    ensures { result ≡ compliant e }
{
    match e {
        Ok(e) => e.count == 0,
        Err(_) => false,
    }
}

// A row that asks for a domain, by its number.
trait Asking {
    ghost number: { Self → ℕ };

    fn domain(&self) -> usize
        ensures { result ≡ number self.now };
}

impl Asking for usize {
    ghost number = { λ d. d };

    fn domain(&self) -> usize {
        *self
    }
}

// How many of the rows each domain has; 15 for the first row that names none.
fn tally<R: Asking>(rows: &[R]) -> Result<[usize; 7], Refusal>
    ensures { said_by result ≡ tallied (map R.number rows.now) }
{
    let mut many = [0; 7];
    for (i, row) in rows.iter().enumerate() {
        let d = row.domain();
        if LAST_DOMAIN < d {
            return Err(Refusal::BadTable(i));
        }
        many[d] += 1;
    }
    Ok(many)
}

// The verdict on domain d, required so many times.
fn verdict_on(p: Policy, d: usize, many: usize) -> Verdict
    requires { d < 7 }
    ensures { result ≡ verdict_for p d many }
{
    Verdict {
        required: 0 < many,
        allowed: rule_at(p, d).allow,
        many,
    }
}

fn verdicts_of(p: Policy, many: [usize; 7]) -> [Verdict; 7]
    ensures { result ≡ seven_of (λ (d : ℕ). verdict_for p d (get_or many d 0)) }
{
    let none = Verdict {
        required: false,
        allowed: false,
        many: 0,
    };
    let mut verdicts = [none; 7];
    for d in 0..7 {
        verdicts[d] = verdict_on(p, d, many[d]);
    }
    verdicts
}

// The domains that violate, as a set.
fn violations(verdicts: [Verdict; 7]) -> u32
    ensures { (result ≡ bits 0 (firsts 7 (map violates verdicts))) × (ones result ≡ members (firsts 7 (map violates verdicts))) }
{
    let mut set: u32 = 0;
    for d in 0..7 {
        if is_violation(verdicts[d]) {
            set |= 1 << d;
        }
    }
    set
}

// The verdicts of a policy on domains of which each is required so many times.
pub fn judge(p: Policy, many: [usize; 7]) -> Evaluation
    ensures { outcome_in result ≡ outcome_by (seven_of (λ (d : ℕ). verdict_for p d (get_or many d 0))) }
{
    let verdicts = verdicts_of(p, many);
    let set = violations(verdicts);
    Evaluation {
        verdicts,
        set,
        count: set.count_ones() as usize,
    }
}

// The verdicts of a policy on the first n rows; 15 for the count, then for a row that names no domain.
fn evaluate_rows<R: Asking>(rows: &[R], n: usize, p: Policy) -> Result<Evaluation, Refusal>
    ensures { said_evaluation result ≡ evaluated (map R.number rows.now) n p }
{
    let room = table::capacity(rows.len(), REQUIREMENT_WIDTH, MAX_REQUIREMENTS);
    if room < n {
        return Err(Refusal::BadTable(room));
    }
    let many = tally(&rows[..n])?;
    Ok(judge(p, many))
}

// The verdicts of a policy on n requirements, given by their domain numbers.
pub fn evaluate_domains(domains: &[usize], n: usize, p: Policy) -> Result<Evaluation, Refusal>
    ensures { said_evaluation result ≡ evaluated domains.now n p }
{
    evaluate_rows(domains, n, p)
}
