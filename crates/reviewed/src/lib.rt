// The report of a review, as bytes in a lent buffer: a candidate held against a policy, and compared with the approved build.
#![tactic(auto)]

mod escape;
mod lines;
mod rows;

ghost use Rattle.std.specs.Prelude.{◌≡◌, ◌++◌, length};
ghost use Rattle.wasm.specs.Module.{said_module};
ghost use Rattle.differences.specs.Compared.{given_of};
ghost use Rattle.output.specs.Writing.{Added};
ghost use Rattle.reasons.specs.Reasons.{reason_lines};
ghost use Rattle.report.specs.Prints.{Prints, whole_in};
ghost use Rattle.reviewed.specs.Words.{no_room_w};
ghost use Rattle.reviewed.specs.Texts.{domains_text, compliance_text};
ghost use Rattle.reviewed.specs.Review.{file_at, policy_text, rows, BuildRead, build_text, violation_row, compared_text, against_text};
ghost use Rattle.reviewed.specs.Review.{builds_text, verdict_of, review_of, unread_of, or_no_room, verdicts_in};

use crate::lines::{
    put_compliance, put_counts, put_domains, put_name, put_none, put_path, put_reason, put_stand,
    put_verdict,
};
use crate::rows::{put_gone, put_new, put_violations};
use compat::compare_modules;
use differences::GivenModule;
use output::bytes::{Writer, put};
use refusal::{MAX_TEXT, Refusal};
use table::given::GivenTable;
use table::shape::{
    EXPORT_DIFF_WIDTH, EXPORT_WIDTH, IMPORT_WIDTH, NAME_WIDTH, NEED_DIFF_WIDTH, SECTION_WIDTH,
};
use verdicts::{Evaluation, Verdict, is_compliant};
use wasm::{LentTables, Module};

// Every table has so many rows.
const ROWS: usize = 1024;

const SECTIONS: usize = ROWS * SECTION_WIDTH;

const IMPORTS: usize = ROWS * IMPORT_WIDTH;

const EXPORTS: usize = ROWS * EXPORT_WIDTH;

const NAMES: usize = ROWS * NAME_WIDTH;

const EXPORT_DIFFS: usize = ROWS * EXPORT_DIFF_WIDTH;

const NEED_DIFFS: usize = ROWS * NEED_DIFF_WIDTH;

const UNJUDGED: Verdict = Verdict {
    required: false,
    allowed: false,
    many: 0,
};

// A module of at most 65,536 bytes, with tables 2 and 3 for the caller.
fn read_build(file: &[u8], imports: &mut [usize], exports: &mut [usize]) -> Result<Module, Refusal>
    requires { (length imports.old ≡ rows 2) × (length exports.old ≡ rows 3) }
    ensures { BuildRead file.now imports.new exports.new (said_module result) }
{
    if file.len() > MAX_TEXT {
        return Err(Refusal::TooLong);
    }
    let mut tables = LentTables {
        sections: &mut [0; SECTIONS],
        imports,
        exports,
        names: &mut [0; NAMES],
    };
    wasm::read_module(file, &mut tables)
}

// Below its path, a policy's name and default, or why it is refused.
fn put_policy(out: &mut Writer, text: &[u8])
    ensures same_reference { out.new.out.ghost_name ≡ out.old.out.ghost_name }
    ensures added { Added out.old (policy_text text.now) out.new }
{
    match policy::read_policy(text) {
        Err(why) => put_reason(out, why),
        Ok(p) => put_name(out, text, p),
    }
}

// Below its path, what a module counts, or why it is refused.
fn put_build(out: &mut Writer, file: &[u8])
    ensures same_reference { out.new.out.ghost_name ≡ out.old.out.ghost_name }
    ensures added { Added out.old (build_text file.now) out.new }
{
    let mut imports = [0usize; IMPORTS];
    let mut exports = [0usize; EXPORTS];
    match read_build(file, &mut imports, &mut exports) {
        Err(why) => put_reason(out, why),
        Ok(m) => put_counts(out, m),
    }
}

// Whether the candidate can stand in for the baseline, the reasons why not, and the verdict.
fn put_compared(out: &mut Writer, fine: bool, baseline: GivenModule, candidate: GivenModule)
    ensures same_reference { out.new.out.ghost_name ≡ out.old.out.ghost_name }
    ensures added { Added out.old
        (compared_text fine (given_of baseline.entry) (given_of candidate.entry)) out.new }
{
    let mut xd = [0usize; EXPORT_DIFFS];
    let mut cd = [0usize; NEED_DIFFS];
    match compare_modules(baseline, candidate, &mut xd, &mut cd) {
        Err(why) => put_none(out, b"comparison ", why),
        Ok(lists) => {
            put_stand(out, lists.compatible);
            let gone = GivenTable {
                cells: &xd,
                count: lists.exports,
            };
            put_gone(out, baseline, gone);
            let new = GivenTable {
                cells: &cd,
                count: lists.capabilities,
            };
            put_new(out, candidate, new);
            put_verdict(out, fine, lists.compatible);
        }
    }
}

// The seven verdicts; where the check is refused, nothing is required and nothing allowed.
fn verdicts_of(checked: Result<Evaluation, Refusal>) -> [Verdict; 7]
    ensures { result ≡ verdicts_in checked }
{
    match checked {
        Ok(evaluation) => evaluation.verdicts,
        Err(_) => [UNJUDGED; 7],
    }
}

// The verdicts of a candidate's check: the seven domains, whether it is compliant, and each import that is not allowed.
fn put_check(out: &mut Writer, fine: bool, verdicts: [Verdict; 7], candidate: GivenModule)
    ensures same_reference { out.new.out.ghost_name ≡ out.old.out.ghost_name }
    ensures added { Added out.old (domains_text verdicts ++ (compliance_text fine verdicts
        ++ reason_lines (violation_row candidate.entry.file.now candidate.entry.imports.cells.now verdicts)
        candidate.entry.imports.count)) out.new }
{
    put_domains(out, verdicts);
    put_compliance(out, fine, verdicts);
    put_violations(out, candidate, verdicts);
}

// A baseline that was read against a candidate's file.
fn put_against(out: &mut Writer, text: &[u8], baseline: GivenModule, candidate: &[u8])
    ensures same_reference { out.new.out.ghost_name ≡ out.old.out.ghost_name }
    ensures added { Added out.old (against_text text.now (given_of baseline.entry) candidate.now) out.new }
{
    let mut imports = [0usize; IMPORTS];
    let mut exports = [0usize; EXPORTS];
    match read_build(candidate, &mut imports, &mut exports) {
        Err(why) => put_none(out, b"", why),
        Ok(m) => {
            let checked = checking::check_module(candidate, text);
            let fine = is_compliant(checked);
            let candidate = GivenModule {
                file: candidate,
                imports: GivenTable {
                    cells: &imports,
                    count: m.imports,
                },
                exports: GivenTable {
                    cells: &exports,
                    count: m.exports,
                },
            };
            put_check(out, fine, verdicts_of(checked), candidate);
            put_compared(out, fine, baseline, candidate);
        }
    }
}

// Two files under a policy that was read.
fn put_builds(out: &mut Writer, text: &[u8], baseline: &[u8], candidate: &[u8])
    ensures same_reference { out.new.out.ghost_name ≡ out.old.out.ghost_name }
    ensures added { Added out.old (builds_text text.now baseline.now candidate.now) out.new }
{
    let mut imports = [0usize; IMPORTS];
    let mut exports = [0usize; EXPORTS];
    match read_build(baseline, &mut imports, &mut exports) {
        Err(why) => put_none(out, b"baseline ", why),
        Ok(m) => {
            let baseline = GivenModule {
                file: baseline,
                imports: GivenTable {
                    cells: &imports,
                    count: m.imports,
                },
                exports: GivenTable {
                    cells: &exports,
                    count: m.exports,
                },
            };
            put_against(out, text, baseline, candidate);
        }
    }
}

// All that follows the files.
fn put_verdicts(out: &mut Writer, text: &[u8], baseline: &[u8], candidate: &[u8])
    ensures same_reference { out.new.out.ghost_name ≡ out.old.out.ghost_name }
    ensures added { Added out.old (verdict_of text.now baseline.now candidate.now) out.new }
{
    match policy::read_policy(text) {
        Err(why) => put_none(out, b"policy ", why),
        Ok(_) => put_builds(out, text, baseline, candidate),
    }
}

fn put_report(
    out: &mut Writer,
    text_path: &[u8],
    text: &[u8],
    baseline_path: &[u8],
    baseline: &[u8],
    candidate_path: &[u8],
    candidate: &[u8],
)
    ensures same_reference { out.new.out.ghost_name ≡ out.old.out.ghost_name }
    ensures added { Added out.old (review_of (file_at text_path.now text.now)
        (file_at baseline_path.now baseline.now)
        (file_at candidate_path.now candidate.now)) out.new }
{
    put_path(out, b"policy: ", text_path);
    put_policy(out, text);
    put_path(out, b"baseline: ", baseline_path);
    put_build(out, baseline);
    put_path(out, b"candidate: ", candidate_path);
    put_build(out, candidate);
    put_verdicts(out, text, baseline, candidate);
}

// Where the report has no room.
fn put_no_room(out: &mut [u8]) -> usize
    ensures { Prints (whole_in (length out.old) no_room_w) out.old result out.new }
{
    let line = b"verdict: none, no room for the report\n";
    if out.len() < line.len() {
        return 0;
    }
    // One line, put by one call: a writer would be made for it alone.
    put(out, 0, line, true)
}

// The report of a candidate: the policy, the baseline, the candidate's check, whether it can stand in, and one verdict line.
pub fn review_text<'a, 'b, 'c, 'd, 'e, 'f>(
    text_path: &'b [u8],
    text: &'c [u8],
    baseline_path: &'d [u8],
    baseline: &'a [u8],
    candidate_path: &'e [u8],
    candidate: &'a [u8],
    out: &'f mut [u8],
) -> usize
    ensures { Prints (or_no_room (length out.old) (review_of (file_at text_path.now text.now)
        (file_at baseline_path.now baseline.now)
        (file_at candidate_path.now candidate.now))) out.old result out.new }
{
    let mut counted = Writer::counting(out, 0);
    put_report(
        &mut counted,
        text_path,
        text,
        baseline_path,
        baseline,
        candidate_path,
        candidate,
    );
    let n = counted.at;
    if out.len() <= n {
        return put_no_room(out);
    }
    let mut written = Writer::writing(out, 0);
    put_report(
        &mut written,
        text_path,
        text,
        baseline_path,
        baseline,
        candidate_path,
        candidate,
    );
    written.at
}

fn put_unread(out: &mut Writer, whose: &[u8], path: &[u8])
    ensures same_reference { out.new.out.ghost_name ≡ out.old.out.ghost_name }
    ensures added { Added out.old (unread_of whose.now path.now) out.new }
{
    put_path(out, b"candidate: ", path);
    out.put(b"verdict: none, ");
    out.put(whose);
    out.put(b"not readable\n");
}

// Of a candidate that cannot be read, or whose policy or baseline cannot: `whose` is `policy `, `baseline ` or nothing.
pub fn unread_text(whose: &[u8], path: &[u8], out: &mut [u8]) -> usize
    ensures { Prints (or_no_room (length out.old) (unread_of whose.now path.now)) out.old result
        out.new }
{
    let mut counter = Writer::counting(out, 0);
    put_unread(&mut counter, whose, path);
    let n = counter.at;
    if out.len() <= n {
        return put_no_room(out);
    }
    let mut writer = Writer::writing(out, 0);
    put_unread(&mut writer, whose, path);
    writer.at
}
