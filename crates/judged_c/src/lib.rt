// The symbols of the calls that the comparison with the original and the records drive: each is judged's call of its name, with judged's
// clauses. A static library, as no crate can be that and a library too.
#![tactic(auto)]

ghost use Rattle.std.specs.Prelude.{length, ◌≡◌, leb, ◌-◌, false, true};
ghost use Rattle.differences.specs.Compared.{compared, given};
ghost use Rattle.differences.specs.Part.{diff_bytes};
ghost use Rattle.differences.specs.Rank.{change_word};
ghost use Rattle.domains.specs.Classify.{import_domain, path_domain};
ghost use Rattle.domains.specs.Domain.{domain_of};
ghost use Rattle.import_rows.specs.Queries.{imported_of, namespaces_of};
ghost use Rattle.judged.specs.Compares.{CompareTells, name_told, change_at, word_told};
ghost use Rattle.judged.specs.Cursors.{skip_told, left_told};
ghost use Rattle.judged.specs.Manifests.{ManifestTells};
ghost use Rattle.judged.specs.Policies.{effective_asked, policy_in};
ghost use Rattle.judged.specs.Rows.{ListTells, RequireTells, ModuleTells, count_told};
ghost use Rattle.judged.specs.Words.{perhaps_number, domain_told};
ghost use Rattle.kinds.specs.Kinds.{kind_word, kind_of, kind_byte, section_word};
ghost use Rattle.leb.specs.Reads.{byte_at, fixed_at, taken_at, skip_at};
ghost use Rattle.policy_text.specs.Writer.{written};
ghost use Rattle.reasons.specs.Reasons.{reasoned, diffs};
ghost use Rattle.reference_rows.specs.Queries.{paths_of};
ghost use Rattle.refusal.specs.Slug.{slug_of};
ghost use Rattle.requirements.specs.Interfaces.{reference_domain, manifest_rows};
ghost use Rattle.requirements.specs.Requirements.{room_of, row_domain, module_rows};
ghost use Rattle.strict.specs.Rules.{strict_at};
ghost use Rattle.table.specs.Shape.{capacity_in};
ghost use Rattle.told.specs.Check.{evaluation_told};
ghost use Rattle.told.specs.Policies.{WriteTells, token_told, token_asked};
ghost use Rattle.told.specs.Reading.{unsigned_told, range_told};
ghost use Rattle.verdicts.specs.Evaluate.{evaluated};
ghost use Rattle.verdicts.specs.Records.{numbers};
ghost use Rattle.wasm.specs.Module.{sizes, module_at, lend};
ghost use Rattle.wit.specs.Manifest.{manifest_sizes, manifest_at, lend_manifest};

use judged::compares::{CompareTold, NameTold};
use judged::cursors::{LeftTold, SkipTold};
use judged::manifests::ManifestTold;
use judged::policies::EffectiveTold;
use judged::rows::{CountTold, ModuleTold};
use told::check::EvaluationTold;
use told::cursor::{Range, Unsigned};
use told::policies::{TokenTold, WrittenTold};
use verdicts::records::Requirement;

// Tables 8 and 9: what was removed from the baseline and added in the candidate.
#[unsafe(no_mangle)]
pub extern "C" fn judged_compare<'a, 'b, 'c, 'd, 'e, 'f, 'g>(
    baseline: &'a [u8],
    bi: &'b [usize],
    be: &'c [usize],
    candidate: &'a [u8],
    ci: &'d [usize],
    ce: &'e [usize],
    xd: &'f mut [usize],
    cd: &'g mut [usize],
    nbi: usize,
    nbe: usize,
    nci: usize,
    nce: usize,
) -> CompareTold
    ensures { CompareTells (compared (given baseline.now bi.now nbi be.now nbe)
        (given candidate.now ci.now nci ce.now nce)
        (capacity_in 8 (length xd.old)) (capacity_in 9 (length cd.old)))
        xd.old xd.new cd.old cd.new result }
{
    judged::compares::judged_compare(
        baseline, bi, be, candidate, ci, ce, xd, cd, nbi, nbe, nci, nce,
    )
}

// Of the name of an export that was removed (0) or added, byte k.
#[unsafe(no_mangle)]
pub extern "C" fn judged_export_name<'a, 'b, 'c>(
    baseline: &'a [u8],
    be: &'b [usize],
    candidate: &'a [u8],
    ce: &'c [usize],
    nbe: usize,
    nce: usize,
    change: usize,
    row: usize,
    k: usize,
) -> NameTold
    ensures { result ≡ name_told (diff_bytes baseline.now be.now nbe
        candidate.now ce.now nce 3 (change_at change) row) k }
{
    judged::compares::judged_export_name(baseline, be, candidate, ce, nbe, nce, change, row, k)
}

// And of the module name of a pair.
#[unsafe(no_mangle)]
pub extern "C" fn judged_source_name<'a, 'b, 'c>(
    baseline: &'a [u8],
    bi: &'b [usize],
    candidate: &'a [u8],
    ci: &'c [usize],
    nbi: usize,
    nci: usize,
    change: usize,
    row: usize,
    k: usize,
) -> NameTold
    ensures { result ≡ name_told (diff_bytes baseline.now bi.now nbi
        candidate.now ci.now nci 2 (change_at change) row) k }
{
    judged::compares::judged_source_name(baseline, bi, candidate, ci, nbi, nci, change, row, k)
}

// Why the candidate cannot stand in for the baseline, in words.
#[unsafe(no_mangle)]
pub extern "C" fn judged_reasons(
    baseline: &[u8],
    bi: &[usize],
    be: &[usize],
    candidate: &[u8],
    ci: &[usize],
    ce: &[usize],
    xd: &[usize],
    cd: &[usize],
    out: &mut [u8],
    nbi: usize,
    nbe: usize,
    nci: usize,
    nce: usize,
    nxd: usize,
    ncd: usize,
) -> WrittenTold
    ensures { WriteTells (reasoned (given baseline.now bi.now nbi be.now nbe)
        (given candidate.now ci.now nci ce.now nce)
        (diffs xd.now nxd cd.now ncd) (length out.old)) out.old result out.new }
{
    judged::compares::judged_reasons(
        baseline, bi, be, candidate, ci, ce, xd, cd, out, nbi, nbe, nci, nce, nxd, ncd,
    )
}

#[unsafe(no_mangle)]
pub extern "C" fn judged_u8(s: &[u8], at: usize) -> Unsigned
    ensures { result ≡ unsigned_told (byte_at s.now at) }
{
    judged::cursors::judged_u8(s, at)
}

#[unsafe(no_mangle)]
pub extern "C" fn judged_u32_le(s: &[u8], at: usize) -> Unsigned
    ensures { result ≡ unsigned_told (fixed_at s.now at) }
{
    judged::cursors::judged_u32_le(s, at)
}

#[unsafe(no_mangle)]
pub extern "C" fn judged_take(s: &[u8], at: usize, n: usize) -> Range
    ensures { result ≡ range_told (taken_at s.now at n) }
{
    judged::cursors::judged_take(s, at, n)
}

#[unsafe(no_mangle)]
pub extern "C" fn judged_skip(s: &[u8], at: usize, n: usize) -> SkipTold
    ensures { result ≡ skip_told (skip_at s.now at n) }
{
    judged::cursors::judged_skip(s, at, n)
}

#[unsafe(no_mangle)]
pub extern "C" fn judged_left(s: &[u8], at: usize) -> LeftTold
    ensures { result ≡ left_told at (length s.now - at) (leb (length s.now) at) }
{
    judged::cursors::judged_left(s, at)
}

#[unsafe(no_mangle)]
pub extern "C" fn judged_manifest(
    text: &[u8],
    worlds: &mut [usize],
    references: &mut [usize],
) -> ManifestTold
    ensures { ManifestTells (manifest_sizes worlds.old references.old)
        (manifest_at text.now (manifest_sizes worlds.old references.old))
        (lend_manifest worlds.new references.new) result }
{
    judged::manifests::judged_manifest(text, worlds, references)
}

// Table 15: of each path that is imported the lowest row, by bytes.
#[unsafe(no_mangle)]
pub extern "C" fn judged_imports(
    text: &[u8],
    worlds: &[usize],
    references: &[usize],
    sorted: &mut [usize],
    n5: usize,
    n6: usize,
) -> CountTold
    ensures { ListTells (paths_of false text.now worlds.now n5 references.now n6
        (length sorted.old)) sorted.old sorted.new result }
{
    judged::manifests::judged_imports(text, worlds, references, sorted, n5, n6)
}

// And of each that is exported.
#[unsafe(no_mangle)]
pub extern "C" fn judged_exports(
    text: &[u8],
    worlds: &[usize],
    references: &[usize],
    sorted: &mut [usize],
    n5: usize,
    n6: usize,
) -> CountTold
    ensures { ListTells (paths_of true text.now worlds.now n5 references.now n6
        (length sorted.old)) sorted.old sorted.new result }
{
    judged::manifests::judged_exports(text, worlds, references, sorted, n5, n6)
}

// Table 7: of each path that is imported the domain and the lowest row, by bytes.
#[unsafe(no_mangle)]
pub extern "C" fn judged_needs(
    text: &[u8],
    worlds: &[usize],
    references: &[usize],
    domains: &mut [usize],
    rows: &mut [usize],
    n5: usize,
    n6: usize,
) -> CountTold
    ensures { RequireTells (reference_domain text.now references.now)
        (manifest_rows text.now worlds.now n5 references.now n6
        (room_of (length domains.old) (length rows.old)))
        domains.old domains.new rows.old rows.new result }
{
    judged::manifests::judged_needs(text, worlds, references, domains, rows, n5, n6)
}

// The rule that holds for a domain; of a number above 6 there is none.
#[unsafe(no_mangle)]
pub extern "C" fn judged_effective(cells: &[usize], domain: usize) -> EffectiveTold
    ensures { result ≡ effective_asked (policy_in cells.now) domain }
{
    judged::policies::judged_effective(cells, domain)
}

#[unsafe(no_mangle)]
pub extern "C" fn judged_token(
    text: &[u8],
    cells: &[usize],
    domain: usize,
    from: usize,
) -> TokenTold
    ensures { result ≡ token_told (token_asked text.now (policy_in cells.now) domain from) }
{
    judged::policies::judged_token(text, cells, domain, from)
}

#[unsafe(no_mangle)]
pub extern "C" fn judged_write(text: &[u8], cells: &[usize], out: &mut [u8]) -> WrittenTold
    ensures { WriteTells (written text.now (policy_in cells.now) (length out.old))
        out.old result out.new }
{
    judged::policies::judged_write(text, cells, out)
}

#[unsafe(no_mangle)]
pub extern "C" fn judged_evaluate(domains: &[usize], n: usize, cells: &[usize]) -> EvaluationTold
    ensures { result ≡ evaluation_told (evaluated domains.now n (policy_in cells.now)) }
{
    judged::policies::judged_evaluate(domains, n, cells)
}

#[unsafe(no_mangle)]
pub extern "C" fn judged_evaluate_records(
    list: &[Requirement],
    n: usize,
    cells: &[usize],
) -> EvaluationTold
    ensures { result ≡ evaluation_told (evaluated (numbers list.now) n (policy_in cells.now)) }
{
    judged::policies::judged_evaluate_records(list, n, cells)
}

#[unsafe(no_mangle)]
pub extern "C" fn judged_import(source: &[u8], field: &[u8]) -> usize
    ensures { result ≡ import_domain source.now field.now }
{
    judged::policies::judged_import(source, field)
}

#[unsafe(no_mangle)]
pub extern "C" fn judged_path(path: &[u8]) -> usize
    ensures { result ≡ path_domain path.now }
{
    judged::policies::judged_path(path)
}

#[unsafe(no_mangle)]
pub extern "C" fn judged_module(
    file: &[u8],
    sections: &mut [usize],
    imports: &mut [usize],
    exports: &mut [usize],
    names: &mut [usize],
) -> ModuleTold
    ensures { ModuleTells (length file.now)
        (sizes sections.old imports.old exports.old names.old)
        (module_at file.now (sizes sections.old imports.old exports.old names.old))
        (lend sections.new imports.new exports.new names.new) result }
{
    judged::rows::judged_module(file, sections, imports, exports, names)
}

#[unsafe(no_mangle)]
pub extern "C" fn judged_strict(
    file: &[u8],
    sections: &mut [usize],
    imports: &mut [usize],
    exports: &mut [usize],
    names: &mut [usize],
) -> ModuleTold
    ensures { ModuleTells (length file.now)
        (sizes sections.old imports.old exports.old names.old)
        (strict_at file.now (sizes sections.old imports.old exports.old names.old))
        (lend sections.new imports.new exports.new names.new) result }
{
    judged::rows::judged_strict(file, sections, imports, exports, names)
}

#[unsafe(no_mangle)]
pub extern "C" fn judged_functions(imports: &[usize], n: usize) -> CountTold
    ensures { result ≡ count_told (imported_of imports.now n 0) }
{
    judged::rows::judged_functions(imports, n)
}

#[unsafe(no_mangle)]
pub extern "C" fn judged_memories(imports: &[usize], n: usize) -> CountTold
    ensures { result ≡ count_told (imported_of imports.now n 2) }
{
    judged::rows::judged_memories(imports, n)
}

#[unsafe(no_mangle)]
pub extern "C" fn judged_namespaces(
    file: &[u8],
    imports: &[usize],
    n: usize,
    sorted: &mut [usize],
) -> CountTold
    ensures { ListTells (namespaces_of file.now imports.now n (length sorted.old))
        sorted.old sorted.new result }
{
    judged::rows::judged_namespaces(file, imports, n, sorted)
}

// Table 7: of each function that is imported the domain and the row.
#[unsafe(no_mangle)]
pub extern "C" fn judged_requirements(
    file: &[u8],
    imports: &[usize],
    domains: &mut [usize],
    rows: &mut [usize],
    n: usize,
) -> CountTold
    ensures { RequireTells (row_domain file.now imports.now)
        (module_rows file.now imports.now n (room_of (length domains.old) (length rows.old)))
        domains.old domains.new rows.old rows.new result }
{
    judged::rows::judged_requirements(file, imports, domains, rows, n)
}

// Of the word of a kind byte, byte k.
#[unsafe(no_mangle)]
pub extern "C" fn judged_kind(b: u8, k: usize) -> NameTold
    ensures { result ≡ word_told (slug_of (kind_word (kind_of b))) k }
{
    judged::words::judged_kind(b, k)
}

#[unsafe(no_mangle)]
pub extern "C" fn judged_kind_byte(b: u8) -> u8
    ensures { result ≡ kind_byte (kind_of b) }
{
    judged::words::judged_kind_byte(b)
}

#[unsafe(no_mangle)]
pub extern "C" fn judged_section(id: u8, k: usize) -> NameTold
    ensures { result ≡ word_told (slug_of (section_word id)) k }
{
    judged::words::judged_section(id, k)
}

#[unsafe(no_mangle)]
pub extern "C" fn judged_change(change: usize, k: usize) -> NameTold
    ensures { result ≡ word_told (slug_of (change_word (change_at change))) k }
{
    judged::words::judged_change(change, k)
}

// The domain that a word names, by its number; 7 where it names none.
#[unsafe(no_mangle)]
pub extern "C" fn judged_slug(word: &[u8]) -> usize
    ensures { result ≡ perhaps_number (domain_of word.now) }
{
    judged::words::judged_slug(word)
}

// Of the word of a domain, byte k; a number above 6 has no word.
#[unsafe(no_mangle)]
pub extern "C" fn judged_domain(domain: usize, k: usize) -> NameTold
    ensures { result ≡ domain_told domain k }
{
    judged::words::judged_domain(domain, k)
}
