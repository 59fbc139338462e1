// The eight rules, of the rows that a plain read leaves and of the marks of the second walk.
ghost use Rattle.std.specs.Prelude.{◌≡◌, ◌≤◌};
ghost use Rattle.table.specs.Shape.{width, limit};
ghost use Rattle.strict.specs.Rules.{section_place, none_above, ordered, different, column_of, names_of};
ghost use Rattle.strict.specs.Rules.{number_of_rule, rule_told, broken_in};

use crate::again::Marks;
use crate::quick::{FEW, FEW_PLACES, FIRST_SPOT, all_new_in, parting_of, surely_differ};
use table::shape::{EXPORT_WIDTH, MAX_EXPORTS, SECTION_WIDTH};

// What the rules name: the version (rule 1), the last section id (3), the last export kind (7).
const VERSION: u32 = 1;

const LAST_ID: usize = 12;

// The place of a custom section, which may stand anywhere.
const CUSTOM: usize = 0;

const LAST_KIND: usize = 3;

// The rules that a file can break, with their numbers.
#[derive(Clone, Copy)]
pub(crate) enum Rule {
    Version = 1,
    ShortNumbers = 2,
    KnownSections = 3,
    SectionOrder = 4,
    UsedSections = 5,
    DifferentNames = 6,
    KnownExports = 7,
    PlainFlags = 8,
}

impl Rule {
    pub(crate) fn number(self) -> usize
        ensures { result ≡ number_of_rule self }
    {
        self as usize
    }
}

// Where a section stands among those with an id of their own: 1 to 9, 12, 10, 11; custom ones are 0, ids above 12 come last.
fn section_place(id: usize) -> usize
    ensures { result ≡ section_place id }
{
    match id {
        0..=9 => id,
        10 => 11,
        11 => 12,
        12 => 10,
        _ => 13,
    }
}

// The first n cells of a column are at most `last`.
fn at_most(table: &[usize], wide: usize, column: usize, n: usize, last: usize) -> bool
    ensures { result ≡ none_above last (column_of table.now wide column n) }
{
    (0..n).all(|i| table::cell(table, wide, i, column) <= last)
}

// The first n sections stand in order, each once but for custom ones.
fn in_order(sections: &[usize], n: usize) -> bool
    ensures { result ≡ ordered (column_of sections.now (width 1) 0 n) }
{
    let mut last = 0;
    for i in 0..n {
        let place = section_place(table::cell(sections, SECTION_WIDTH, i, 0));
        if place != CUSTOM {
            if place <= last {
                return false;
            }
            last = place;
        }
    }
    true
}

// The first n export names are all different: as many are left when they are sorted and repeats are dropped.
fn sorted_differ(file: &[u8], exports: &[usize], n: usize) -> bool
    requires { n ≤ limit 3 }
    ensures { result ≡ different (names_of file.now exports.now n) }
{
    let mut sorted = [0usize; MAX_EXPORTS];
    let names = sorting::Rows {
        first: file,
        second: file,
        cells: exports,
        keys: sorting::by_name(EXPORT_WIDTH, 0, 1, EXPORT_WIDTH, 0),
    };
    let left = names.sort(n, &mut sorted);
    left == Some(n)
}

// The same by quick looks: few names were looked at already. They are sorted where these do not tell.
fn looked_differ(file: &[u8], exports: &[usize], n: usize) -> bool
    requires { n ≤ limit 3 }
    ensures { result ≡ different (names_of file.now exports.now n) }
{
    if n > FEW && surely_differ(file, exports, n, FIRST_SPOT) {
        return true;
    }
    let spot = parting_of(file, exports, n);
    if surely_differ(file, exports, n, spot) {
        return true;
    }
    sorted_differ(file, exports, n)
}

// The same by a first look at few names, and by more where that does not tell. It calls itself for more, so that the pages of more marks
// and of the sort are not touched where they are not used (docs/DECISIONS.md).
fn names_differ(file: &[u8], more: bool, exports: &[usize], n: usize) -> bool
    requires { n ≤ limit 3 }
    ensures { result ≡ different (names_of file.now exports.now n) }
{
    if n < 2 {
        return true;
    }
    if more {
        return looked_differ(file, exports, n);
    }
    if n <= FEW && all_new_in::<FEW_PLACES>(file, exports, n, FIRST_SPOT) {
        return true;
    }
    names_differ(file, true, exports, n)
}

// The lowest rule that is broken, of n rows of table 1, k rows of table 3 and the marks.
pub(crate) fn lowest<'a, 'b>(
    file: &'a [u8],
    version: u32,
    sections: &'b [usize],
    n: usize,
    exports: &'b [usize],
    k: usize,
    m: Marks,
) -> Option<Rule>
    requires { k ≤ limit 3 }
    ensures { rule_told result ≡ broken_in file.now version sections.now n exports.now k m }
{
    if version != VERSION {
        return Some(Rule::Version);
    }
    if !m.short {
        return Some(Rule::ShortNumbers);
    }
    if !at_most(sections, SECTION_WIDTH, 0, n, LAST_ID) {
        return Some(Rule::KnownSections);
    }
    if !in_order(sections, n) {
        return Some(Rule::SectionOrder);
    }
    if !m.used {
        return Some(Rule::UsedSections);
    }
    if !names_differ(file, false, exports, k) {
        return Some(Rule::DifferentNames);
    }
    if !at_most(exports, EXPORT_WIDTH, 2, k, LAST_KIND) {
        return Some(Rule::KnownExports);
    }
    if !m.plain {
        return Some(Rule::PlainFlags);
    }
    None
}
