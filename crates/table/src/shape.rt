// The shape of every table: the cells of a row, the most rows, and the cells of a table that has them all. docs/RULES.md, "Tables";
// specs/Shape.antt has the same numbers, by the table's number.

// 1, sections: id; payload: from, size; a custom section's name: from, length.
pub const SECTION_WIDTH: usize = 5;

pub const MAX_SECTIONS: usize = 256;

pub const SECTION_CELLS: usize = MAX_SECTIONS * SECTION_WIDTH;

// 2, imports: module: from, length; field: from, length; kind; what is asked for: type index; type byte; flag, least, most;
// mutability; and which of these six are given.
pub const IMPORT_WIDTH: usize = 12;

// Its columns: where the ranges of the two names begin, the kind, the first of the six, the flag, and the mark of which are given.
pub const IMPORT_MODULE: usize = 0;

pub const IMPORT_FIELD: usize = 2;

pub const IMPORT_KIND: usize = 4;

pub const IMPORT_TYPE: usize = 5;

pub const IMPORT_FLAG: usize = 7;

pub const IMPORT_GIVEN: usize = 11;

// The kinds of what is imported or exported.
pub const FUNC: usize = 0;

pub const TABLE: usize = 1;

pub const MEMORY: usize = 2;

pub const GLOBAL: usize = 3;

pub const MAX_IMPORTS: usize = 1024;

pub const IMPORT_CELLS: usize = MAX_IMPORTS * IMPORT_WIDTH;

// 3, exports: name: from, length; kind; index.
pub const EXPORT_WIDTH: usize = 4;

// Its columns: where the name's range begins, and the kind.
pub const EXPORT_NAME: usize = 0;

pub const EXPORT_KIND: usize = 2;

pub const MAX_EXPORTS: usize = 1024;

pub const EXPORT_CELLS: usize = MAX_EXPORTS * EXPORT_WIDTH;

// 4, function names: index; name: from, length.
pub const NAME_WIDTH: usize = 3;

pub const MAX_NAMES: usize = 4096;

pub const NAME_CELLS: usize = MAX_NAMES * NAME_WIDTH;

// 5, worlds: name: from, length.
pub const WORLD_WIDTH: usize = 2;

pub const WORLD_NAME: usize = 0;

pub const MAX_WORLDS: usize = 64;

pub const WORLD_CELLS: usize = MAX_WORLDS * WORLD_WIDTH;

// 6, references: world's row; direction; path: from, length; whether there is a signature; it: from, length.
pub const REFERENCE_WIDTH: usize = 7;

// Its columns: the world's row, and where the ranges of the path and of the signature begin.
pub const REFERENCE_WORLD: usize = 0;

pub const REFERENCE_PATH: usize = 2;

pub const REFERENCE_SIGNATURE: usize = 5;

pub const MAX_REFERENCES: usize = 1024;

pub const REFERENCE_CELLS: usize = MAX_REFERENCES * REFERENCE_WIDTH;

// 7, requirements: a column of domain numbers and one of row numbers.
pub const REQUIREMENT_WIDTH: usize = 1;

pub const MAX_REQUIREMENTS: usize = 1024;

// 8, export differences: removed or added; row of table 3.
pub const EXPORT_DIFF_WIDTH: usize = 2;

// Its columns; and a change that is removed, in table 9 too.
pub const EXPORT_DIFF_CHANGE: usize = 0;

pub const EXPORT_DIFF_ROW: usize = 1;

pub const REMOVED: usize = 0;

pub const MAX_EXPORT_DIFFS: usize = 2048;

pub const EXPORT_DIFF_CELLS: usize = MAX_EXPORT_DIFFS * EXPORT_DIFF_WIDTH;

// 9, capability differences: removed or added; domain; row of table 2.
pub const NEED_DIFF_WIDTH: usize = 3;

pub const NEED_DIFF_CHANGE: usize = 0;

pub const NEED_DIFF_DOMAIN: usize = 1;

pub const NEED_DIFF_ROW: usize = 2;

pub const MAX_NEED_DIFFS: usize = 2048;

pub const NEED_DIFF_CELLS: usize = MAX_NEED_DIFFS * NEED_DIFF_WIDTH;

// 15, sorted names: row number.
pub const MAX_SORTED: usize = 1024;

// Tables 1 to 4 for few rows, 16 to a table and 8 function names: cleared in no time, and enough for most files.
pub const FEW_SECTION_CELLS: usize = 16 * SECTION_WIDTH;

pub const FEW_IMPORT_CELLS: usize = 16 * IMPORT_WIDTH;

pub const FEW_EXPORT_CELLS: usize = 16 * EXPORT_WIDTH;

pub const FEW_NAME_CELLS: usize = 8 * NAME_WIDTH;
