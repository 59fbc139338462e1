// The symbols of the C interface (include/viscrombal.h): each is capi's call of its name, with capi's clauses. A static library, as no
// crate can be that and a library too.
#![tactic(auto)]

ghost use Rattle.std.specs.Prelude.{◌≡◌, length};
ghost use Rattle.capi.specs.Interface.{interface_number};
ghost use Rattle.capi.specs.Policies.{policy_told, token_read, rewritten};
ghost use Rattle.capi.specs.Reading.{signed_told};
ghost use Rattle.checking.specs.Checking.{checked_of};
ghost use Rattle.conform.specs.Sound.{limits};
ghost use Rattle.leb.specs.Reads.{uleb_at, u32_at, sleb_at, name_at};
ghost use Rattle.listed.specs.Comparisons.{comparison_bytes, comparison_told, comparison};
ghost use Rattle.listed.specs.Delivered.{Delivers};
ghost use Rattle.listed.specs.Manifests.{manifest_bytes, manifest_told, manifest_listed};
ghost use Rattle.listed.specs.Modules.{module_bytes, module_told};
ghost use Rattle.listed.specs.Tokens.{tokens_bytes, tokens_told, tokens_read};
ghost use Rattle.policy.specs.Reader.{read_policy};
ghost use Rattle.strict.specs.Rules.{tested_at};
ghost use Rattle.told.specs.Answers.{answer_told};
ghost use Rattle.told.specs.Check.{evaluation_told};
ghost use Rattle.told.specs.Policies.{token_told, WriteTells};
ghost use Rattle.told.specs.Reading.{unsigned_told, range_told};
ghost use Rattle.wasm.specs.Module.{module_at};

use capi::cursor::Signed;
use capi::policies::PolicyTold;
use listed::comparison::ComparisonTold;
use listed::manifests::ManifestTold;
use listed::modules::ModuleTold;
use listed::tokens::TokensTold;
use told::answers::AnswerTold;
use told::check::EvaluationTold;
use told::cursor::{Range, Unsigned};
use told::policies::{TokenTold, WrittenTold};

// The whole check of a module's file against a policy's text.
#[unsafe(no_mangle)]
pub extern "C" fn viscrombal_check(file: &[u8], text: &[u8]) -> EvaluationTold
    ensures { result ≡ evaluation_told (checked_of file.now text.now) }
{
    capi::check::viscrombal_check(file, text)
}

#[unsafe(no_mangle)]
pub extern "C" fn viscrombal_uleb128(s: &[u8], at: usize) -> Unsigned
    ensures { result ≡ unsigned_told (uleb_at s.now at) }
{
    capi::cursor::viscrombal_uleb128(s, at)
}

#[unsafe(no_mangle)]
pub extern "C" fn viscrombal_uleb128_u32(s: &[u8], at: usize) -> Unsigned
    ensures { result ≡ unsigned_told (u32_at s.now at) }
{
    capi::cursor::viscrombal_uleb128_u32(s, at)
}

#[unsafe(no_mangle)]
pub extern "C" fn viscrombal_sleb128(s: &[u8], at: usize) -> Signed
    ensures { result ≡ signed_told (sleb_at s.now at) }
{
    capi::cursor::viscrombal_sleb128(s, at)
}

#[unsafe(no_mangle)]
pub extern "C" fn viscrombal_name(s: &[u8], at: usize) -> Range
    ensures { result ≡ range_told (name_at s.now at) }
{
    capi::cursor::viscrombal_name(s, at)
}

// A change of a struct, of a number or of a place raises it.
#[unsafe(no_mangle)]
pub extern "C" fn viscrombal_interface() -> u32
    ensures { result ≡ interface_number }
{
    capi::interface::viscrombal_interface()
}

// A module's file: the rows of tables 1 to 4, eight bytes a cell. Refused, nothing is touched; accepted, nothing past the rows.
#[unsafe(no_mangle)]
pub extern "C" fn viscrombal_module(file: &[u8], out: &mut [u8]) -> ModuleTold
    ensures { Delivers module_bytes (module_told (length file.now)) (module_at file.now limits)
        out.old result out.new }
{
    capi::lists::viscrombal_module(file, out)
}

// A manifest's text: the rows of tables 5 and 6, then the rows by the paths that are imported, then by those that are exported.
#[unsafe(no_mangle)]
pub extern "C" fn viscrombal_manifest(text: &[u8], out: &mut [u8]) -> ManifestTold
    ensures { Delivers manifest_bytes manifest_told (manifest_listed text.now) out.old result out.new }
{
    capi::lists::viscrombal_manifest(text, out)
}

// Two builds: the rows of tables 8 and 9, whose row numbers are those of the module they came from, then the breaking reasons as text.
#[unsafe(no_mangle)]
pub extern "C" fn viscrombal_compare(
    baseline: &[u8],
    candidate: &[u8],
    out: &mut [u8],
) -> ComparisonTold
    ensures { Delivers comparison_bytes comparison_told (comparison baseline.now candidate.now)
        out.old result out.new }
{
    capi::lists::viscrombal_compare(baseline, candidate, out)
}

// A policy's text: the ranges of the tokens of a domain's list, each its offset in the text and its length.
#[unsafe(no_mangle)]
pub extern "C" fn viscrombal_tokens(text: &[u8], domain: usize, out: &mut [u8]) -> TokensTold
    ensures { Delivers tokens_bytes tokens_told (tokens_read text.now domain) out.old result out.new }
{
    capi::lists::viscrombal_tokens(text, domain, out)
}

#[unsafe(no_mangle)]
pub extern "C" fn viscrombal_policy(text: &[u8]) -> PolicyTold
    ensures { result ≡ policy_told (read_policy text.now) }
{
    capi::policies::viscrombal_policy(text)
}

// The first token of a domain's list at or after offset `from`.
#[unsafe(no_mangle)]
pub extern "C" fn viscrombal_token(text: &[u8], domain: usize, from: usize) -> TokenTold
    ensures { result ≡ token_told (token_read text.now domain from) }
{
    capi::policies::viscrombal_token(text, domain, from)
}

// The reader, then the writer. Refused, nothing is touched; accepted, nothing past the text.
#[unsafe(no_mangle)]
pub extern "C" fn viscrombal_rewrite(text: &[u8], out: &mut [u8]) -> WrittenTold
    ensures { WriteTells (rewritten text.now (length out.old)) out.old result out.new }
{
    capi::policies::viscrombal_rewrite(text, out)
}

// Whether a module's file is clean in what is read.
#[unsafe(no_mangle)]
pub extern "C" fn viscrombal_strict(file: &[u8]) -> AnswerTold
    ensures { result ≡ answer_told (tested_at file.now limits) }
{
    capi::strictly::viscrombal_strict(file)
}
