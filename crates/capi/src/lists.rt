// Modules, manifests, comparisons and tokens over the C interface: the answer in a struct of numbers, the rows in one lent buffer.
ghost use Rattle.std.specs.Prelude.{length};
ghost use Rattle.wasm.specs.Module.{module_at};
ghost use Rattle.conform.specs.Sound.{limits};
ghost use Rattle.listed.specs.Comparisons.{comparison_bytes, comparison_told, comparison};
ghost use Rattle.listed.specs.Delivered.{Delivers};
ghost use Rattle.listed.specs.Modules.{module_bytes, module_told};
ghost use Rattle.listed.specs.Manifests.{manifest_bytes, manifest_told, manifest_listed};
ghost use Rattle.listed.specs.Tokens.{tokens_bytes, tokens_told, tokens_read};

use listed::comparison::ComparisonTold;
use listed::manifests::ManifestTold;
use listed::modules::ModuleTold;
use listed::tokens::TokensTold;

// A module's file: the rows of tables 1 to 4, eight bytes a cell. Refused, nothing is touched; accepted, nothing past the rows.
pub fn viscrombal_module(file: &[u8], out: &mut [u8]) -> ModuleTold
    ensures { Delivers module_bytes (module_told (length file.now)) (module_at file.now limits)
        out.old result out.new }
{
    listed::modules::list_module(file, out)
}

// A manifest's text: the rows of tables 5 and 6, then the rows by the paths that are imported, then by those that are exported.
pub fn viscrombal_manifest(text: &[u8], out: &mut [u8]) -> ManifestTold
    ensures { Delivers manifest_bytes manifest_told (manifest_listed text.now) out.old result out.new }
{
    listed::manifests::list_manifest(text, out)
}

// Two builds: the rows of tables 8 and 9, whose row numbers are those of the module they came from, then the breaking reasons as text.
pub fn viscrombal_compare(baseline: &[u8], candidate: &[u8], out: &mut [u8]) -> ComparisonTold
    ensures { Delivers comparison_bytes comparison_told (comparison baseline.now candidate.now)
        out.old result out.new }
{
    listed::comparison::list_comparison(baseline, candidate, out)
}

// A policy's text: the ranges of the tokens of a domain's list, each its offset in the text and its length.
pub fn viscrombal_tokens(text: &[u8], domain: usize, out: &mut [u8]) -> TokensTold
    ensures { Delivers tokens_bytes tokens_told (tokens_read text.now domain) out.old result out.new }
{
    listed::tokens::list_tokens(text, domain, out)
}
