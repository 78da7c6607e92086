// The entry points for C, as host/recipe.h declares them. Each is the function of that name in `generator`, with its clauses.
#![tactic(auto)]

ghost use Rattle.generator.specs.Contract.{Defined, Accepts, Meaning, Exports, Carries, ReadsBack};

use generator::Answer;

// The listing of a text.
#[unsafe(no_mangle)]
pub extern "C" fn recipe_generate(text: &[u8], out: &mut [u8]) -> Answer
    ensures defined { Defined text.now out.old result out.new }
    ensures accepts { Accepts text.now out.old result }
    ensures meaning { Meaning text.now out.old result out.new }
{
    generator::recipe_generate(text, out)
}

// The export of a model for a solver.
#[unsafe(no_mangle)]
pub extern "C" fn recipe_export(text: &[u8], out: &mut [u8]) -> Answer
    ensures defined { Exports text.now out.old result out.new }
    ensures meaning { Carries text.now out.old result out.new }
{
    generator::recipe_export(text, out)
}

// What an export says: the `row`, `var` and `col` lines of its listing, without strings, names and index values.
#[unsafe(no_mangle)]
pub extern "C" fn recipe_read_export(text: &[u8], out: &mut [u8]) -> Answer
    ensures defined { ReadsBack text.now out.old result out.new }
{
    generator::recipe_read_export(text, out)
}
