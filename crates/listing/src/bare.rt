// The lines of rows and variables without strings, names and index values; `super::low` and `super::column` write a floor's and a
// coefficient's. Each is written from the first byte of the part of the output that is lent to its writer, as far as the part
// reaches.
ghost use Rattle.value.specs.Printed.{Written};
ghost use Rattle.listing.specs.Bare.{bare_row, bare_variable};
ghost use Rattle.listing.specs.Kinds.{kind_in};

pub fn row(number: usize, kind: super::Kind, right: value::Value, out: &mut [u8]) -> usize
    ensures { Written out.old 0 (bare_row number (kind_in kind) right) result out.new }
{
    let at = super::row_start(number, kind, right, out);
    super::put(out, at, b'\n')
}

pub fn variable(
    number: usize,
    discrete: bool,
    lower: value::Value,
    upper: Option<value::Value>,
    out: &mut [u8],
) -> usize
    ensures { Written out.old 0 (bare_variable number discrete lower upper) result out.new }
{
    let at = super::variable_start(number, discrete, lower, upper, out);
    super::put(out, at, b'\n')
}
