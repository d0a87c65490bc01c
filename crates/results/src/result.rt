// One result of a reply: four cells.
ghost use Rattle.std.specs.Prelude.{◌≡◌};
ghost use Rattle.results.specs.Results.{result_in};

use memory::cells::cell;
use values::entry::TagResult;
use values::value::Value;
use words::error::error_from;
use words::value::value_from;

pub fn result_at(s: &[u8], i: usize) -> TagResult
    ensures { result ≡ result_in s.now i }
{
    if s.len() / 32 <= i {
        return Ok(Value::Null);
    }
    match error_from(cell(s, 4 * i + 2), cell(s, 4 * i + 3)) {
        None => Ok(value_from(cell(s, 4 * i), cell(s, 4 * i + 1))),
        Some(e) => Err(e),
    }
}
