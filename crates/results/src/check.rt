// Check 42: values are finite.
ghost use Rattle.std.specs.Prelude.{◌≡◌, ◌<◌};
ghost use Rattle.results.specs.Results.{result_count, result_in, value_ok, result_ok, results_ok};

use ieee::number::is_finite;
use memory::cells::cell;
use values::value::Value;
use words::scalar::float_of_word;

// A value may be any but a float that is infinite or a NaN.
pub fn is_finite_value(v: Value) -> bool
    ensures { result ≡ value_ok v }
{
    match v {
        Value::Null | Value::Bool(_) | Value::Int(_) => true,
        Value::Float(x) => is_finite(x),
    }
}

// By its cells: of most results no float has to be made.
fn is_result_ok(results: &[u8], i: usize) -> bool
    requires { i < result_count results.now }
    ensures { result ≡ result_ok (result_in results.now i) }
{
    let failed = cell(results, 4 * i + 2) != 0;
    let float = cell(results, 4 * i) == 3;
    if failed || !float {
        return true;
    }
    is_finite(float_of_word(cell(results, 4 * i + 1)))
}

// Of n results asked for, those that are there. Settings are checked by such a loop too, but neither crate stands on the other.
pub fn check_results(results: &[u8], n: usize) -> bool
    ensures { result ≡ results_ok n results.now }
{
    let held = results.len() / 32;
    let covered = if n < held { n } else { held };
    for i in 0..covered {
        if !is_result_ok(results, i) {
            return false;
        }
    }
    true
}
