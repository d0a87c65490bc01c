// Rule 2: a value, and when two are the same.
ghost use Rattle.std.specs.Prelude.{◌≡◌};
ghost use Rattle.values.specs.Value.{same_value, is_number, number_of};

#[derive(Clone, Copy)]
pub enum Value {
    Null,
    Bool(bool),
    Int(i64),
    Float(f64),
}

// Whether two values are of one kind and equal. A derived `==` would call std, which code of an engine must not.
pub fn same_value(a: Value, b: Value) -> bool
    ensures { result ≡ same_value a b }
{
    match (a, b) {
        (Value::Null, Value::Null) => true,
        (Value::Bool(x), Value::Bool(y)) => x == y,
        (Value::Int(x), Value::Int(y)) => x == y,
        (Value::Float(x), Value::Float(y)) => x == y,
        _ => false,
    }
}

// Integers and floats are numbers; null and bools are not.
pub fn is_number(v: Value) -> bool
    ensures { result ≡ is_number v }
{
    matches!(v, Value::Int(_) | Value::Float(_))
}

// A number as a float, an integer by nearest with ties to even; 0 for what is no number.
pub fn number_of(v: Value) -> f64
    ensures { result ≡ number_of v }
{
    match v {
        Value::Null | Value::Bool(_) => 0.0,
        Value::Int(n) => ieee::round::from_i64(n),
        Value::Float(x) => x,
    }
}
