// What a host sets for an engine, with checks 11, 12 and 13.
ghost use Rattle.std.specs.Prelude.{◌≡◌};
ghost use Rattle.refusals.specs.Refusals.{code};
ghost use Rattle.heads.specs.Options.{cycle_ok, span_ok, options_check};

use refusals::Refusal;

// In seconds.
#[repr(C)]
#[derive(Clone, Copy)]
pub struct Options {
    pub cycle: f64,
    pub period: f64,
    pub grace: f64,
}

fn is_cycle(x: f64) -> bool
    ensures { result ≡ cycle_ok x }
{
    x == 0.0 || (x >= 0.001 && x <= 3600.0)
}

fn is_span(x: f64) -> bool
    ensures { result ≡ span_ok x }
{
    x >= 0.0 && x <= 86400.0
}

pub fn check_options(o: Options) -> Result<(), Refusal>
    ensures { code result ≡ options_check o }
{
    if !is_cycle(o.cycle) {
        return Err(Refusal::Cycle);
    }
    if !is_span(o.period) {
        return Err(Refusal::Period);
    }
    if !is_span(o.grace) {
        return Err(Refusal::Grace);
    }
    Ok(())
}
