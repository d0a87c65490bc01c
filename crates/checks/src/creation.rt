// Creation.
ghost use Rattle.std.specs.Prelude.{◌≡◌};
ghost use Rattle.refusals.specs.Refusals.{code};
ghost use Rattle.checks.specs.Creation.{creation_check};

use heads::options::{Options, check_options};
use names::directory::Directory;
use refusals::Refusal;
use settings::configured::check_configured;
use settings::setting::check_settings;

pub fn creation_check<'a>(
    directory: Directory<'a>,
    options: Options,
    settings: &[u8],
    groups: &[u8],
) -> Result<(), Refusal>
    ensures { code result ≡ creation_check (record { names = directory.entry.names.now; ends = directory.entry.ends.now; options = options; settings = settings.now; groups = groups.now }) }
{
    if let Err(refusal) = directory.check() {
        return Err(refusal);
    }
    if let Err(refusal) = check_options(options) {
        return Err(refusal);
    }
    if !check_settings(settings, directory.count()) || !check_configured(groups) {
        return Err(Refusal::Settings);
    }
    Ok(())
}
