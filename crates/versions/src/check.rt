// The table after a version answer.
ghost use Rattle.std.specs.Prelude.{◌≡◌};
ghost use Rattle.board.specs.Layout.{IsBoard};
ghost use Rattle.board.specs.Board.{Holds, tag_at, board_in, with_tag, with_records};
ghost use Rattle.versions.specs.Versions.{taken_at, table_taken, takes_settings, version_table};

use super::tag::tag_taken;
use board::starts::tags_in;
use board::tag::{is_bit, put_tag, tag_of};
use heads::version::is_changed;
use settings::setting::setting_at;

fn take_at(b: &mut [u8], settings: &[u8], k: usize, changed: bool)
    requires { IsBoard b.old }
    ensures { Holds b.new (with_tag (board_in b.old) k (taken_at changed settings.now (board_in b.old).table.words k (tag_at (board_in b.old).table k))) }
{
    let x = tag_taken(tag_of(b, k), setting_at(settings, k), is_bit(b, k), changed);
    put_tag(b, k, x);
}

// Every tag takes its setting.
pub fn take_all(b: &mut [u8], settings: &[u8], changed: bool)
    requires { IsBoard b.old }
    ensures { Holds b.new (with_records (board_in b.old) (table_taken changed settings.now (board_in b.old).table.words (board_in b.old).table.tags)) }
{
    for k in 0..tags_in(b) {
        take_at(b, settings, k, changed);
    }
}

fn takes_settings(changed: bool, connecting: bool) -> bool
    ensures { result ≡ takes_settings changed connecting }
{
    changed || connecting
}

// A change or a connect clears missing marks and takes the new settings.
pub fn check_version(
    b: &mut [u8],
    settings: &[u8],
    old: Option<u64>,
    new: Option<u64>,
    connecting: bool,
)
    requires { IsBoard b.old }
    ensures { Holds b.new (with_records (board_in b.old) (version_table old new connecting settings.now (board_in b.old).table.words (board_in b.old).table.tags)) }
{
    let changed = is_changed(old, new);
    if takes_settings(changed, connecting) {
        take_all(b, settings, changed);
    }
}
