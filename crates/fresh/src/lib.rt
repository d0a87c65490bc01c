// A fresh board.
#![tactic(auto)]

ghost use Rattle.std.specs.Prelude.{◌≡◌, length, replicate, take};
ghost use Rattle.names.specs.Directory.{names_of};
ghost use Rattle.ranks.specs.Ranks.{over, keys_of, words_of};
ghost use Rattle.settings.specs.Configured.{given_groups};
ghost use Rattle.board.specs.Layout.{IsBoard, tags_in};
ghost use Rattle.board.specs.Board.{Holds, board_in, with_keys, with_words, with_configured};
ghost use Rattle.fresh.specs.Fresh.{configured_room, empty_board, fresh_board};

use board::starts::{configured_start, keys_start, queue_start, words_start};
use names::directory::Directory;
use ranks::{fill_keys, fill_words};
use settings::configured::keep_configured;
use versions::check::take_all;

fn zero(s: &mut [u8])
    ensures { s.new ≡ replicate (length s.old) 0 }
{
    for i in 0..s.len() {
        s[i] = 0;
    }
}

fn clear(b: &mut [u8])
    requires { IsBoard b.old }
    ensures { Holds b.new (empty_board (tags_in b.old)) }
{
    zero(b);
}

// What the names say is worked out here, once; no rule needs a name any more.
fn keep_keys<'a>(b: &mut [u8], directory: Directory<'a>)
    requires { IsBoard b.old }
    ensures { Holds b.new (with_keys (board_in b.old) (over (board_in b.old).keys (keys_of (names_of directory.entry.names.now directory.entry.ends.now)))) }
{
    let start = keys_start(b);
    let end = words_start(b);
    fill_keys(directory, &mut b[start..end]);
}

fn keep_words<'a>(b: &mut [u8], directory: Directory<'a>)
    requires { IsBoard b.old }
    ensures { Holds b.new (with_words (board_in b.old) (over (board_in b.old).table.words (words_of (names_of directory.entry.names.now directory.entry.ends.now)))) }
{
    let start = words_start(b);
    let end = b.len();
    fill_words(directory, &mut b[start..end]);
}

fn keep_groups(b: &mut [u8], groups: &[u8])
    requires { IsBoard b.old }
    ensures { Holds b.new (with_configured (board_in b.old) (take configured_room (given_groups groups.now))) }
{
    let start = configured_start(b);
    let end = queue_start(b);
    keep_configured(&mut b[start..end], groups);
}

// As many configured groups are kept as there is room for; check 14 lets fewer in.
pub fn create<'a>(b: &mut [u8], directory: Directory<'a>, settings: &[u8], groups: &[u8])
    requires board { IsBoard b.old }
    requires b_value { tags_in b.old ≡ length directory.ends.now }
    ensures { Holds b.new (with_configured (fresh_board directory.entry.names.now directory.entry.ends.now settings.now groups.now) (take configured_room (given_groups groups.now))) }
{
    clear(b);
    keep_keys(b, directory);
    keep_words(b, directory);
    keep_groups(b, groups);
    take_all(b, settings, false);
}
