// Tags held back as missing.
ghost use Rattle.std.specs.Prelude.{◌≡◌};
ghost use Rattle.tags.specs.Lists.{list_in};
ghost use Rattle.board.specs.Layout.{IsBoard};
ghost use Rattle.board.specs.Board.{Holds, board_in, tag_at, asking};
ghost use Rattle.rounds.specs.Missing.{is_held_back, not_held_back};

use board::tag::timing_of;
use board::tag_lists::{clear_asked, push_asked};
use ieee::times::is_held_back;
use tags::{at, count};

fn is_tag_held_back(b: &[u8], k: usize, clock: f64) -> bool
    requires { IsBoard b.now }
    ensures { result ≡ is_held_back (tag_at (board_in b.now).table k) clock }
{
    match timing_of(b, k).retry {
        None => false,
        Some(retry) => is_held_back(retry, clock),
    }
}

// The tags of `wanted` that are not held back are those asked for. No `collect`: the test reads the board that is written,
// which a closure could not.
pub fn drop_missing(b: &mut [u8], wanted: &[u8], clock: f64)
    requires { IsBoard b.old }
    ensures { Holds b.new (asking (board_in b.old) (not_held_back (board_in b.old).table.tags (list_in wanted.now) clock)) }
{
    clear_asked(b);
    for i in 0..count(wanted) {
        let k = at(wanted, i);
        if !is_tag_held_back(b, k, clock) {
            push_asked(b, (k % 65536) as u16);
        }
    }
}
