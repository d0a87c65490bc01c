// Loading a panel list.
ghost use Rattle.board.specs.Layout.{IsBoard};
ghost use Rattle.board.specs.Board.{Holds, board_in, with_table};
ghost use Rattle.panel.specs.Panel.{loaded_list};

use super::form::{entries, tag_at, tier_at};
use tiers::grace::set_tier;

// The tier calls in list order. A list that ends early is taken as far as its tier bytes go.
pub fn load_panel(b: &mut [u8], list: &[u8], grace: f64, clock: f64)
    requires { IsBoard b.old }
    ensures { Holds b.new (with_table (board_in b.old) (loaded_list (board_in b.old).table list.now grace clock)) }
{
    for i in 0..entries(list) {
        set_tier(b, tag_at(list, i) as u16, tier_at(list, i), grace, clock);
    }
}
