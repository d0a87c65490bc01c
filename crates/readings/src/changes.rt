// The changes told.
ghost use Rattle.std.specs.Prelude.{◌≡◌, length};
ghost use Rattle.tags.specs.Lists.{list_in};
ghost use Rattle.lent.specs.Lent.{cell_bytes, wrote_all};
ghost use Rattle.board.specs.Layout.{IsBoard};
ghost use Rattle.board.specs.Board.{board_in};
ghost use Rattle.readings.specs.Changes.{changes_in};

use board::parts::table_of;
use lent::changes::put_changes;
use tags::count;

// The changes listed, into `out`, and how many they are.
pub fn tell_changes(b: &[u8], out: &mut [u8], changes: &[u8]) -> usize
    requires { IsBoard b.now }
    ensures value { result ≡ length (list_in changes.now) }
    ensures out_after { out.new ≡ wrote_all out.old (cell_bytes (changes_in (board_in b.now) (list_in changes.now))) }
{
    put_changes(out, table_of(b), changes);
    count(changes)
}
