// The tags of the request in hand.
ghost use Rattle.std.specs.Prelude.{◌≡◌, length};
ghost use Rattle.lent.specs.Lent.{tag_bytes, wrote_all};
ghost use Rattle.board.specs.Layout.{IsBoard};
ghost use Rattle.board.specs.Board.{board_in};

use board::parts::asked_of;
use board::tag_lists::asked_count;
use lent::put_tags;

// The tags asked for, into `out`.
pub fn put_asked(b: &[u8], out: &mut [u8]) -> usize
    requires { IsBoard b.now }
    ensures { (result ≡ length (board_in b.now).asked) × (out.new ≡ wrote_all out.old (tag_bytes (board_in b.now).asked)) }
{
    put_tags(out, asked_of(b));
    asked_count(b)
}
