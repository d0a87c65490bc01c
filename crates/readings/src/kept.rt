// Rule 8: the results of a read-back, which the board itself keeps. They are copied, and then applied as those of a reply
// are: the table cannot be lent for writing while another part of the board is read.
ghost use Rattle.std.specs.Prelude.{◌≡◌};
ghost use Rattle.board.specs.Layout.{IsBoard};
ghost use Rattle.board.specs.Board.{board_in};
ghost use Rattle.readings.specs.Changes.{applied_to, Changing};

use super::listed::apply;
use apply::reading::ReadAt;
use board::parts::back_of;
use lent::put_bytes;

fn kept_results(b: &[u8]) -> [u8; 256]
    requires { IsBoard b.now }
    ensures { result ≡ (board_in b.now).back }
{
    let mut results = [0u8; 256];
    put_bytes(&mut results, back_of(b));
    results
}

// The results that were kept. The changes go into `out`.
pub fn apply_back(b: &mut [u8], out: &mut [u8], when: ReadAt) -> usize
    requires { IsBoard b.old }
    ensures { Changing (applied_to (board_in b.old) (board_in b.old).back when.start when.t when.polled) result b.new out.old out.new }
{
    let results = kept_results(b);
    apply(b, out, &results, when)
}
