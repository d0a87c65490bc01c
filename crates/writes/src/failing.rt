// Writes that wait and will not be made.
ghost use Rattle.std.specs.Prelude.{[], ◌≡◌, length};
ghost use Rattle.lent.specs.Lent.{tag_bytes, wrote_all};
ghost use Rattle.board.specs.Layout.{IsBoard};
ghost use Rattle.board.specs.Board.{Holds, board_in, with_queue};
ghost use Rattle.writes.specs.Failing.{queued_tags};

use board::parts::queue_of;
use board::waiting::clear_queue;
use lent::put_tags;
use queue::list_queued;
use tags::count;

// No write waits any more; the tags of those that did go into `out`. They are listed in an array, since an engine has no heap.
pub fn fail_writes(b: &mut [u8], out: &mut [u8]) -> usize
    requires { IsBoard b.old }
    ensures { (result ≡ length (queued_tags (board_in b.old))) × (Holds b.new (with_queue (board_in b.old) []) × (out.new ≡ wrote_all out.old (tag_bytes (queued_tags (board_in b.old))))) }
{
    let mut list = [0u8; 256];
    list_queued(queue_of(b), &mut list);
    clear_queue(b);
    put_tags(out, &list);
    count(&list)
}
