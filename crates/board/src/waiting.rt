// The writes that wait, and the results of a read-back whose outcome has not been taken yet.
ghost use Rattle.std.specs.Prelude.{[], ◌≡◌, length};
ghost use Rattle.lent.specs.Lent.{over_bytes};
ghost use Rattle.queue.specs.Queue.{queued_with, write_room, popped, rest};
ghost use Rattle.board.specs.Layout.{IsBoard};
ghost use Rattle.board.specs.Board.{Holds, board_in, with_queue, with_back};

use super::parts::queue_of;
use super::starts::{groups_start, queue_start, recorded_start};
use lent::put_bytes;
use queue::Write;

pub fn queued(b: &[u8]) -> usize
    requires { IsBoard b.now }
    ensures { result ≡ length (board_in b.now).queue }
{
    queue::queued(queue_of(b))
}

pub fn push_write(b: &mut [u8], w: Write)
    requires { IsBoard b.old }
    ensures { Holds b.new (with_queue (board_in b.old) (queued_with write_room (board_in b.old).queue w)) }
{
    let start = queue_start(b);
    let end = groups_start(b);
    queue::push(&mut b[start..end], w);
}

// The first write, taken out of the queue.
pub fn pop_write(b: &mut [u8]) -> Option<Write>
    requires { IsBoard b.old }
    ensures { (result ≡ popped (board_in b.old).queue) × Holds b.new (with_queue (board_in b.old) (rest (board_in b.old).queue)) }
{
    let start = queue_start(b);
    let end = groups_start(b);
    queue::pop(&mut b[start..end])
}

// No write waits any more.
pub fn clear_queue(b: &mut [u8])
    requires { IsBoard b.old }
    ensures { Holds b.new (with_queue (board_in b.old) []) }
{
    let start = queue_start(b);
    let end = groups_start(b);
    queue::clear(&mut b[start..end]);
}

// The results of a read-back are kept, as far as there is room.
pub fn put_back(b: &mut [u8], results: &[u8])
    requires { IsBoard b.old }
    ensures { Holds b.new (with_back (board_in b.old) (over_bytes (board_in b.old).back results.now)) }
{
    let end = recorded_start(b);
    put_bytes(&mut b[0..end], results);
}
