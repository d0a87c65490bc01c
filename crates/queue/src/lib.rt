// The queue of writes in lent memory: a cell for the count, then three cells for each place: the tag, the value's kind
// and its bits. Any bytes are some queue.
#![tactic(auto)]

ghost use Rattle.std.specs.Prelude.{◌≡◌, [], ◌-◌, length, get_or, set, take};
ghost use Rattle.tags.specs.Lists.{list_in, room, fitted};
ghost use Rattle.queue.specs.Queue.{no_write, queue_room, places_in, queue_in, queued_with, popped, rest, write_tags};

use memory::cells::{cell, places, put_cell};
use values::value::Value;
use words::value::{ValueWords, value_from};

// A write that waits.
#[derive(Clone, Copy)]
pub struct Write {
    pub tag: u16,
    pub value: Value,
}

// How many writes the slice has room for.
pub fn room_of(q: &[u8]) -> usize
    ensures { result ≡ queue_room q.now }
{
    places(q, 3)
}

// The stored count; where that is above the places there are, all of them.
pub fn queued(q: &[u8]) -> usize
    ensures { result ≡ length (queue_in q.now) }
{
    let n = cell(q, 0) as usize;
    let most = room_of(q);
    if n < most { n } else { most }
}

fn place_at(q: &[u8], i: usize) -> Write
    ensures { result ≡ get_or (places_in q.now) i no_write }
{
    if room_of(q) <= i {
        return Write {
            tag: 0,
            value: Value::Null,
        };
    }
    Write {
        tag: (cell(q, 3 * i + 1) % 65536) as u16,
        value: value_from(cell(q, 3 * i + 2), cell(q, 3 * i + 3)),
    }
}

fn put_place(q: &mut [u8], i: usize, w: Write)
    ensures { places_in q.new ≡ set (places_in q.old) i w }
{
    if room_of(q) <= i {
        return;
    }
    let v = ValueWords::from(w.value);
    put_cell(q, 3 * i + 1, w.tag as u64);
    put_cell(q, 3 * i + 2, v.kind);
    put_cell(q, 3 * i + 3, v.word);
}

// The writes behind the first move up by one place.
fn move_up(q: &mut [u8])
    ensures { take (length (queue_in q.old) - 1) (places_in q.new) ≡ rest (queue_in q.old) }
{
    for i in 1..queued(q) {
        let w = place_at(q, i);
        put_place(q, i - 1, w);
    }
}

pub fn clear(q: &mut [u8])
    ensures { queue_in q.new ≡ [] }
{
    put_cell(q, 0, 0);
}

// One write more at the end; a full queue stays.
pub fn push(q: &mut [u8], w: Write)
    ensures { queue_in q.new ≡ queued_with (queue_room q.old) (queue_in q.old) w }
{
    let n = queued(q);
    if n < room_of(q) {
        put_place(q, n, w);
        put_cell(q, 0, (n + 1) as u64);
    }
}

// The first write, taken out of the queue.
pub fn pop(q: &mut [u8]) -> Option<Write>
    ensures { (result ≡ popped (queue_in q.old)) × (queue_in q.new ≡ rest (queue_in q.old)) }
{
    let n = queued(q);
    if n == 0 {
        return None;
    }
    let first = place_at(q, 0);
    move_up(q);
    put_cell(q, 0, (n - 1) as u64);
    Some(first)
}

// The tags of the writes that wait, in queue order, into `list`.
pub fn list_queued(q: &[u8], list: &mut [u8])
    ensures { list_in list.new ≡ fitted (room list.old) (write_tags (queue_in q.now)) }
{
    tags::clear(list);
    for i in 0..queued(q) {
        tags::push(list, place_at(q, i).tag as usize);
    }
}
