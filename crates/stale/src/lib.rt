// Rule 7: what is known of a controller that is lost: every cached tag becomes stale.
#![tactic(auto)]

ghost use Rattle.std.specs.Prelude.{◌≡◌, map, get_or, set, ◌≤◌};
ghost use Rattle.tags.specs.Lists.{list_in, room, fitted};
ghost use Rattle.table.specs.Tag.{fresh_tag};
ghost use Rattle.table.specs.Table.{table_in};
ghost use Rattle.names.specs.Directory.{max_names};
ghost use Rattle.board.specs.Layout.{IsBoard};
ghost use Rattle.board.specs.Board.{Holds, board_in, with_records};
ghost use Rattle.stale.specs.Stale.{is_stale, is_fresh, stale_held, is_staled, tag_stale, staled_tags, staled_in};
ghost use Rattle.readings.specs.Changes.{Changing};

use board::parts::table_of;
use board::starts::{order_start, table_start};
use readings::changes::tell_changes;
use table::tag::Tag;
use table::{put_tag, tag_of};
use tags::{clear, push};
use values::entry::{Entry, Quality};

fn is_stale(q: Quality) -> bool
    ensures { result ≡ is_stale q }
{
    matches!(q, Quality::Stale)
}

fn is_fresh(h: Option<Entry>) -> bool
    ensures { result ≡ is_fresh h }
{
    match h {
        None => false,
        Some(e) => !is_stale(e.quality),
    }
}

fn stale_held(h: Option<Entry>) -> Option<Entry>
    ensures { result ≡ stale_held h }
{
    match h {
        None => None,
        Some(e) => Some(Entry {
            quality: Quality::Stale,
            error: None,
            ..e
        }),
    }
}

// Whether the tag is cached and not stale yet.
pub fn is_staled(x: Tag) -> bool
    ensures { result ≡ is_staled x }
{
    is_fresh(x.cached)
}

pub fn stale_tag(x: Tag) -> Tag
    ensures { result ≡ tag_stale x }
{
    if !is_staled(x) {
        return x;
    }
    let stale = stale_held(x.cached);
    Tag {
        cached: stale,
        published: stale,
        ..x
    }
}

// A tag that stays as it is isn't written again.
fn stale_at(table: &mut [u8], k: usize)
    ensures { table_in table.new ≡ set (table_in table.old) k (tag_stale (get_or (table_in table.old) k fresh_tag)) }
{
    let x = tag_of(table, k);
    if is_staled(x) {
        put_tag(table, k, stale_tag(x));
    }
}

// The tags that become stale. A list can hold tags below 65536.
fn list_staled(table: &[u8], changes: &mut [u8])
    ensures { list_in changes.new ≡ fitted (room changes.old) (staled_tags (table_in table.now)) }
{
    clear(changes);
    let rows = table.len() / 256;
    let n = if rows < 65536 { rows } else { 65536 };
    for k in 0..n {
        if is_staled(tag_of(table, k)) {
            push(changes, k);
        }
    }
}

fn stale_all(table: &mut [u8])
    ensures { table_in table.new ≡ map tag_stale (table_in table.old) }
{
    for k in 0..table.len() / 256 {
        stale_at(table, k);
    }
}

fn stale_table(b: &mut [u8])
    requires { IsBoard b.old }
    ensures { Holds b.new (with_records (board_in b.old) (map tag_stale (board_in b.old).table.tags)) }
{
    let start = table_start(b);
    let end = order_start(b);
    stale_all(&mut b[start..end]);
}

// `changes` is room to work in.
fn mark_within(b: &mut [u8], out: &mut [u8], changes: &mut [u8]) -> usize
    requires board { IsBoard b.old }
    requires max_names_bound { max_names ≤ room changes.old }
    ensures { Changing (staled_in (board_in b.old)) result b.new out.old out.new }
{
    list_staled(table_of(b), changes);
    stale_table(b);
    tell_changes(b, out, changes)
}

// Every cached tag not stale yet becomes stale; the changes go into `out`, in tag order. They are listed in an array, since an
// engine has no heap.
pub fn mark_stale(b: &mut [u8], out: &mut [u8]) -> usize
    requires { IsBoard b.old }
    ensures { Changing (staled_in (board_in b.old)) result b.new out.old out.new }
{
    let mut changes = [0u8; 2048];
    mark_within(b, out, &mut changes)
}
