// The record of a tag, and the table of tags in lent memory: a row of 32 cells for each tag.
#![tactic(auto)]

pub mod codec;
pub mod tag;

ghost use Rattle.std.specs.Prelude.{◌≡◌, get_or, set};
ghost use Rattle.table.specs.Tag.{fresh_tag};
ghost use Rattle.table.specs.Table.{table_in};

use tag::Tag;

// The tag at k; past the end a fresh one.
pub fn tag_of(t: &[u8], k: usize) -> Tag
    ensures { result ≡ get_or (table_in t.now) k fresh_tag }
{
    let w = memory::rows::row(t, k);
    codec::tag_from(w)
}

// The tag at k replaced; past the end nothing happens.
pub fn put_tag(t: &mut [u8], k: usize, x: Tag)
    ensures { table_in t.new ≡ set (table_in t.old) k x }
{
    let w = codec::tag_words(x);
    memory::rows::put_row(t, k, w);
}
