// One reading applied to its tag.
ghost use Rattle.std.specs.Prelude.{true, not, ◌≡◌, get_or, set};
ghost use Rattle.values.specs.Value.{same_value};
ghost use Rattle.words.specs.Value.{value_from};
ghost use Rattle.table.specs.Tag.{fresh_tag};
ghost use Rattle.table.specs.Table.{table_in};
ghost use Rattle.results.specs.Results.{result_in};
ghost use Rattle.apply.specs.Apply.{is_same_as, is_missing, is_withheld, applied_at, sent_at};
ghost use Rattle.apply.specs.Steps.{marked, cached_over, is_withheld_from, published_over, GoodAs, Repeated};

use engine::Engine;
use entries::{cached_of, cached_words, published_of, put_cached, put_published};
use fields::{put_mark, settings_of, tier_of};
use memory::cells::cell;
use results::result::result_at;
use values::deadband::within_deadband;
use values::entry::{Entry, Quality, TagResult, merge, same};
use words::entry::EntryWords;
use words::scalar::float_of_word;

// When a list of tags was read: `start` is the clock time at which the round began, or that of a read-back, `t` is the wall time, and
// `polled` is false for a read-back.
#[derive(Clone, Copy)]
pub struct ReadAt {
    pub start: f64,
    pub t: i64,
    pub polled: bool,
}

// Not `h == Some(e)`, which would call std and count the time.
fn is_same_as(h: Option<Entry>, e: Entry) -> bool
    ensures { result ≡ is_same_as h e }
{
    match h {
        None => false,
        Some(old) => same(old, e),
    }
}

fn is_missing(q: Quality) -> bool
    ensures { result ≡ is_missing q }
{
    matches!(q, Quality::Missing)
}

// A missing tag is not asked for in every round.
fn mark(table: &mut [u8], k: usize, q: Quality, start: f64)
    ensures { table_in table.new ≡ set (table_in table.old) k (marked (get_or (table_in table.old) k fresh_tag) q start) }
{
    let retry = if is_missing(q) {
        Some(Engine::retry_at(start))
    } else {
        None
    };
    put_mark(table, k, retry);
}

// The band is measured from what was published last. A read-back shows what a write did, so no band holds it back.
fn is_withheld(polled: bool, band: f64, published: Option<Entry>, e: Entry) -> bool
    ensures { result ≡ is_withheld polled band published e }
{
    match published {
        None => false,
        Some(p) if polled => within_deadband(band, p, e),
        Some(p) => same(p, e),
    }
}

// An entry that is new is cached. Answers whether it is known already.
fn cache(table: &mut [u8], k: usize, c: Option<Entry>, e: Entry) -> bool
    ensures { (table_in table.new ≡ set (table_in table.old) k (cached_over c (get_or (table_in table.old) k fresh_tag) e)) × (result ≡ is_same_as c e) }
{
    if is_same_as(c, e) {
        return true;
    }
    put_cached(table, k, e);
    false
}

fn publish(table: &mut [u8], k: usize, e: Entry, polled: bool) -> bool
    ensures { (table_in table.new ≡ set (table_in table.old) k (published_over (get_or (table_in table.old) k fresh_tag) e polled)) × (result ≡ not (is_withheld_from (get_or (table_in table.old) k fresh_tag) e polled)) }
{
    let band = settings_of(table, k).band;
    if is_withheld(polled, band, published_of(table, k), e) {
        return false;
    }
    put_published(table, k, e);
    true
}

// A reading of the tag k. A tag without a tier left the table while it was read, and is skipped.
pub fn apply_at(table: &mut [u8], k: usize, r: TagResult, when: ReadAt) -> bool
    ensures { (table_in table.new ≡ applied_at (table_in table.old) k r when.start when.t when.polled) × (result ≡ sent_at (table_in table.old) k r when.t when.polled) }
{
    if tier_of(table, k) == 0 {
        return false;
    }
    let c = cached_of(table, k);
    let e = merge(c, r, when.t);
    mark(table, k, e.quality, when.start);
    if cache(table, k, c, e) && when.polled {
        return false;
    }
    publish(table, k, e, when.polled)
}

// Whether the value is the same as itself: a NaN is not.
fn is_same_as_itself(kind: u64, word: u64) -> bool
    ensures { result ≡ same_value (value_from kind word) (value_from kind word) }
{
    let x = float_of_word(word);
    kind != 3 || x == x
}

// Whether the words are those of a good entry with this value.
fn is_good_as(w: EntryWords, kind: u64, word: u64) -> bool
    ensures { result ≡ true → GoodAs w kind word }
{
    w.held == 1 && w.error == 0 && w.kind == kind && w.word == word
}

// Whether result i is the good value that the tag has cached, word for word. It says no of some that are the
// same, as 0.0 and -0.0 are.
fn is_repeat(table: &[u8], k: usize, results: &[u8], i: usize) -> bool
    ensures { result ≡ true → Repeated (get_or (table_in table.now) k fresh_tag) (result_in results.now i) }
{
    if results.len() / 32 <= i || tier_of(table, k) == 0 || cell(results, 4 * i + 2) != 0 {
        return false;
    }
    let kind = cell(results, 4 * i);
    let word = cell(results, 4 * i + 1);
    is_good_as(cached_words(table, k), kind, word) && is_same_as_itself(kind, word)
}

// Result i is a reading of the tag k. Most that are polled bring a value again, and these only clear the mark.
pub fn apply_result(table: &mut [u8], k: usize, results: &[u8], i: usize, when: ReadAt) -> bool
    ensures { (table_in table.new ≡ applied_at (table_in table.old) k (result_in results.now i) when.start when.t when.polled) × (result ≡ sent_at (table_in table.old) k (result_in results.now i) when.t when.polled) }
{
    if when.polled && is_repeat(table, k, results, i) {
        put_mark(table, k, None);
        return false;
    }
    apply_at(table, k, result_at(results, i), when)
}
