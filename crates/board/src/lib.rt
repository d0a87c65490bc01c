// The board: all that an engine keeps beside its head, in one slice of lent memory, whose length says how many tags it is
// for. Functions here get or put one thing; each lends one part in its place, as the last thing that it does. Rules are
// written over them.
// That the bytes are a board is a clause of each, and not the invariant of a struct over them: once such a struct is let
// go, nothing is known of what the lent memory holds (docs/DESIGN-PASS.md). So `board` and `out` stay two slices, too.
#![tactic(auto)]

pub mod parts; // parts handed out to read
pub mod recording; // rules 6 and 10: what is recorded of groups
pub mod starts; // where the parts begin
pub mod tag; // the tag at k
pub mod tag_lists; // the order, the graces, the tags of the request in hand
pub mod waiting; // rule 8: the writes that wait, and the results of a read-back
