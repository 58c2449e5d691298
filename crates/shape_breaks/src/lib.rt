//! Safe breaks of a text (PRODUCE_SAFE_BREAKS) by calls: the premises of `shape_laws::breaks::break_laws::law_safe_breaks`
//! that a caller can test, once for tables and font (`BreakPremises`), once for a text (`TextMarks`), and then in constant
//! time for each cut of it (`may_be_broken`). rustybuzz has none of these.
//!
//! What no call tests, and `law_broken_texts_show_both` has as premises:
//! - The pieces are those that the text is cut into (`AreCut`, `AreTextsAt`), as `break_laws` lists it.
//! - The limits of all three texts (`HaveEnough`): some budget is left (`nested_lookups_left`, of each of the three), and at
//!   most 7 merges, whose number no call gives.
//! - Neither piece is refused (`AreShapedBy`): `shape` returns no error for it.
//! - Under the Arabic shaper (`AreJoinedApart`): each piece has as its context what stands beside it
//!   (`UnicodeBuffer::set_pre_context` and `set_post_context`), and none of the three texts has a tile. `has_no_stretching`
//!   says that the plan has no feature that records tiles; that then no text has one is no law yet.
//! - The rows of the tables have no fault (`HaveNoFault`): the clause `sound` of `UnicodeTables::new`.
#![tactic(auto)]

mod cuts;
pub mod laws;
mod premises;
mod tables;
mod texts;

pub use cuts::{
    has_no_stretching, is_safe_to_break, line_may_be_cut, may_be_broken, piece_may_be_broken,
};
pub use premises::BreakPremises;
pub use tables::{keeps_marks, keeps_private_marks, keeps_types};
pub use texts::{Occurrences, TextMarks};
