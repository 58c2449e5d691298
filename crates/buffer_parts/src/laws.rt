//! Laws of our own, which rustybuzz has not: clusters follow the events of a text as its parts do, and keep their order.
ghost use Rattle.buffer_parts.specs.Laws.{EventsAreUnions, NumbersAreParts, OrderlyInTurn, OriginsAreParts, OriginsKeepLeast, OriginsKeepOrder, PartsAreUnited, PartsAreNoGreater, PartsHaveGlyphs, PartsRise, PartsStay, PlainIsOrderly, SlicesAreNoCoarser, SlicesAreParts, SlicesAreText, SlicesJoin, SlicesShareParts};

/// Plain events are orderly, whatever they meet.
#[tactic(auto, using(crate::specs::Lemmas::Orderly::plain_is_orderly))]
pub fn law_plain_is_orderly()
    ensures { PlainIsOrderly }
{}

/// Events are orderly where the first are, and the rest where the first led.
#[tactic(auto, using(crate::specs::Lemmas::Orderly::orderly_in_turn))]
pub fn law_orderly_in_turn()
    ensures { OrderlyInTurn }
{}

/// At a monotone level, on clusters in order, orderly events do to clusters what they do to the parts of the text.
#[tactic(auto, using(crate::specs::Lemmas::Orderly::orderly_are_parts))]
pub fn law_orderly_events_are_parts()
    ensures { OriginsAreParts }
{}

/// Clusters in order stay in order.
#[tactic(auto, using(crate::specs::Lemmas::Orderly::orderly_keep_order))]
pub fn law_orderly_events_keep_order()
    ensures { OriginsKeepOrder }
{}

/// The parts of the items after an event are those that it makes of them, of the items that it leaves.
#[tactic(auto, using(crate::specs::Lemmas::CharacterParts::events_are_unions))]
pub fn law_events_are_unions()
    ensures { EventsAreUnions }
{}

/// After events each number is the part of one that was there.
#[tactic(auto, using(crate::specs::Lemmas::CharacterParts::numbers_are_parts))]
pub fn law_numbers_are_parts()
    ensures { NumbersAreParts }
{}

/// The part of a greater number is no less.
#[tactic(auto, using(crate::specs::Lemmas::CharacterParts::parts_rise))]
pub fn law_parts_rise()
    ensures { PartsRise }
{}

/// No number is in a part with a greater number.
#[tactic(auto, using(crate::specs::Lemmas::CharacterParts::parts_are_no_greater))]
pub fn law_parts_are_no_greater()
    ensures { PartsAreNoGreater }
{}

/// A number that is among the items afterwards is its own part.
#[tactic(auto, using(crate::specs::Lemmas::CharacterParts::parts_stay))]
pub fn law_parts_stay()
    ensures { PartsStay }
{}

/// Each part keeps an item while one is left.
#[tactic(auto, using(crate::specs::Lemmas::CharacterParts::parts_have_glyphs))]
pub fn law_parts_have_glyphs()
    ensures { PartsHaveGlyphs }
{}

/// The part of a number is the greatest number of the result that is no greater than it.
pub fn law_slices_are_parts()
    ensures { SlicesAreParts }
{}

/// Two numbers are in one part exactly where they are equal or an event united their parts.
#[tactic(auto, using(crate::specs::Lemmas::CharacterParts::parts_are_united))]
pub fn law_parts_are_united()
    ensures { PartsAreUnited }
{}

/// The least cluster is kept while a glyph is left.
pub fn law_orderly_events_keep_least()
    ensures { OriginsKeepLeast }
{}

/// Slices cover the whole text.
#[tactic(auto, using(crate::specs::Lemmas::Slices::slices_join))]
pub fn law_slices_join()
    ensures { SlicesJoin }
{}

/// The slices of a text, concatenated, are the text.
#[tactic(auto, using(crate::specs::Lemmas::Slices::slices_are_text))]
pub fn law_slices_are_text()
    ensures { SlicesAreText }
{}

/// Characters share a slice exactly where their parts are one.
#[tactic(auto, using(crate::specs::Lemmas::Slices::slices_share_parts))]
pub fn law_slices_share_parts()
    ensures { SlicesShareParts }
{}

/// Two characters share a slice only where an event united their parts.
pub fn law_slices_are_no_coarser()
    ensures { SlicesAreNoCoarser }
{}
