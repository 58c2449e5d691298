//! Laws of our own, which rustybuzz has not: which events keep the parts of a text.
ghost use Rattle.buffer_parts.specs.KeepingLaws.{KeptEventsHaveParts, KeptInTurn, LigaturesKeepParts, PlainIsKept, ReplacementsKeepParts};

/// Events that keep the parts of a text keep them one after the other.
pub fn law_kept_in_turn()
    ensures { KeptInTurn }
{}

/// Plain events whose replacements all give a glyph keep the parts of a text.
pub fn law_plain_is_kept()
    ensures { PlainIsKept }
{}

/// Replacing one glyph by others keeps the parts of a text.
pub fn law_replacements_keep_parts()
    ensures { ReplacementsKeepParts }
{}

/// A ligature keeps the parts of a text.
pub fn law_ligatures_keep_parts()
    ensures { LigaturesKeepParts }
{}

/// At a monotone level, clusters in order become the parts of events that keep the parts of a text.
pub fn law_kept_events_have_parts()
    ensures { KeptEventsHaveParts }
{}
