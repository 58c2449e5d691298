//! Laws of our own, which rustybuzz has not: once it is unsafe to break at the start of a cluster, it stays so.
ghost use Rattle.buffer_parts.specs.Breaks.Laws.{BoundIsUnsafe, BoundStaysUnsafe, ConcatIsApart, ConcatsAreApart, EventStaysUnsafe, LosslessInTurn, NoTatweelStays, SafeBreaksStay, SortIsUnsafe, SortStaysUnsafe, SpreadShowsUnsafe, UnsafeIsShown, UnsafeStays};

/// Where safe breaks are requested, a lossless event keeps a text unsafe to break at the start of a cluster.
pub fn law_event_stays_unsafe()
    ensures { EventStaysUnsafe }
{}

/// At a monotone level, on clusters in order, a text stays unsafe to break there over orderly, lossless events.
pub fn law_unsafe_stays()
    ensures { UnsafeStays }
{}

/// Orderly events keep clusters in order.
pub fn law_safe_breaks_stay()
    ensures { SafeBreaksStay }
{}

/// Events are lossless where the first are, and the rest are for what the first leave.
pub fn law_lossless_in_turn()
    ensures { LosslessInTurn }
{}

/// An event that binds a range across the start of a cluster makes it unsafe to break there.
pub fn law_bound_is_unsafe()
    ensures { BoundIsUnsafe }
{}

/// It stays so over the events after it.
pub fn law_bound_stays_unsafe()
    ensures { BoundStaysUnsafe }
{}

/// A sort makes it unsafe to break where its order has no seam.
pub fn law_sort_is_unsafe()
    ensures { SortIsUnsafe }
{}

/// It stays so over the events after the sort.
pub fn law_sort_stays_unsafe()
    ensures { SortStaysUnsafe }
{}

/// A `Spread` shows where it is unsafe to break.
pub fn law_spread_shows_unsafe()
    ensures { SpreadShowsUnsafe }
{}

/// No event sets SAFE_TO_INSERT_TATWEEL where it isn't requested.
pub fn law_no_tatweel_stays()
    ensures { NoTatweelStays }
{}

/// What was unsafe to break before some events has UNSAFE_TO_BREAK after them and a `Spread`.
pub fn law_unsafe_is_shown()
    ensures { UnsafeIsShown }
{}

/// No event decides anything else by UNSAFE_TO_CONCAT, nor by whether it is requested.
pub fn law_concat_is_apart()
    ensures { ConcatIsApart }
{}

/// Events that set UNSAFE_TO_CONCAT change nothing else.
pub fn law_concats_are_apart()
    ensures { ConcatsAreApart }
{}
