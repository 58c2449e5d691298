//! Laws of our own, which rustybuzz has not: orders of sorts permute, and walks over a list are lossless.
ghost use Rattle.buffer_parts.specs.Breaks.SortLaws.{MarkOrdersPermute, SortsPermute, WalksAreLossless};

/// The order of a sort by keys permutes.
pub fn law_sorts_permute()
    ensures { SortsPermute }
{}

/// The order of combining marks by their classes permutes.
pub fn law_mark_orders_permute()
    ensures { MarkOrdersPermute }
{}

/// The events of deletions and of a reversal of groups are lossless.
pub fn law_walks_are_lossless()
    ensures { WalksAreLossless }
{}
