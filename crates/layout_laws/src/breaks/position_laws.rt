//! Lookups of positioning are local or idle, and steady: what they do to a fragment of a text alone, they do in the text,
//! or they bind it to what is outside, or only pass a glyph.
ghost use Rattle.layout_laws.specs.Breaks.PositionLaws.{AdjustmentsAreLocal, JoinsAreLocal, MarksAreLocal, PairsAreLocal, PositioningsAreLocal, PositioningsAreSteady};
ghost use Rattle.layout_laws.specs.Breaks.PositionsInOrder.{ClearedLinksLeadInside, PositioningsAreDivisible, PositioningsDivideInTurn, PositioningsInOrderAreDivisible};

/// Single adjustment is local.
pub fn law_adjustments_are_local()
    ensures { AdjustmentsAreLocal }
{}

/// Pair adjustment is local, or idle at a null pair.
pub fn law_pairs_are_local()
    ensures { PairsAreLocal }
{}

/// Cursive attachment is local.
pub fn law_joins_are_local()
    ensures { JoinsAreLocal }
{}

/// Attachment of marks is local.
pub fn law_marks_are_local()
    ensures { MarksAreLocal }
{}

/// Each lookup of positioning is local or idle, of each type, with the lookups nested in it.
pub fn law_positionings_are_local()
    ensures { PositioningsAreLocal }
{}

/// Each leaves fewer items where it acts, and gives no budget back.
pub fn law_positionings_are_steady()
    ensures { PositioningsAreSteady }
{}

/// A lookup of positioning over a text does what it does to the text's fragments, or makes it unsafe to break between
/// them.
pub fn law_positionings_are_divisible()
    ensures { PositioningsAreDivisible }
{}

/// Stages of positioning that divide texts do so one after the other.
pub fn law_positionings_divide_in_turn()
    ensures { PositioningsDivideInTurn }
{}

/// Lookups of positioning in order divide texts.
pub fn law_positionings_in_order_are_divisible()
    ensures { PositioningsInOrderAreDivisible }
{}

/// Where links were cleared, none leads outside a fragment.
pub fn law_cleared_links_lead_inside()
    ensures { ClearedLinksLeadInside }
{}
