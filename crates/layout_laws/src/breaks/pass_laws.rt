//! A local rule that is tried at each index of a text reads it as its fragments.
ghost use Rattle.layout_laws.specs.Breaks.Divided.{PassesReadBeside};
ghost use Rattle.layout_laws.specs.Breaks.InOrder.{LookupsInOrderAreDivisible};
ghost use Rattle.layout_laws.specs.Breaks.LookupsBeside.{LookupsAreDivisible, LookupsReadBeside};

/// A local rule over a text reads it as its fragments, one beside the other, or makes it unsafe to break there.
pub fn law_passes_read_beside()
    ensures { PassesReadBeside }
{}

/// A GSUB lookup over a text does what it does to the text's fragments, one beside the other, or makes it unsafe to break
/// between them.
pub fn law_lookups_read_beside()
    ensures { LookupsReadBeside }
{}

/// A GSUB lookup from the left is divisible: it keeps a text divided, or makes it unsafe to break there.
pub fn law_lookups_are_divisible()
    ensures { LookupsAreDivisible }
{}

/// GSUB lookups in order are divisible, each in its own direction.
pub fn law_lookups_in_order_are_divisible()
    ensures { LookupsInOrderAreDivisible }
{}
