//! Laws of builders and maps.
ghost use Rattle.layout_map.specs.Laws.{OneBuilderOneMap};

/// A builder that compiles its map twice gives the same map, whatever was read of it between: all that can be read of
/// the one map is what can be read of the other.
pub fn law_one_builder_one_map()
    ensures { OneBuilderOneMap }
{}
