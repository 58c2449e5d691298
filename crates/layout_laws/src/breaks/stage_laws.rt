//! The stages of GSUB, with the pauses between them, are divisible.
ghost use Rattle.layout_laws.specs.Breaks.ItemMaps.{ItemMapsAreDivisible};
ghost use Rattle.layout_laws.specs.Breaks.Stages.{OwnRandomIsDivisible, SubstitutionIsDivisible, TableStagesAreDivisible};

/// A divisible stage is divisible where it draws from a random state of its own.
pub fn law_own_random_is_divisible()
    ensures { OwnRandomIsDivisible }
{}

/// The lookups of GSUB stages, with the pauses between them, are divisible where the pauses are.
pub fn law_table_stages_are_divisible()
    ensures { TableStagesAreDivisible }
{}

/// All substitution by a map is divisible where the pauses are.
pub fn law_substitution_is_divisible()
    ensures { SubstitutionIsDivisible }
{}

/// A stage that changes each item by itself, and spares ligature numbers, is divisible.
pub fn law_item_maps_are_divisible()
    ensures { ItemMapsAreDivisible }
{}
