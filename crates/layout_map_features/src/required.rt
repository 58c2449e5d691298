//! The required feature of a language system (OpenType, chapter 2, `requiredFeatureIndex`).
ghost use Rattle.std.specs.Prelude.{◌≡◌};
ghost use Rattle.layout_map_features.specs.Required.{required_index};

/// The feature that a language system always has on, and the stage that applies it.
#[derive(Clone, Copy)]
pub struct RequiredFeature {
    pub index: u16,
    pub stage: usize,
}

/// The index of the feature that is required in a stage: the language system's in its own stage, none in any other.
pub fn required_index(required: Option<RequiredFeature>, stage: usize) -> Option<u16>
    ensures { result ≡ required_index stage required }
{
    let required = required?;
    if required.stage != stage {
        return None;
    }
    Some(required.index)
}
