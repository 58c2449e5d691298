//! Features of a layout table as they are, with others after them.
ghost use Rattle.std.specs.Prelude.{◌≡◌, IfOk};

use layout_tables::table::FeatureRecord;
use std::alloc::{AllocError, Global};

fn copied(alloc: Global, feature: &FeatureRecord) -> Result<FeatureRecord, AllocError>
    ensures { IfOk result (λ f. f ≡ feature.now) }
{
    let lookups = feature.lookups().to_vec(alloc)?;
    Ok(FeatureRecord::new(feature.tag(), lookups))
}

/// A copy of features, with room for two more.
pub fn copied_features(
    alloc: Global,
    features: &[FeatureRecord],
) -> Result<Vec<FeatureRecord>, AllocError>
    ensures { IfOk result (λ v. v.items ≡ features.now) }
{
    let mut copies = Vec::new(alloc);
    for feature in features {
        copies.push(copied(alloc, feature)?)?;
    }
    Ok(copies)
}
