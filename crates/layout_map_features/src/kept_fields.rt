//! The requests that get bits.
ghost use Rattle.std.specs.Prelude.{◌≡◌, ◌≤◌, ◌++◌, if◌then◌else◌, nat_lt, IfOk, OnOk};
ghost use Rattle.layout_map_features.specs.Entering.{RisesFrom};
ghost use Rattle.layout_map_features.specs.Fields.{bit_after, field_among, kept_fields, kept_field};

use crate::field::{FIRST_FEATURE_BIT, FeatureField, bit_after};
use crate::request::MergedRequest;
use std::alloc::{AllocError, Global};

/// A request and the bits of its feature.
#[derive(Clone, Copy)]
pub struct KeptField {
    pub request: MergedRequest,
    pub field: FeatureField,
}

#[tactic(auto, using(crate::proofs::Threading::below_step))]
/// The field of a request among others: its bits follow the fields of lower tags.
pub fn field_among(requests: &[MergedRequest], request: &MergedRequest) -> Option<FeatureField>
    ensures { result ≡ field_among requests.now request.now }
{
    let mut next = FIRST_FEATURE_BIT;
    for other in requests {
        next = after_lower(next, other, request.tag.0);
    }
    request.field(next)
}

fn after_lower(next: u32, other: &MergedRequest, tag: u32) -> u32
    requires { next ≤ 31 }
    ensures same { result ≡ (if nat_lt other.now.tag.0 tag then bit_after next other.now else next) }
    ensures within { result ≤ 31 }
{
    if other.tag.0 < tag {
        bit_after(next, other)
    } else {
        next
    }
}

fn push_if(
    kept: &mut Vec<KeptField>,
    request: &MergedRequest,
    field: Option<FeatureField>,
) -> Result<(), AllocError>
    ensures { OnOk result (kept.new.items ≡ kept.old.items ++ kept_field request.now field) }
{
    if let Some(field) = field {
        kept.push(KeptField {
            request: *request,
            field,
        })?;
    }
    Ok(())
}

#[tactic(auto, using(crate::proofs::Threading::kept_step))]
/// The requests that get a field, each with its field, of requests whose tags rise strictly.
pub fn kept_fields(alloc: Global, requests: &[MergedRequest]) -> Result<Vec<KeptField>, AllocError>
    requires { RisesFrom (λ m. m.tag.0) 0 requests.now }
    ensures { IfOk result (λ kept. kept.items ≡ kept_fields requests.now) }
{
    let mut kept = Vec::new(alloc);
    let mut next = FIRST_FEATURE_BIT;
    for request in requests {
        push_if(&mut kept, request, request.field(next))?;
        next = bit_after(next, request);
    }
    Ok(kept)
}
