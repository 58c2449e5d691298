//! Requests for features as C passes and reads them.
ghost use Rattle.std.specs.Prelude.{◌≡◌, IfNone, IfSome, true};
ghost use Rattle.std.specs.Str.{is_utf8};
ghost use Rattle.buffer_tags.specs.FeatureGrammar.{IsRequest};
ghost use Rattle.c_text.specs.Texts.{IsNoRequest, feature_of};

use crate::types::kus_feature_t;
use buffer_tags::feature::Feature;
use shell_readers::values::utf8;

/// The request for a feature that a text of UTF-8 writes, none where it writes none (`hb_feature_from_string`).
#[tactic(auto, using(crate::proofs::FeatureTexts::request_read, crate::proofs::FeatureTexts::no_request))]
pub fn read_feature(text: &[u8]) -> Option<kus_feature_t>
    ensures utf8 { IfSome result (λ f. is_utf8 text.now ≡ true) }
    ensures found { IfSome result (λ f. IsRequest text.now (feature_of f)) }
    ensures none { IfNone result (IsNoRequest text.now) }
{
    let text = utf8(text)?;
    match text.parse::<Feature>() {
        Ok(feature) => Some(kus_feature_t {
            tag: feature.tag.0,
            value: feature.value,
            start: feature.start,
            end: feature.end,
        }),
        Err(_) => None,
    }
}
