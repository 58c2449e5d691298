//! The calls that read what texts name, as `include/kuspveli.h` declares them.
ghost use Rattle.std.specs.Prelude.{◌≡◌, false, true};
ghost use Rattle.std.specs.Str.{is_utf8};
ghost use Rattle.buffer_tags.specs.FeatureGrammar.{IsRequest};
ghost use Rattle.c_text.specs.Numbers.{script_number, script_numbered};
ghost use Rattle.c_text.specs.Texts.{IsNoRequest, feature_of};

use c_text::numbers::{script_number, script_numbered};
use c_text::requests::read_feature;
use c_text::types::kus_feature_t;

/// Whether a text of UTF-8 writes a request for a feature, as `liga=0`, which is then written.
#[unsafe(no_mangle)]
pub extern "C" fn kus_feature_from_string(text: &[u8], feature: &mut kus_feature_t) -> bool
    ensures utf8 { result ≡ true → is_utf8 text.now ≡ true }
    ensures found { result ≡ true → IsRequest text.now (feature_of feature.new) }
    ensures none { result ≡ false → IsNoRequest text.now }
    ensures kept { result ≡ false → feature.new ≡ feature.old }
{
    let Some(found) = read_feature(text) else {
        return false;
    };
    *feature = found;
    true
}

/// The script of an ISO 15924 tag in any case, as its tag (`hb_script_from_iso15924_tag`): Arab for Aran, Zzzz for four bytes
/// that name none, 0 for 0.
#[unsafe(no_mangle)]
pub extern "C" fn kus_script_from_iso15924_tag(tag: u32) -> u32
    ensures { result ≡ script_number (script_numbered tag) }
{
    script_number(script_numbered(tag))
}
