//! The language of a text (rustybuzz: hb/common.rs, `Language`).
//!
//! As each error type of the workspace `LanguageFault` has a conversion from want of memory of its own: rt takes no
//! impl that a macro of a repository writes.
ghost use Rattle.std.specs.Prelude.{◌≡◌, ◌↔◌, [], IfOk};
ghost use Rattle.std.specs.Str.{str_to_ascii_lowercase};
ghost use Rattle.buffer_common.specs.Language.{language_text};

use std::alloc::{AllocError, Global};
use thiserror::Error;

/// A language by its BCP 47 tag, in small letters.
#[derive(Debug, PartialEq, Eq, Drop)]
pub struct Language(String);

/// The error of a text that gives no language.
#[derive(Clone, Copy, PartialEq, Eq, Debug, Error)]
pub enum LanguageFault {
    /// The text is empty.
    #[error("invalid language")]
    Invalid,
    #[error("out of memory")]
    OutOfMemory,
}

impl From<AllocError> for LanguageFault {
    ghost use Rattle.std.specs.Prelude.{◌≡◌};
    ghost use Rattle.buffer_common.specs.declared.language.LanguageFault.TheVariants.{OutOfMemory};

    ghost from_gives = { λ _ e. e ≡ OutOfMemory };

    fn from(_error: AllocError) -> LanguageFault {
        LanguageFault::OutOfMemory
    }
}

impl Language {
    /// The language of a BCP 47 tag, in small letters; an empty text is refused, and want of memory.
    pub fn from_str(alloc: Global, text: &str) -> Result<Language, LanguageFault>
        ensures lowered { IfOk result (λ language. language_text language ≡ str_to_ascii_lowercase text.now) }
        ensures invalid { (result ≡ Err LanguageFault.Invalid) ↔ (text.now ≡ []) }
    {
        if text.is_empty() {
            return Err(LanguageFault::Invalid);
        }
        Ok(Language(text.to_ascii_lowercase(alloc)?))
    }

    /// The BCP 47 tag, in small letters.
    pub fn as_str(&self) -> &str
        ensures { result.now ≡ language_text self.now }
    {
        self.0.as_str()
    }
}
