//! Reads JSON values from bytes.
ghost use Rattle.std.specs.Prelude.{◌≡◌, ◌≢◌, Ok, Err, IfOk, IfErr, MatchOption, true, false};
ghost use Rattle.std.specs.Str.{is_utf8};
ghost use Rattle.serde_json.specs.View.{view};
ghost use Rattle.serde_json.specs.Errors.{IsMemory};
ghost use Rattle.shell_readers.specs.Faults.{IsOfRun};
ghost use Rattle.shell_readers.specs.Values.{json_of};

use crate::fault::RunFault;
use serde_json::Value;
use shell_json::fault::JsonFault;
use std::alloc::Global;

/// The text of bytes, where they are UTF-8.
#[tactic(auto, using(crate::proofs::Bytes::is_text, crate::proofs::Bytes::is_no_text))]
pub fn utf8(bytes: &[u8]) -> Option<&str>
    ensures { MatchOption result (is_utf8 bytes.now ≡ false)
        (λ s. (s.now ≡ bytes.now) × (is_utf8 bytes.now ≡ true)) }
{
    str::from_utf8(bytes).ok()
}

/// The JSON value of bytes.
///
/// # Errors
///
/// `NotJson` where they are no JSON text, or lack of memory.
pub fn read_json(alloc: Global, bytes: &[u8]) -> Result<Value, RunFault>
    ensures ok { IfOk result (λ v. json_of bytes.now ≡ Ok (view v)) }
    ensures refused { IfErr result (λ e. e ≢ RunFault.OutOfMemory → json_of bytes.now ≡ Err e) }
    ensures kind { IfErr result IsOfRun }
{
    let Some(text) = utf8(bytes) else {
        return Err(RunFault::Json(JsonFault::NotJson));
    };
    match Value::from_str(alloc, text) {
        Ok(value) => Ok(value),
        Err(error) => Err(json_fault(&error)),
    }
}

fn json_fault(error: &serde_json::Error) -> RunFault
    ensures memory { IsMemory error.now → result ≡ RunFault.OutOfMemory }
    ensures text { ¬ IsMemory error.now → result ≡ RunFault.Json JsonFault.NotJson }
{
    if error.is_memory() {
        RunFault::OutOfMemory
    } else {
        RunFault::Json(JsonFault::NotJson)
    }
}
