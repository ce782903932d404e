//! The text of a value.

ghost use Rattle.std.specs.Prelude.{◌≡◌, false, IfOk};
ghost use Rattle.serde_json.specs.View.{view};
ghost use Rattle.serde_json.specs.Written.{has_float};
ghost use Rattle.json_text.specs.Texts.{json_text};

use at_cid::{Memory, Octets};
use serde_json::Value;
use std::alloc::Global;

/// The JSON text of a value without floats, with no blanks (RFC 8259). An error says that there was
/// no memory for it.
#[tactic(auto, using(crate::proofs::Written::text_is))]
pub fn bytes_of(alloc: Global, value: &Value) -> Result<Octets, Memory>
    requires { has_float (view value.now) ≡ false }
    ensures { IfOk result (λ text. text ≡ json_text (view value.now)) }
{
    let text = value.to_vec(alloc)?;
    Ok(Octets::from_vec(text))
}
