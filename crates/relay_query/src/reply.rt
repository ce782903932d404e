//! A reply that is made.

ghost use Rattle.std.specs.Prelude.{◌≡◌, false};
ghost use Rattle.serde_json.specs.View.{view};
ghost use Rattle.serde_json.specs.Written.{has_float};

use serde_json::Value;

/// A reply that is made. Its body has no floats.
#[derive(Drop)]
pub(crate) struct Reply {
    /// Its status code, with the reason phrase.
    pub(crate) code: &'static str,
    /// Its body.
    pub(crate) body: Value,
    pub(crate) ghost plain: { has_float (view body) ≡ false },
}
