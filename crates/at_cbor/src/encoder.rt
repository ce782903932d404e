//! The encoding of a value.

ghost use Rattle.std.specs.Prelude.{◌≡◌, ◌++◌, ◌≤◌, ℕ, List, length, IfOk, Ok};
ghost use Rattle.at_cbor.specs.Decoding.{decoded};
ghost use Rattle.at_cbor.specs.Encoding.{encoding, nesting};
ghost use Rattle.at_cbor.specs.View.{item_of};

use crate::decoding::DEPTH;
use crate::value::Value;
use crate::writing::write_value;
use at_cid::{Memory, Octets};
use std::alloc::Global;

/// The one encoding of a value, in which at most 64 lists and maps are in one another.
pub fn encode(alloc: Global, value: &Value) -> Result<Octets, Memory>
    requires { nesting (item_of value.now) ≤ DEPTH }
    ensures encoded { IfOk result (λ bytes. bytes ≡ encoding (item_of value.now)) }
    // It is read back as the same value, whatever follows it.
    ensures again { IfOk result (λ bytes. (rest : List ℕ)
        → decoded (bytes ++ rest) ≡ Ok (item_of value.now, length bytes)) }
{
    let mut out = Octets::new(alloc);
    write_value(&mut out, value)?;
    Ok(out)
}
