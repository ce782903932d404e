//! The fields of a map that is written field by field: a name, and a value.

ghost use Rattle.std.specs.Prelude.{◌≡◌, ◌++◌, ◌<◌, OnOk};
ghost use Rattle.at_cbor.specs.Item.{Item};
ghost use Rattle.at_syntax.specs.Tid.{digits_of};
ghost use Rattle.at_cid.specs.declared.limits.TheConstants.{NUMBERS};
ghost use Rattle.at_event.specs.Writing.{field_encoding, number_item};

use crate::writing::write_number;
use at_cbor::{write_bool, write_bytes, write_text};
use at_cid::{Memory, Octets};
use at_syntax::{TID_LEN, Tid};

/// Adds a field of a map whose value is a text.
pub fn write_text_field(out: &mut Octets, key: &str, text: &str) -> Result<(), Memory>
    ensures { OnOk result (out.new ≡ out.old ++ field_encoding key.now (Item.text text.now)) }
{
    write_text(out, key)?;
    write_text(out, text)
}

/// Adds a field whose value is a revision, as a text.
pub fn write_tid_field(out: &mut Octets, key: &str, tid: Tid) -> Result<(), Memory>
    ensures { OnOk result
        (out.new ≡ out.old ++ field_encoding key.now (Item.text (digits_of tid))) }
{
    let mut digits = [0; TID_LEN];
    write_text_field(out, key, tid.write_text(&mut digits))
}

/// Adds a field whose value is a number.
pub fn write_number_field(out: &mut Octets, key: &str, number: u64) -> Result<(), Memory>
    requires { number < NUMBERS }
    ensures { OnOk result (out.new ≡ out.old ++ field_encoding key.now (number_item number)) }
{
    write_text(out, key)?;
    write_number(out, number)
}

/// Adds a field whose value is a string of bytes.
pub fn write_bytes_field(out: &mut Octets, key: &str, bytes: &[u8]) -> Result<(), Memory>
    ensures { OnOk result (out.new ≡ out.old ++ field_encoding key.now (Item.bytes bytes.now)) }
{
    write_text(out, key)?;
    write_bytes(out, bytes)
}

/// Adds a field whose value is true or false.
pub fn write_bool_field(out: &mut Octets, key: &str, truth: bool) -> Result<(), Memory>
    ensures { OnOk result (out.new ≡ out.old ++ field_encoding key.now (Item.bool truth)) }
{
    write_text(out, key)?;
    write_bool(out, truth)
}
