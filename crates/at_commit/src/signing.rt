//! What the signature of a commit object covers.

ghost use Rattle.std.specs.Prelude.{◌≡◌, ◌++◌, length, map, OnOk, IfOk};
ghost use Rattle.std.specs.List.{filter};
ghost use Rattle.at_cbor.specs.Item.{Item, fields_of};
ghost use Rattle.at_cbor.specs.Encoding.{fields_encoding, encoding};
ghost use Rattle.at_cbor.specs.View.{item_of, pair_of};
ghost use Rattle.at_commit.specs.Signed.{is_signed, is_signed_name, signed_encoding, unsigned_of};

use at_cbor::{Fields, Value, write_map_front, write_text, write_value};
use at_cid::{Memory, Octets, Words};
use std::alloc::Global;

/// Whether the field of that name is signed: all but `sig` are.
fn is_signed(name: &Words) -> bool
    ensures { result ≡ is_signed_name name.now }
{
    name.as_str() != "sig"
}

/// How many fields are signed.
fn count_signed(fields: &[(Words, Value)]) -> usize
    ensures { result ≡ length (filter is_signed (map pair_of fields.now)) }
{
    let mut count = 0;
    for (key, _) in fields {
        count += usize::from(is_signed(key));
    }
    count
}

/// Adds the encoding of a field, where it is signed.
fn write_field(out: &mut Octets, key: &Words, value: &Value) -> Result<(), Memory>
    ensures { OnOk result (out.new ≡ out.old ++ signed_encoding (key.now, item_of value.now)) }
{
    if is_signed(key) {
        write_text(out, key.as_str())?;
        write_value(out, value)
    } else {
        Ok(())
    }
}

/// Adds the encoding of all fields that are signed.
fn write_fields(out: &mut Octets, fields: &[(Words, Value)]) -> Result<(), Memory>
    ensures { OnOk result (out.new ≡ out.old
        ++ fields_encoding (fields_of (filter is_signed (map pair_of fields.now)))) }
{
    for (key, value) in fields {
        write_field(out, key, value)?;
    }
    Ok(())
}

/// The encoding of the map without `sig`.
pub fn unsigned(alloc: Global, fields: &Fields) -> Result<Octets, Memory>
    ensures { IfOk result
        (λ bytes. bytes ≡ encoding (Item.map (unsigned_of (fields_of fields.now)))) }
{
    let fields = fields.as_slice();
    let mut out = Octets::new(alloc);
    write_map_front(&mut out, count_signed(fields))?;
    write_fields(&mut out, fields)?;
    Ok(out)
}
