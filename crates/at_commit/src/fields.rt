//! The fields of a commit object, each in its form.

ghost use Rattle.std.specs.Prelude.{◌≡◌, option_map};
ghost use Rattle.at_cbor.specs.Item.{fields_of};
ghost use Rattle.at_cbor.specs.View.{item_of};
ghost use Rattle.at_commit.specs.Fields.{is_previous, object_of};
ghost use Rattle.at_commit.specs.Parts.{seen_object};

use at_cbor::{Fields, Value};
use at_cid::{Cid, Octets, Words};
use at_form::{did, node, tid};
use at_syntax::Tid;

/// The fields that a commit object is read for.
#[derive(Debug, Drop)]
pub struct Parts<'a> {
    pub did: &'a Words,
    pub version: i64,
    pub data_root: Cid,
    pub rev: Tid,
    pub sig: &'a Octets,
}

/// Whether `prev` is a link, null or absent.
#[tactic(auto, unfolding(crate::specs::Fields::is_previous))]
fn is_previous(prev: Option<&Value>) -> bool
    ensures { result ≡ is_previous (option_map (λ value. item_of value.now) prev.entry) }
{
    match prev {
        Some(value) => value.is_null() || value.as_link().is_some(),
        None => true,
    }
}

/// The fields of a commit object, where each of them is there in its form.
#[tactic(auto, unfolding(crate::specs::Fields::object_of))]
pub fn parts_of(fields: &Fields) -> Option<Parts<'_>>
    ensures { option_map seen_object result ≡ object_of (fields_of fields.now) }
{
    let did = did(fields.find("did")?)?;
    let version = fields.find("version")?.as_int()?;
    let data_root = node(fields.find("data")?)?;
    let rev = tid(fields.find("rev")?)?;
    let sig = fields.find("sig")?.as_bytes()?;
    if is_previous(fields.find("prev")) {
        Some(Parts {
            did,
            version,
            data_root,
            rev,
            sig,
        })
    } else {
        None
    }
}
