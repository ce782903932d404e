//! The headers of events, in the encoding in which they go out and almost always come in.

ghost use Rattle.std.specs.Prelude.{◌≡◌, ◌++◌, IfSome};
ghost use Rattle.at_cbor.specs.Encoding.{encoding};
ghost use Rattle.at_event.specs.Writing.{header_of};

use crate::kind::EventKind;

const COMMIT: &[u8; 15] = b"\xa2\x61t\x67#commit\x62op\x01";

const SYNC: &[u8; 13] = b"\xa2\x61t\x65#sync\x62op\x01";

const IDENTITY: &[u8; 17] = b"\xa2\x61t\x69#identity\x62op\x01";

const ACCOUNT: &[u8; 16] = b"\xa2\x61t\x68#account\x62op\x01";

/// The header `{t, op}` of an event, encoded.
#[tactic(auto, unfolding(at_cbor::specs::Encoding::info_of, at_cbor::specs::Encoding::tail_of))]
pub(crate) fn header(kind: EventKind) -> &'static [u8]
    ensures { result.now ≡ encoding (header_of kind) }
{
    match kind {
        EventKind::Commit => COMMIT,
        EventKind::Sync => SYNC,
        EventKind::Identity => IDENTITY,
        EventKind::Account => ACCOUNT,
    }
}

// The bytes behind the header of an event of this kind.
fn behind_header(kind: EventKind, message: &[u8]) -> Option<&[u8]>
    ensures { IfSome result (λ payload. message.now ≡ encoding (header_of kind) ++ payload.now) }
{
    message.strip_prefix(header(kind))
}

/// The kind of the event whose header stands in front, and the bytes behind it. A header may also have another form.
pub(crate) fn take_header(message: &[u8]) -> Option<(EventKind, &[u8])>
    ensures { IfSome result (λ found. message.now ≡ encoding (header_of found.0) ++ found.1.now) }
{
    if let Some(payload) = behind_header(EventKind::Commit, message) {
        return Some((EventKind::Commit, payload));
    }
    if let Some(payload) = behind_header(EventKind::Account, message) {
        return Some((EventKind::Account, payload));
    }
    if let Some(payload) = behind_header(EventKind::Identity, message) {
        return Some((EventKind::Identity, payload));
    }
    if let Some(payload) = behind_header(EventKind::Sync, message) {
        return Some((EventKind::Sync, payload));
    }
    None
}
