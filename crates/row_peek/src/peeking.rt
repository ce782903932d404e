//! What a row sends out, found by its items' places.

ghost use Rattle.std.specs.Prelude.{◌≡◌, ◌≤◌, ℕ, List, ◌++◌, true, length, IfSome, option_map};
ghost use Rattle.row_peek.specs.Peeking.{seen, message_at, whole_items_at, whole_at, outcome_at, taken_at, synced_at, operated_at, peeked_at};
ghost use Rattle.row_codec.specs.Bodies.{row_encoding};
ghost use Rattle.relay_row.specs.Rules.{is_row};
ghost use Rattle.relay_row.specs.declared.row.Row.{Row};
ghost use Rattle.row_peek.specs.Peeked.{Sees};

use crate::passing::{behind_item, behind_items, behind_scalars};
use crate::peeked::Peeked;
use at_cbor::{Major, take_bytes, take_number, take_text};

/// The first byte of a list of the six items of a whole repository.
const WHOLE: u8 = 0x86;

/// The string of bytes in front.
#[tactic(auto, unfolding(crate::specs::Peeking::message_at))]
fn lend_message(bytes: &[u8]) -> Option<&[u8]>
    ensures { option_map (λ message. message.now) result ≡ message_at bytes.now }
{
    let (message, _) = take_bytes(bytes)?;
    Some(message)
}

/// The number of a whole repository's event, and its message: the first and the last of its six items.
#[tactic(auto, unfolding(crate::specs::Peeking::whole_items_at))]
fn peek_whole_items(bytes: &[u8]) -> Option<(u64, &[u8])>
    ensures { option_map (λ x. (x.0, x.1.now)) result ≡ whole_items_at bytes.now }
{
    let (seq, rest) = take_number(Major::Unsigned, bytes)?;
    let message = lend_message(behind_scalars(4, rest)?)?;
    Some((seq, message))
}

/// The event of a whole repository, where one was fetched.
#[tactic(auto, unfolding(crate::specs::Peeking::whole_at))]
fn peek_whole(bytes: &[u8]) -> Option<(u64, &[u8])>
    ensures { option_map (λ x. (x.0, x.1.now)) result ≡ whole_at bytes.now }
{
    match bytes {
        [WHOLE, rest @ ..] => peek_whole_items(rest),
        _ => None,
    }
}

/// From its number on, whether the event that a message of this kind led to is of a commit or a sync, and that event: its own, or
/// where it has no number, that of the repository that was fetched.
#[tactic(auto, unfolding(crate::specs::Peeking::outcome_at))]
fn peek_outcome(kind: u64, bytes: &[u8]) -> Option<(bool, u64, &[u8])>
    ensures { option_map (λ x. (x.0, (x.1, x.2.now))) result ≡ outcome_at kind bytes.now }
{
    let (seq, rest) = take_number(Major::Unsigned, bytes)?;
    let (message, rest) = take_bytes(rest)?;
    if seq != 0 {
        return Some((kind <= 2, seq, message));
    }
    let (seq, message) = peek_whole(behind_item(rest)?)?;
    Some((true, seq, message))
}

/// Of a message that was taken: behind the host and its number are the account, the kind, and what was decided.
#[tactic(auto, unfolding(crate::specs::Peeking::taken_at))]
fn peek_taken(bytes: &[u8]) -> Option<Peeked<'_>>
    ensures { option_map seen result ≡ taken_at bytes.now }
{
    let rest = behind_scalars(2, bytes)?;
    let (did, rest) = take_text(rest)?;
    let (kind, rest) = take_number(Major::Unsigned, rest)?;
    let rest = behind_items(2, rest)?;
    let (of_repo, seq, message) = peek_outcome(kind, rest)?;
    Some(Peeked {
        did,
        of_repo,
        seq,
        message,
    })
}

/// Of a repository that was fetched at an operator's command.
#[tactic(auto, unfolding(crate::specs::Peeking::synced_at))]
fn peek_synced(bytes: &[u8]) -> Option<Peeked<'_>>
    ensures { option_map seen result ≡ synced_at bytes.now }
{
    let (did, rest) = take_text(bytes)?;
    let (seq, message) = peek_whole(rest)?;
    Some(Peeked {
        did,
        of_repo: true,
        seq,
        message,
    })
}

/// Of an operator's command: behind the account are whether it is down, and the event's number.
#[tactic(auto, unfolding(crate::specs::Peeking::operated_at))]
fn peek_operated(bytes: &[u8]) -> Option<Peeked<'_>>
    ensures { option_map seen result ≡ operated_at bytes.now }
{
    let (did, rest) = take_text(bytes)?;
    let (seq, rest) = take_number(Major::Unsigned, behind_scalars(1, rest)?)?;
    let message = lend_message(rest)?;
    Some(Peeked {
        did,
        of_repo: false,
        seq,
        message,
    })
}

/// Of a row, whose first item tells what it is of.
#[tactic(auto, unfolding(crate::specs::Peeking::peeked_at))]
fn peek_at(bytes: &[u8]) -> Option<Peeked<'_>>
    ensures { option_map seen result ≡ peeked_at bytes.now }
{
    match bytes {
        [_, 1, rest @ ..] => peek_taken(rest),
        [_, 2, rest @ ..] => peek_synced(rest),
        [_, 3, rest @ ..] => peek_operated(rest),
        _ => None,
    }
}

/// What is seen of the row at the front of bytes. None where it sends no event out, and it may be where no row stands there.
pub fn peek(bytes: &[u8]) -> Option<Peeked<'_>>
    ensures found { option_map seen result ≡ peeked_at bytes.now }
    ensures sees { (row : Row) (rest : List ℕ) → is_row row ≡ true
        → bytes.now ≡ row_encoding row ++ rest → Sees row result }
    ensures within { IfSome result (λ seen. length seen.message.now ≤ length bytes.now) }
{
    peek_at(bytes)
}
