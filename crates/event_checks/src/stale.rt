//! Revisions that have passed.

ghost use Rattle.std.specs.Prelude.{◌≡◌};
ghost use Rattle.event_checks.specs.Table.{is_stale};

use at_syntax::Tid;

/// Whether a revision isn't above the last one. Nothing is stale where there is no last one.
pub fn is_stale(last: Option<Tid>, rev: Tid) -> bool
    ensures { result ≡ is_stale last rev }
{
    match last {
        Some(last) => rev <= last,
        None => false,
    }
}
