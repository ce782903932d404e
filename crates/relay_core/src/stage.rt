//! How far the front of a journal goes.

ghost use Rattle.std.specs.Prelude.{◌≡◌};
ghost use Rattle.relay_core.specs.Stages.{is_start, takes_hosts, takes_accounts};

/// How far the front of a journal goes: what was carried over from one that was cut.
#[derive(Clone, Copy, Debug, PartialEq, Eq)]
pub enum Stage {
    /// There are no rows.
    Start,
    /// All rows carry the last number or hosts.
    Hosts,
    /// All rows carry something, the last one an account.
    Accounts,
    /// There are other rows.
    Events,
}

/// Whether the front begins here, with the last number.
pub fn is_start(stage: Stage) -> bool
    ensures { result ≡ is_start stage }
{
    matches!(stage, Stage::Start)
}

/// Whether a host may follow.
pub fn takes_hosts(stage: Stage) -> bool
    ensures { result ≡ takes_hosts stage }
{
    matches!(stage, Stage::Hosts)
}

/// Whether an account may follow.
pub fn takes_accounts(stage: Stage) -> bool
    ensures { result ≡ takes_accounts stage }
{
    matches!(stage, Stage::Hosts | Stage::Accounts)
}
