//! The laws of a relay after a relay, each the contract of a function that does nothing.

ghost use Rattle.chain_law.specs.GivenLaws.{OperatedAreGiven, OwnJournalsAreGiven, StepsAreGiven, SyncedAreGiven};
ghost use Rattle.chain_law.specs.Laws.{EventsAreRead, RelaysFollow, RelaysGoOn, RunsFollow};
ghost use Rattle.chain_law.specs.Needed.{PremisesAreNeeded};
ghost use Rattle.chain_law.specs.Trust.{TrustingStepsShow};

/// Of each account whose whole history a relay serves, a relay behind it accepts all events, in order.
pub fn relays_follow()
    ensures { RelaysFollow }
{}

/// A relay that has taken what another one serves of an account, and runs again, accepts all events that have come since, in order.
pub fn relays_go_on()
    ensures { RelaysGoOn }
{}

/// Run after run, a relay behind a relay accepts all events of each account that was new to both, once each, in order.
pub fn runs_follow()
    ensures { RunsFollow }
{}

/// Each event of a journal that a relay made is read as one, under its number.
pub fn events_are_read()
    ensures { EventsAreRead }
{}

/// Premises without which an account isn't followed.
pub fn premises_are_needed()
    ensures { PremisesAreNeeded }
{}

/// Before judges who say yes to everything, no row shows another home or a bad signature.
pub fn trusting_steps_show()
    ensures { TrustingStepsShow }
{}

/// After rows that are given, the rows of steps are given too.
pub fn steps_are_given()
    ensures { StepsAreGiven }
{}

/// So is the row of an account that is taken down or restored.
pub fn operated_are_given()
    ensures { OperatedAreGiven }
{}

/// And the row of a repository that is fetched at an operator's command.
pub fn synced_are_given()
    ensures { SyncedAreGiven }
{}

/// Each journal that a relay's own commands make from an empty one is given.
pub fn own_journals_are_given()
    ensures { OwnJournalsAreGiven }
{}
