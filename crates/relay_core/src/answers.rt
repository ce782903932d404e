//! What is asked about a message before it is decided, and the answers so far.

use at_event::{Head, Refusal};
use relay_row::Fetched;

/// What is to be asked next.
#[derive(Clone, Copy, Debug, PartialEq, Eq)]
pub enum Question {
    /// The clock's moment.
    Moment,
    /// That the account's home is looked up anew.
    Refresh,
    /// Whether the host is the account's home.
    Home,
    /// What the message's commit says, or why it is refused by itself.
    Open,
    /// Whether the commit's signature is good.
    Verdict,
    /// Whether the commit follows the account's last one.
    Link,
    /// The account's whole repository.
    Fetch,
}

/// The answers to questions about one message. What wasn't asked has none.
#[derive(Debug, Drop)]
pub struct Answers {
    /// The clock's moment, in microseconds since 1970.
    pub moment: Option<u64>,
    /// Whether the account's home was looked up anew.
    pub refreshed: bool,
    /// Whether the host is the account's home.
    pub home: Option<bool>,
    /// The head that the commit gives its repository, or why it is refused by itself.
    pub opened: Option<Result<Head, Refusal>>,
    /// Whether the signature is good.
    pub verdict: Option<bool>,
    /// Whether the commit follows the account's last one, or why not.
    pub linked: Option<Result<(), Refusal>>,
    /// What became of the fetch.
    pub fetched: Option<Fetched>,
}

impl Answers {
    ghost use Rattle.std.specs.Prelude.{◌≡◌};
    ghost use Rattle.relay_core.specs.Table.{no_answers};

    /// No answers yet.
    pub fn new() -> Answers
        ensures { result ≡ no_answers }
    {
        Answers {
            moment: None,
            refreshed: false,
            home: None,
            opened: None,
            verdict: None,
            linked: None,
            fetched: None,
        }
    }
}
