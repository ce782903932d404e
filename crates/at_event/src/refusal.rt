//! Why a relay refuses a message, or an operator's command.

ghost use Rattle.std.specs.Prelude.{◌≡◌};
ghost use Rattle.at_event.specs.Refusals.{code_of, refusal_name, plain_refusal};

use at_cid::Cid;

/// The number of [`Refusal::BadNode`].
pub const BAD_NODE: u8 = 20;

/// The number of [`Refusal::OtherOp`].
pub const OTHER_OP: u8 = 21;

/// The number of [`Refusal::NotCovered`].
pub const NOT_COVERED: u8 = 22;

/// The number of [`Refusal::OtherData`].
pub const OTHER_DATA: u8 = 23;

/// Why a message, or an operator's command, is refused.
#[derive(Clone, Copy, Debug, PartialEq, Eq)]
pub enum Refusal {
    /// The frame is an event with a bad field.
    BadEvent,
    /// The host isn't the account's home.
    NotHome,
    /// The account isn't active.
    Inactive,
    /// The operator took the account down.
    TakenDown,
    /// The host left operations out.
    TooBig,
    /// The CAR has too many bytes.
    BlocksTooLong,
    /// More than 200 operations.
    TooManyOps,
    /// A path of another form.
    BadPath,
    /// Two operations have one path.
    RepeatedPath,
    /// An unknown action, or one whose links don't fit it.
    BadOp,
    /// The revision isn't above the last one.
    Stale,
    /// The CAR doesn't read.
    BadCar,
    /// The CAR's first root is missing or isn't the commit.
    WrongRoot,
    /// A block of the CAR isn't its link's.
    WrongDigest,
    /// The commit block isn't in the CAR.
    NoCommit,
    /// The commit block is no commit object.
    BadCommit,
    /// The commit object names another account or revision.
    OtherCommit,
    /// The signature is bad.
    BadSignature,
    /// The commit doesn't follow the last one.
    Gap,
    /// The block under this link is missing or is no node.
    BadNode(Cid),
    /// The operation of this place, from 0, disagrees with the tree.
    OtherOp(u32),
    /// The blocks don't show the operation of this place, from 0.
    NotCovered(u32),
    /// The tree before should have the first link, and has the second.
    OtherData(Cid, Cid),
    /// The outgoing message would be too long.
    TooLong,
    /// The revision is far ahead of the clock.
    FutureRev,
    /// The message is no commit event.
    NotCommit,
    /// The account is down already.
    AlreadyDown,
    /// The account isn't down.
    NotDown,
    /// There is no repository to fetch.
    NoRepository,
    /// The fetched repository was refused, with this number.
    RepositoryRefused(u8),
    /// No number that is held is to be cut off.
    NothingToCut,
    /// The number is above the last one.
    PastEnd,
    /// The log can't be cut again.
    LastCut,
}

impl Refusal {
    /// The number that rows and reports give.
    pub fn code(&self) -> u8
        ensures { result ≡ code_of self.now }
    {
        match self {
            Refusal::BadEvent => 1,
            Refusal::NotHome => 2,
            Refusal::Inactive => 3,
            Refusal::TakenDown => 4,
            Refusal::TooBig => 5,
            Refusal::BlocksTooLong => 6,
            Refusal::TooManyOps => 7,
            Refusal::BadPath => 8,
            Refusal::RepeatedPath => 9,
            Refusal::BadOp => 10,
            Refusal::Stale => 11,
            Refusal::BadCar => 12,
            Refusal::WrongRoot => 13,
            Refusal::WrongDigest => 14,
            Refusal::NoCommit => 15,
            Refusal::BadCommit => 16,
            Refusal::OtherCommit => 17,
            Refusal::BadSignature => 18,
            Refusal::Gap => 19,
            Refusal::BadNode(_) => BAD_NODE,
            Refusal::OtherOp(_) => OTHER_OP,
            Refusal::NotCovered(_) => NOT_COVERED,
            Refusal::OtherData(_, _) => OTHER_DATA,
            Refusal::TooLong => 24,
            Refusal::FutureRev => 25,
            Refusal::NotCommit => 30,
            Refusal::AlreadyDown => 31,
            Refusal::NotDown => 32,
            Refusal::NoRepository => 33,
            Refusal::RepositoryRefused(_) => 34,
            Refusal::NothingToCut => 35,
            Refusal::PastEnd => 36,
            Refusal::LastCut => 37,
        }
    }

    /// The refusal of this number, of those that say no more than it.
    #[tactic(auto, unfolding(crate::specs::Refusals::plain_refusal))]
    pub fn plain(code: u8) -> Option<Refusal>
        ensures { result ≡ plain_refusal code }
    {
        match code {
            1 => Some(Refusal::BadEvent),
            2 => Some(Refusal::NotHome),
            3 => Some(Refusal::Inactive),
            4 => Some(Refusal::TakenDown),
            5 => Some(Refusal::TooBig),
            6 => Some(Refusal::BlocksTooLong),
            7 => Some(Refusal::TooManyOps),
            8 => Some(Refusal::BadPath),
            9 => Some(Refusal::RepeatedPath),
            10 => Some(Refusal::BadOp),
            11 => Some(Refusal::Stale),
            12 => Some(Refusal::BadCar),
            13 => Some(Refusal::WrongRoot),
            14 => Some(Refusal::WrongDigest),
            15 => Some(Refusal::NoCommit),
            16 => Some(Refusal::BadCommit),
            17 => Some(Refusal::OtherCommit),
            18 => Some(Refusal::BadSignature),
            19 => Some(Refusal::Gap),
            24 => Some(Refusal::TooLong),
            25 => Some(Refusal::FutureRev),
            30 => Some(Refusal::NotCommit),
            31 => Some(Refusal::AlreadyDown),
            32 => Some(Refusal::NotDown),
            33 => Some(Refusal::NoRepository),
            35 => Some(Refusal::NothingToCut),
            36 => Some(Refusal::PastEnd),
            37 => Some(Refusal::LastCut),
            _ => None,
        }
    }

    /// The word that reports give.
    pub fn name(&self) -> &'static str
        ensures { result.now ≡ refusal_name self.now }
    {
        match self {
            Refusal::BadEvent => "BadEvent",
            Refusal::NotHome => "NotHome",
            Refusal::Inactive => "Inactive",
            Refusal::TakenDown => "TakenDown",
            Refusal::TooBig => "TooBig",
            Refusal::BlocksTooLong => "BlocksTooLong",
            Refusal::TooManyOps => "TooManyOps",
            Refusal::BadPath => "BadPath",
            Refusal::RepeatedPath => "RepeatedPath",
            Refusal::BadOp => "BadOp",
            Refusal::Stale => "Stale",
            Refusal::BadCar => "BadCar",
            Refusal::WrongRoot => "WrongRoot",
            Refusal::WrongDigest => "WrongDigest",
            Refusal::NoCommit => "NoCommit",
            Refusal::BadCommit => "BadCommit",
            Refusal::OtherCommit => "OtherCommit",
            Refusal::BadSignature => "BadSignature",
            Refusal::Gap => "Gap",
            Refusal::BadNode(_) => "BadNode",
            Refusal::OtherOp(_) => "OtherOp",
            Refusal::NotCovered(_) => "NotCovered",
            Refusal::OtherData(_, _) => "OtherData",
            Refusal::TooLong => "TooLong",
            Refusal::FutureRev => "FutureRev",
            Refusal::NotCommit => "NotCommit",
            Refusal::AlreadyDown => "AlreadyDown",
            Refusal::NotDown => "NotDown",
            Refusal::NoRepository => "NoRepository",
            Refusal::RepositoryRefused(_) => "RepositoryRefused",
            Refusal::NothingToCut => "NothingToCut",
            Refusal::PastEnd => "PastEnd",
            Refusal::LastCut => "LastCut",
        }
    }
}
