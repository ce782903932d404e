//! How long the edge waits, and how much it takes. Seconds are those that calls wait for the other
//! side; what the relay does in between costs nobody anything.

/// The most seconds that count for a call which a signal interrupted, and for a look at what a guest
/// says: the relay itself may have been stopped meanwhile, for which the other side can't be blamed.
pub(crate) const STOP_SECONDS: u64 = 1;

/// The milliseconds after which a connection that couldn't be taken is tried again.
pub(crate) const ACCEPT_PAUSE_MILLISECONDS: u64 = 100;

/// How often that is tried: for half a minute.
pub(crate) const MOST_ACCEPTS: u64 = 300;

/// The seconds in which a guest's request has to come and its answer to leave.
pub(crate) const WELCOME_SECONDS: u64 = 5;

/// The seconds for telling a refused guest why.
pub(crate) const REFUSAL_SECONDS: u64 = 1;

/// The most seconds for which the messages of a session may wait to leave. Each byte that is handed
/// over gives a microsecond back, so that a session waits no longer than this and a second for each
/// megabyte.
pub(crate) const SESSION_SECONDS: u64 = 30;

/// The seconds for what a close sends off, and for the guest's own close.
pub(crate) const CLOSE_SECONDS: u64 = 10;

/// The seconds in which a host has to take the connection.
pub(crate) const CONNECT_SECONDS: u64 = 10;

/// The seconds in which a host has to answer the request for its stream.
pub(crate) const ANSWER_SECONDS: u64 = 10;

/// The seconds without a message after which a host is sent a ping.
pub(crate) const QUIET_SECONDS: u64 = 30;

/// The seconds that a host has for a pong, or for anything else that is whole.
pub(crate) const PONG_SECONDS: u64 = 30;

/// The seconds in which a request on the wire has to come.
pub(crate) const REQUEST_SECONDS: u64 = 5;

/// The seconds in which a reply on the wire has to leave.
pub(crate) const REPLY_SECONDS: u64 = 30;

/// The seconds for which a connection of the wire is read on after its reply.
pub(crate) const BEHIND_SECONDS: u64 = 1;

/// How many bytes are read at a time, and dropped, after the last ones that were sent.
pub(crate) const PIECE_BEHIND: usize = 4096;

/// The most times that this many are read.
pub(crate) const MOST_PIECES_BEHIND: usize = 1000;

/// The longest head of a handshake, in bytes.
pub(crate) const LONGEST_HEAD: usize = 16_384;

/// The most fields of such a head.
pub(crate) const MOST_FIELDS: usize = 100;

/// The longest payload of a ping, a pong or a close, in bytes (RFC 6455, section 5.5).
pub(crate) const LONGEST_SIGN: u64 = 125;

/// The most pings and pongs of a host that are passed over before it is sent a ping.
pub(crate) const MOST_SIGNS: usize = 1000;

/// The most frames of a message of a host or a guest.
pub(crate) const MOST_FRAMES: u64 = 65_536;

/// The most of these frames that bring no byte.
pub(crate) const MOST_EMPTY_FRAMES: u64 = 1000;

/// The longest message of a guest, in bytes: a consumer has nothing to say.
pub(crate) const LONGEST_WORD: usize = 4096;

/// The most messages of a guest that are read at a time.
pub(crate) const MOST_WORDS: usize = 1000;

/// How many bytes of messages are kept to leave in one write, and how many are handed over between
/// two looks at what the guest says.
pub(crate) const WRITE_SIZE: usize = 131_072;
