//! Who is asked.

/// The judges, the repositories and the clock.
#[derive(Drop)]
pub struct Asked<'judges, 'repos, 'clock, P, R, C> {
    /// The authorities that are asked for homes and verdicts.
    pub judges: &'judges mut P,
    /// Where whole repositories are fetched.
    pub repos: &'repos mut R,
    /// What tells the time.
    pub clock: &'clock mut C,
}
