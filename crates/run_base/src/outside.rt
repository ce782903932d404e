//! All that a command on a journal may use.

use crate::pair::Pair;
use relay_step::Asked;

/// The disks, who is asked, and the output.
#[derive(Drop)]
pub struct Outside<'one, 'two, 'judges, 'repos, 'clock, 'out, D, P, R, C, O> {
    /// The disks.
    pub pair: Pair<'one, 'two, D>,
    /// Who is asked.
    pub asked: Asked<'judges, 'repos, 'clock, P, R, C>,
    /// Where lines are written.
    pub out: &'out mut O,
}
