// What an audit comes to.
use cert_checker::Stop;
use day_commands::refused::DayFault;
use dossier_terms::Reason;

/// What an audit comes to: the first of these that reading meets. Rounds are numbered from 1, lines too, from the one behind
/// the line `dossiers` on.
#[derive(Clone, Copy, Debug, PartialEq, Eq)]
pub enum Event {
    /// No line `dossiers` comes: the input ends before it, or a line before it is too long, or all that comes before it.
    NoDossiers(Stop),
    /// The day is refused: its text is too long, or the record of this number is refused.
    Refused {
        number: u64,
        cause: DayFault,
    },
    /// The dossier of the round breaks a rule, or does not come whole.
    BadDossier {
        round: u64,
        line: u64,
        reason: Reason,
    },
    /// The dossier of the round is good, and has another instance.
    Instance {
        round: u64,
    },
    /// It has another node budget.
    Nodes {
        round: u64,
    },
    /// It keeps other routes.
    Kept {
        round: u64,
    },
    /// More bytes come behind the dossiers of all rounds, which are so many.
    More {
        rounds: u64,
    },
    /// The dossiers belong to the day, which has so many rounds.
    Belong {
        rounds: u64,
    },
}
