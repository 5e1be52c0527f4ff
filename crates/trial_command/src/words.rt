// The words of a trial.
ghost use Rattle.std.specs.Prelude.{◌≡◌, ◌≢◌, ◌≤◌, ℕ, map, string_bytes, MatchOption};
ghost use Rattle.std.specs.Fmt.{decimal};
ghost use Rattle.crew_terms.specs.declared.TheConstants.{MOST_NUMBER};
ghost use Rattle.trial_command.specs.Trials.{AsksForTrial};

use crew_terms::{MOST_NODES, MOST_NUMBER, MOST_TASKS, MOST_TEAMS};
use field_table::read_number;

/// A trial: the number of a generated day, how many teams and tasks it has, and the budget of nodes that its one round is
/// planned with.
#[derive(Clone, Copy, Debug, PartialEq, Eq)]
pub struct Trial {
    pub number: u64,
    pub teams: u32,
    pub tasks: u32,
    pub nodes: u32,
}

/// The natural number whose canonical decimal the word is; None exactly where it is that of none up to `MOST_NUMBER`.
fn natural(word: &str) -> Option<u64>
    ensures { MatchOption result ((n : ℕ) → n ≤ MOST_NUMBER → word.now ≢ decimal n)
        (λ n. (n ≤ MOST_NUMBER) × (word.now ≡ decimal n)) }
{
    let Some(z) = read_number(word.as_bytes()) else {
        return None;
    };
    if z < 0 {
        return None;
    }
    Some(z as u64)
}

/// The number of this range whose canonical decimal the word is; None exactly where it is that of none.
fn number_in(word: &str, least: u64, most: u64) -> Option<u64>
    requires { most ≤ MOST_NUMBER }
    ensures { MatchOption result ((n : ℕ) → least ≤ n → n ≤ most → word.now ≢ decimal n)
        (λ n. (least ≤ n) × (n ≤ most) × (word.now ≡ decimal n)) }
{
    let Some(n) = natural(word) else {
        return None;
    };
    if n < least {
        return None;
    }
    if most < n {
        return None;
    }
    Some(n)
}

impl Trial {
    /// The trial that the words ask for: the word `trial`, and behind it its number, its teams, its tasks and its nodes, each a
    /// canonical decimal in its range. None exactly where the words ask for none.
    pub fn of(words: &[String]) -> Option<Trial>
        ensures { MatchOption result ((trial : Trial)
            → AsksForTrial trial (map (λ w. string_bytes w) words.now) → ⊥)
            (λ trial. AsksForTrial trial (map (λ w. string_bytes w) words.now)) }
    {
        let [word, number, teams, tasks, nodes] = words else {
            return None;
        };
        let number = number_in(number.as_str(), 0, MOST_NUMBER)?;
        let teams = number_in(teams.as_str(), 1, MOST_TEAMS as u64)?;
        let tasks = number_in(tasks.as_str(), 1, MOST_TASKS as u64)?;
        let nodes = number_in(nodes.as_str(), 0, MOST_NODES as u64)?;
        let trial = Trial {
            number,
            teams: teams as u32,
            tasks: tasks as u32,
            nodes: nodes as u32,
        };
        if word.as_str() == "trial" {
            return Some(trial);
        }
        None
    }
}
