// The words of the commands `parts` and `part`.
ghost use Rattle.std.specs.Prelude.{◌≡◌, ◌≢◌, ◌≤◌, ◌<◌, ◌^◌, ℕ, map, string_bytes, MatchOption};
ghost use Rattle.std.specs.Fmt.{decimal};
ghost use Rattle.crew_terms.specs.declared.TheConstants.{MOST_NODES};
ghost use Rattle.parts_cli.specs.Words.{AsksForPart, AsksForParts};

use crew_terms::{MOST_NODES, MOST_TASKS};
use field_table::read_number;

/// What the command `parts` is asked for: parts that are planned with a budget of so many nodes each.
#[derive(Clone, Copy, Debug, PartialEq, Eq)]
pub struct Parts {
    pub nodes: u32,
}

/// What the command `part` is asked for: the part with this number, from 1, planned with a budget of so many nodes.
#[derive(Clone, Copy, Debug, PartialEq, Eq)]
pub struct OnePart {
    pub nodes: u32,
    pub number: u32,
}

/// The number of this range whose canonical decimal the word is; None exactly where it is that of none.
fn number_in(word: &str, least: u32, most: u32) -> Option<u32>
    ensures { MatchOption result ((n : ℕ) → least ≤ n → n ≤ most → word.now ≢ decimal n)
        (λ n. (least ≤ n) × (n ≤ most) × (word.now ≡ decimal n)) }
{
    let Some(z) = read_number(word.as_bytes()) else {
        return None;
    };
    if z < least as i64 {
        return None;
    }
    if z > most as i64 {
        return None;
    }
    Some(z as u32)
}

impl Parts {
    /// What the words ask for: the word `parts`, and a number of nodes, a canonical decimal up to `MOST_NODES`. None exactly where
    /// the words ask for no such thing.
    pub fn of(words: &[String]) -> Option<Parts>
        ensures { MatchOption result ((parts : Parts)
            → AsksForParts parts (map (λ w. string_bytes w) words.now) → ⊥)
            (λ parts. AsksForParts parts (map (λ w. string_bytes w) words.now)) }
    {
        let [word, nodes] = words else {
            return None;
        };
        let nodes = number_in(nodes.as_str(), 0, MOST_NODES)?;
        if word.as_str() == "parts" {
            return Some(Parts { nodes });
        }
        None
    }
}

impl OnePart {
    /// What the words ask for: the word `part`, a number of nodes up to `MOST_NODES`, and the number of a part from 1 to `MOST_TASKS`,
    /// each a canonical decimal. None exactly where the words ask for no such thing.
    pub fn of(words: &[String]) -> Option<OnePart>
        ensures { MatchOption result ((part : OnePart)
            → AsksForPart part (map (λ w. string_bytes w) words.now) → ⊥)
            (λ part. AsksForPart part (map (λ w. string_bytes w) words.now)) }
    {
        let [word, nodes, number] = words else {
            return None;
        };
        let nodes = number_in(nodes.as_str(), 0, MOST_NODES)?;
        let number = number_in(number.as_str(), 1, MOST_TASKS as u32)?;
        if word.as_str() == "part" {
            return Some(OnePart { nodes, number });
        }
        None
    }
}
