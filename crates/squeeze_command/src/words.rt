// The words of the command `squeeze`.
ghost use Rattle.std.specs.Prelude.{◌≡◌, ◌≢◌, ◌≤◌, ℕ, map, string_bytes, MatchOption};
ghost use Rattle.std.specs.Fmt.{decimal};
ghost use Rattle.squeeze_terms.specs.declared.TheConstants.{MOST_STEPS};
ghost use Rattle.squeeze_command.specs.Words.{AsksForSqueeze};

use field_table::read_number;
use squeeze_terms::MOST_STEPS;

/// What the command `squeeze` is asked for: price runs of so many steps.
#[derive(Clone, Copy, Debug, PartialEq, Eq)]
pub struct Squeeze {
    pub steps: u32,
}

/// The number of steps whose canonical decimal the word is; None exactly where it is that of none up to `MOST_STEPS`.
fn steps_of(word: &str) -> Option<u32>
    ensures { MatchOption result ((n : ℕ) → n ≤ MOST_STEPS → word.now ≢ decimal n)
        (λ n. (n ≤ MOST_STEPS) × (word.now ≡ decimal n)) }
{
    let Some(z) = read_number(word.as_bytes()) else {
        return None;
    };
    if z < 0 {
        return None;
    }
    if z > MOST_STEPS as i64 {
        return None;
    }
    Some(z as u32)
}

impl Squeeze {
    /// What the words ask for: the word `squeeze`, and a number of steps, a canonical decimal up to `MOST_STEPS`. None exactly
    /// where the words ask for no such thing.
    pub fn of(words: &[String]) -> Option<Squeeze>
        ensures { MatchOption result ((squeeze : Squeeze)
            → AsksForSqueeze squeeze (map (λ w. string_bytes w) words.now) → ⊥)
            (λ squeeze. AsksForSqueeze squeeze (map (λ w. string_bytes w) words.now)) }
    {
        let [word, steps] = words else {
            return None;
        };
        let steps = steps_of(steps.as_str())?;
        if word.as_str() == "squeeze" {
            return Some(Squeeze { steps });
        }
        None
    }
}
