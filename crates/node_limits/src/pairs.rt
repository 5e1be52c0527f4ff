// What a node says of a pair.
ghost use Rattle.std.specs.Prelude.{◌≡◌, ◌↔◌, IsTrue};
ghost use Rattle.crew_terms.specs.Limits.{is_required as required_pair};

use crew_terms::Pair;

/// Whether the node requires the pair.
pub fn is_required(pair: Pair) -> bool
    ensures { result ≡ required_pair pair }
{
    match pair {
        Pair::Required => true,
        Pair::Free | Pair::Forbidden => false,
    }
}

/// Whether the node forbids the pair.
pub fn is_forbidden(pair: Pair) -> bool
    ensures { IsTrue result ↔ (pair ≡ Pair.Forbidden) }
{
    matches!(pair, Pair::Forbidden)
}
