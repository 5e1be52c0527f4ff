// Draws of random numbers, and the names that are numbered.
ghost use Rattle.std.specs.Prelude.{◌≡◌, ◌<◌, ◌≤◌, ◌++◌, ◌∷◌, true, codes};
ghost use Rattle.std.specs.Fmt.{decimal};
ghost use Rattle.crew_terms.specs.Name.{IsName, name_byte};
ghost use Rattle.day_gen.specs.Draws.{generator_of, draw, after_draw};

use crew_terms::Name;
use itoa::Buffer;
use rand_core::utils::NextWord;
use rand_pcg::Lcg64Xsh32;

/// The stream of the generator.
const STREAM: u64 = 7;

/// The generator of a day.
pub(crate) fn generator_of(number: u64) -> Lcg64Xsh32
    ensures { result ≡ generator_of number }
{
    Lcg64Xsh32::new(number, STREAM)
}

/// A number below `k`: the next output modulo `k`.
pub(crate) fn draw(generator: &mut Lcg64Xsh32, k: u32) -> u32
    requires { 0 < k }
    ensures value { result ≡ draw generator.old k }
    ensures below { result < k }
    ensures one { generator.new ≡ after_draw generator.old }
{
    generator.next_word() % k
}

/// The name that the bytes spell.
fn named(bytes: &[u8]) -> Name
    requires { IsName bytes.now }
    ensures { result ≡ bytes.now }
{
    Name::read(bytes).unwrap()
}

/// The name that is a letter and a number.
pub(crate) fn numbered(letter: u8, n: u32) -> Name
    requires { name_byte letter ≡ true }
    ensures { result ≡ letter ∷ decimal n }
{
    let mut buffer = Buffer::new();
    let digits = buffer.format(n).as_bytes();
    let mut bytes = [letter; 11];
    bytes[1..1 + digits.len()].copy_from_slice(digits);
    named(&bytes[..1 + digits.len()])
}
