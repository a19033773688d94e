// Lists of words in capitals: which of them some bytes are, in small letters or capitals, or begin.
ghost use Rattle.std.specs.Prelude.{◌≡◌, map, position};
ghost use Rattle.std.specs.List.{list_any};
ghost use Rattle.rules.specs.Lists.{same};
ghost use Rattle.relation_rules.specs.Grammar.{capital};
ghost use Rattle.relation_rules.specs.Reader.{begins};

use crate::bytes::capital_of;

// Whether the bytes begin the word.
fn begins_word(bytes: &[u8], word: &[u8]) -> bool
    ensures { result ≡ begins (map capital bytes.now) word.now }
{
    (bytes.len() <= word.len()) && bytes.iter().zip(word).all(|(b, c)| capital_of(*b) == *c)
}

fn is_the_word(bytes: &[u8], word: &[u8]) -> bool
    ensures { result ≡ same (map capital bytes.now) word.now }
{
    (bytes.len() == word.len()) && begins_word(bytes, word)
}

// Whether they begin one of the words.
pub fn begins_one(bytes: &[u8], words: &[&[u8]]) -> bool
    ensures { result ≡ list_any (λ w. begins (map capital bytes.now) w.now) words.now }
{
    words.iter().any(|word| begins_word(bytes, word))
}

// The place of the word that they are in the list.
pub fn which_word(bytes: &[u8], words: &[&[u8]]) -> Option<usize>
    ensures { result ≡ position (λ w. same (map capital bytes.now) w.now) words.now }
{
    words.iter().position(|word| is_the_word(bytes, word))
}
