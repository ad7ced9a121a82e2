//! Sets of numbers as bits.
ghost use Rattle.std.specs.Prelude.{◌≡◌, ◌<◌, ◌≤◌, ◌*◌, false, length};
ghost use Rattle.saga_closure.specs.Bits.{IsPutBit, IsWithout, IsPut, IsJoined, IsJoinedTwo};

/// Sets or clears a bit.
pub fn put_bit(word: u64, b: usize, on: bool) -> u64
    requires { b < 64 }
    ensures put { IsPutBit word b on result }
    ensures less { on ≡ false → result ≤ word }
{
    if on {
        word | (1u64 << b)
    } else {
        word & !(1u64 << b)
    }
}

/// The bits of a word that are not in another word.
pub fn without(word: u64, less: u64) -> u64
    ensures { IsWithout word less result }
{
    word & !less
}

/// Adds or removes a number.
pub fn put(words: &mut [u64], i: usize, on: bool)
    requires { i < 64 * length words.old }
    ensures { IsPut words.old i on words.new }
{
    let word = put_bit(words[i / 64], i % 64, on);
    words[i / 64] = word;
}

/// Adds all numbers of another set, which has at most as many words.
pub fn add_all(words: &mut [u64], more: &[u64])
    requires { length more.now ≤ length words.old }
    ensures { IsJoined words.old more.now words.new }
{
    for (place, word) in more.iter().enumerate() {
        words[place] |= *word;
    }
}

/// Adds all numbers of two other sets, which have the same number of words.
pub fn add_both(words: &mut [u64], one: &[u64], two: &[u64])
    requires one { length one.now ≡ length words.old }
    requires two { length two.now ≡ length words.old }
    ensures { IsJoinedTwo words.old one.now two.now words.new }
{
    for place in 0..words.len() {
        words[place] |= one[place] | two[place];
    }
}
