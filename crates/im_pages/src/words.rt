//! Bits in words of 64: bit n is bit n % 64 of word n / 64.
ghost use Rattle.std.specs.Prelude.{◌≡◌, ℕ, ◌-◌, ◌*◌, ◌/◌, ◌^◌, ◌<◌, ◌≤◌, true, ◌||◌, length, replicate, ◌==◌};
ghost use Rattle.std.specs.Prelude.{slice_index_or, MatchOption};
ghost use Rattle.im_pages.specs.Words.{AreClear, is_set, IsFirstSet};

/// Returns whether a bit is set.
pub(crate) fn is_set(words: &[u64], at: usize) -> bool
    requires { at / 64 < length words.now }
    ensures { result ≡ is_set words.now at }
{
    words[at / 64] >> (at % 64) & 1 == 1
}

/// Sets a bit.
pub(crate) fn set_bit(words: &mut [u64], at: usize)
    requires { at / 64 < length words.old }
    ensures { (bit : ℕ) → is_set words.new bit ≡ (bit == at || is_set words.old bit) }
{
    words[at / 64] |= 1 << (at % 64);
}

// Sets the words `from` to `to - 1` to `word`.
fn fill_between(words: &mut [u64], from: usize, to: usize, word: u64)
    requires { to ≤ length words.old }
    ensures found { (k : ℕ) → from ≤ k → k < to → slice_index_or words.new k 0 ≡ word }
    ensures others { (k : ℕ) → (from ≤ k → k < to → ⊥) →
        slice_index_or words.new k 0 ≡ slice_index_or words.old k 0 }
{
    for at in from..to {
        words[at] = word;
    }
}

/// Sets the bits `from` to `to - 1`. It writes whole words, except the first and the last one.
pub(crate) fn set_range(words: &mut [u64], from: usize, to: usize)
    requires order { from < to }
    requires inside { (to - 1) / 64 < length words.old }
    ensures found { (bit : ℕ) → from ≤ bit → bit < to → is_set words.new bit ≡ true }
    ensures others { (bit : ℕ) → (from ≤ bit → bit < to → ⊥) → is_set words.new bit ≡ is_set words.old bit }
{
    let first = from / 64;
    let last = (to - 1) / 64;
    let low = u64::MAX << (from % 64);
    let high = u64::MAX >> (63 - (to - 1) % 64);
    if first == last {
        words[first] |= low & high;
        return;
    }
    words[first] |= low;
    fill_between(words, first + 1, last, u64::MAX);
    words[last] |= high;
}

/// Sets each bit that is set in `other`.
pub(crate) fn set_bits(words: &mut [u64], other: &[u64])
    requires { length words.old ≡ length other.now }
    ensures { (bit : ℕ) → is_set words.new bit ≡ (is_set words.old bit || is_set other.now bit) }
{
    for at in 0..words.len() {
        words[at] |= other[at];
    }
}

/// Sets all words to `word`.
pub(crate) fn fill_words(words: &mut [u64], word: u64)
    ensures { words.new ≡ replicate (length words.old) word }
{
    for at in 0..words.len() {
        words[at] = word;
    }
}

/// Returns the first set bit from `from` on, or `None` if there is none.
pub(crate) fn first_set(words: &[u64], from: usize) -> Option<usize>
    requires inside { from / 64 < length words.now }
    requires few { length words.now < 2 ^ 32 }
    ensures { MatchOption result (AreClear words.now from (64 * length words.now)) (IsFirstSet words.now from) }
{
    let mut at = from / 64;
    let mut word = words[at] & (u64::MAX << (from % 64));
    while word == 0 {
        at += 1;
        if at == words.len() {
            return None;
        }
        word = words[at];
    }
    Some(64 * at + word.trailing_zeros() as usize)
}
