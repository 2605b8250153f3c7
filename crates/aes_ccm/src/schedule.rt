//! The key schedule of FIPS 197, 5.2.

ghost use Rattle.std.specs.Prelude.{◌≡◌, ◌≤◌, ◌<◌, ◌+◌, ◌-◌, ◌*◌, ◌++◌, true, length, take, drop, [], ◌∷◌, slice_index};
ghost use Rattle.aes_ccm.specs.Field.{power};
ghost use Rattle.aes_ccm.specs.Lists.{xored};
ghost use Rattle.aes_ccm.specs.Aes.{is_key_len, words_of, word_at, rotated, turned, next_word, expanded, schedule, sub_bytes};

use crate::substitution::substituted;
use crate::xor::xor_from;

/// The powers of x that the rounds take, from the first.
const POWERS: [u8; 10] = [0x01, 0x02, 0x04, 0x08, 0x10, 0x20, 0x40, 0x80, 0x1b, 0x36];

fn word_at(words: &[u8; 240], i: usize) -> [u8; 4]
    requires { i < 60 }
    ensures { result ≡ word_at words.now i }
{
    [
        words[4 * i],
        words[4 * i + 1],
        words[4 * i + 2],
        words[4 * i + 3],
    ]
}

fn sub_word(w: [u8; 4]) -> [u8; 4]
    ensures { result ≡ sub_bytes w }
{
    [
        substituted(w[0]),
        substituted(w[1]),
        substituted(w[2]),
        substituted(w[3]),
    ]
}

/// What is added to word `i` under a key of `n` words, from the word before it.
fn turned(n: usize, i: usize, word: [u8; 4]) -> [u8; 4]
    requires some { 4 ≤ n }
    requires first { n ≤ i }
    requires last { i < 11 * n }
    ensures { result ≡ turned n i word }
{
    if i % n == 0 {
        let [a, b, c, d] = sub_word([word[1], word[2], word[3], word[0]]);
        [a ^ POWERS[i / n - 1], b, c, d]
    } else if n > 6 && i % n == 4 {
        sub_word(word)
    } else {
        word
    }
}

/// Word `i` under a key of `n` words, from the words before it.
fn next_word(n: usize, words: &[u8; 240], i: usize) -> [u8; 4]
    requires some { 4 ≤ n }
    requires first { n ≤ i }
    requires last { i < 11 * n }
    requires room { i < 60 }
    ensures { result ≡ next_word n words.now i }
{
    let mut word = word_at(words, i - n);
    let added = turned(n, i, word_at(words, i - 1));
    xor_from(&mut word, 0, &added);
    word
}

/// Puts a word at its place.
fn put_word(words: &mut [u8; 240], i: usize, word: [u8; 4])
    requires { i < 60 }
    ensures { take (4 * (i + 1)) words.new ≡ take (4 * i) words.old ++ word }
{
    words[4 * i..4 * i + 4].copy_from_slice(&word);
}

/// The key, and zeros behind it.
fn key_first(key: &[u8]) -> [u8; 240]
    requires { length key.now ≤ 240 }
    ensures { take (length key.now) result ≡ key.now }
{
    let mut words = [0; 240];
    words[..key.len()].copy_from_slice(key);
    words
}

/// The words of the key's schedule, and zeros behind them.
pub(crate) fn schedule(key: &[u8]) -> [u8; 240]
    requires { is_key_len (length key.now) ≡ true }
    ensures key { take (length key.now) result ≡ key.now }
    ensures words { take (16 * (words_of key.now + 7)) result ≡ schedule key.now }
{
    let n = key.len() / 4;
    let mut words = key_first(key);
    for more in 0..3 * n + 28 {
        let word = next_word(n, &words, n + more);
        put_word(&mut words, n + more, word);
    }
    words
}
