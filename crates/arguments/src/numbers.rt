//! How numbers are written in arguments.
ghost use Rattle.std.specs.Prelude.{◌≡◌, ◌<◌, option_map};
ghost use Rattle.std.specs.List.{list_all};
ghost use Rattle.std.specs.Char.{is_ascii_digit};
ghost use Rattle.arguments.specs.Numbers.{config_of, number_of, range_of, scale_of, scaled_of};
ghost use Rattle.arguments.specs.Numbers.{split_at, triple_of};

use sweep_core::Config;

/// The number of one or more decimal digits, zeros in front allowed. `None` for any other text, and
/// from 2^64 on.
pub fn read_number(text: &str) -> Option<u64>
    ensures { result ≡ number_of text.now }
{
    if has_only_digits(text) {
        text.parse().ok()
    } else {
        None
    }
}

/// Whether each byte is a decimal digit, which is true of the empty text.
fn has_only_digits(text: &str) -> bool
    ensures { result ≡ list_all is_ascii_digit text.now }
{
    text.bytes().all(|byte| byte.is_ascii_digit())
}

/// A number as `read_number` reads it, perhaps times the power of two of a `k K m M g G` after it.
/// These are 2^10, 2^20 and 2^30. `None` for any other text, and if the product is 2^64 or more.
pub fn read_scaled(text: &str) -> Option<u64>
    ensures { result ≡ scaled_of text.now }
{
    let letter = text.as_bytes().last()?;
    match scale_of(*letter) {
        Some(scale) => read_number(&text[..text.len() - 1])?.checked_mul(scale),
        None => read_number(text),
    }
}

/// The factor of a letter after a number: 2^10, 2^20 or 2^30. `None` for another byte.
fn scale_of(letter: u8) -> Option<u64>
    ensures { result ≡ scale_of letter }
{
    match letter {
        b'k' | b'K' => Some(1 << 10),
        b'm' | b'M' => Some(1 << 20),
        b'g' | b'G' => Some(1 << 30),
        _ => None,
    }
}

/// `X` or `LO-HI`, each as `read_scaled` reads it: `(X, X)` or `(LO, HI)`, not compared with each
/// other. `None` for any other text.
pub fn read_range(text: &str) -> Option<(u64, u64)>
    ensures { result ≡ range_of text.now }
{
    match split_at(text, '-') {
        Some((low, high)) => Some((read_scaled(low)?, read_scaled(high)?)),
        None => {
            let value = read_scaled(text)?;
            Some((value, value))
        }
    }
}

/// The text before the first `delimiter`, and the text after it. `None` if there is none.
fn split_at(text: &str, delimiter: char) -> Option<(&str, &str)>
    requires { delimiter < 128 }
    ensures { option_map (λ parts. (parts.0.now, parts.1.now)) result
        ≡ split_at delimiter text.now }
{
    text.split_once(delimiter)
}

/// `B,S,E`, each as `read_number` reads it: bsize, sets and assoc, which need not be those of a
/// cache. `None` for any other text.
pub fn read_triple(text: &str) -> Option<Config>
    ensures { result ≡ triple_of text.now }
{
    let (bsize, rest) = split_at(text, ',')?;
    let (sets, assoc) = split_at(rest, ',')?;
    read_config(bsize, sets, assoc)
}

/// The triple of three numbers.
fn read_config(bsize: &str, sets: &str, assoc: &str) -> Option<Config>
    ensures { result ≡ config_of (number_of bsize.now) (number_of sets.now) (number_of assoc.now) }
{
    Some(Config {
        bsize: read_number(bsize)?,
        sets: read_number(sets)?,
        assoc: read_number(assoc)?,
    })
}
