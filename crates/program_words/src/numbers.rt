//! Numbers: decimal digits without a sign or leading zero.
ghost use Rattle.std.specs.Prelude.{◌<◌, ◌^◌, ◌≡◌, Some, decimal, ℕ};
ghost use Rattle.program_words.specs.Numbers.{blocks_of, is_blocks, is_number, number_of};

use itoa::Buffer;
use load_gen::BLOCK_LIMIT;

// Whether the word is the number in decimal.
fn is_written(number: u64, word: &str) -> bool
    ensures { result ≡ is_number number word.now }
{
    Buffer::new().format(number).as_bytes() == word.as_bytes()
}

// The number that the word is in decimal. Of other words it may be any.
fn parsed(word: &str) -> Option<u64>
    ensures { (n : ℕ) → n < 2 ^ 64 → word.now ≡ decimal n → result ≡ Some n }
{
    word.parse().ok()
}

/// The number of 64 bits that the word is.
pub fn read_number(word: &str) -> Option<u64>
    ensures { result ≡ number_of word.now }
{
    match parsed(word) {
        Some(number) => {
            if is_written(number, word) {
                Some(number)
            } else {
                None
            }
        }
        None => None,
    }
}

fn is_blocks(number: u64) -> bool
    ensures { result ≡ is_blocks number }
{
    1 <= number && number <= BLOCK_LIMIT
}

/// The number of blocks that the word is.
pub fn read_blocks(word: &str) -> Option<u64>
    ensures { result ≡ blocks_of word.now }
{
    let number = read_number(word)?;
    if is_blocks(number) {
        Some(number)
    } else {
        None
    }
}
