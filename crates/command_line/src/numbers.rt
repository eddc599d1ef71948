//! Numbers in the words of a command line (docs/OPERATING.md, Commands).

ghost use Rattle.std.specs.Prelude.{◌≡◌, ◌≤◌, ◌↔◌, IsTrue, decimal};
ghost use Rattle.command_line.specs.WordForms.{IsNumberIn};

use itoa::Buffer;

/// Whether a word is the text of a number within two others.
fn is_text_within(word: &str, number: u64, low: u64, high: u64) -> bool
    ensures { IsTrue result ↔ ((word.now ≡ decimal number) × (low ≤ number) × (number ≤ high)) }
{
    let mut buffer = Buffer::new();
    low <= number && number <= high && word == buffer.format(number)
}

/// Whether a word is a number within two others, in decimal digits without a sign and without zeros before them.
pub(crate) fn is_number_in(word: &str, low: u64, high: u64) -> bool
    ensures { IsTrue result ↔ IsNumberIn low high word.now }
{
    match word.parse::<u64>() {
        Ok(number) => is_text_within(word, number, low, high),
        Err(_) => false,
    }
}
