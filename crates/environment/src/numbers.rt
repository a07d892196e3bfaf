ghost use Rattle.std.specs.Prelude.{◌≡◌, ◌↔◌, IsTrue, decimal};
ghost use Rattle.environment.specs.Memory.{Lists};

use base_lists::Text;

/// Whether one of the texts is the number, in decimal and without leading zeros.
pub fn lists(texts: &[Text], number: u64) -> bool
    ensures { IsTrue result ↔ Lists texts.now number }
{
    for text in texts {
        if is_decimal(text.octets(), number) {
            return true;
        }
    }
    false
}

/// Whether the text is the number, in decimal and without leading zeros.
fn is_decimal(text: &[u8], number: u64) -> bool
    ensures { IsTrue result ↔ (text.now ≡ decimal number) }
{
    let Some((last, front)) = text.split_last() else {
        return false;
    };
    if *last != b'0' + (number % 10) as u8 {
        return false;
    }
    if number < 10 {
        front.is_empty()
    } else {
        is_decimal(front, number / 10)
    }
}
