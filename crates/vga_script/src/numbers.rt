//! Numbers in words.
ghost use Rattle.std.specs.Prelude.{◌≡◌, ◌≤◌, IfSome};
ghost use Rattle.vga_script.specs.StepReading.{number_of_word};

/// Reads the number that a word spells in a radix from 2 to 16, if it spells one of at most `most`.
#[tactic(auto, unfolding(crate::specs::StepReading::number_of_word))]
pub fn number_of_word(word: &[u8], radix: u32, most: u32) -> Option<u32>
    requires low { 2 ≤ radix }
    requires high { radix ≤ 16 }
    ensures value { result ≡ number_of_word radix most word.now }
    ensures bound { IfSome result (λ n. n ≤ most) }
{
    if word.is_empty() {
        return None;
    }
    let mut n = 0;
    let mut rest = word;
    while let [first, others @ ..] = rest {
        let Some(digit) = (*first as char).to_digit(radix) else {
            return None;
        };
        let more = n as u64 * radix as u64 + digit as u64;
        if more > most as u64 {
            return None;
        }
        n = more as u32;
        rest = others;
    }
    Some(n)
}
