//! The characters that entities stand for.

ghost use Rattle.std.specs.Prelude.{◌≡◌, ◌<◌, ◌≤◌, ◌-◌, IfSome};
ghost use Rattle.fs_xml.specs.Entities as entities;

/// The character that stands for what is written between `&` and `;`.
#[tactic(auto, unfolding(crate::specs::Entities::entity))]
pub(crate) fn entity(name: &[u8]) -> Option<char>
    ensures { result ≡ entities.entity name.now }
{
    match name {
        [b'#', number @ ..] => numbered_character(number),
        b"lt" => Some('<'),
        b"gt" => Some('>'),
        b"amp" => Some('&'),
        b"quot" => Some('"'),
        b"apos" => Some('\''),
        _ => None,
    }
}

#[tactic(auto, unfolding(crate::specs::Entities::numbered_character))]
fn numbered_character(text: &[u8]) -> Option<char>
    ensures { result ≡ entities.numbered_character text.now }
{
    match text {
        [b'x', digits @ ..] => character_of(16, digits),
        [] => None,
        _ => character_of(10, text),
    }
}

/// The character of a number that is written in digits.
#[tactic(auto, unfolding(crate::specs::Entities::character_of, crate::specs::Entities::is_character))]
fn character_of(base: u32, digits: &[u8]) -> Option<char>
    requires { base ≤ 16 }
    ensures { result ≡ entities.character_of base digits.now }
{
    if digits.is_empty() {
        return None;
    }
    let number = number_on(base, digits)?;
    if number == 0 {
        return None;
    }
    char::from_u32(number)
}

/// The number that digits write, or 1,114,112 where it is greater.
fn number_on(base: u32, digits: &[u8]) -> Option<u32>
    requires { base ≤ 16 }
    ensures { result ≡ entities.number_on base 0 digits.now }
{
    let mut number: u32 = 0;
    let mut left = digits;
    while let [b, rest @ ..] = left {
        let value = digit_in(base, *b)?;
        number = (number * base + value).min(1_114_112);
        left = rest;
    }
    Some(number)
}

#[tactic(auto, unfolding(crate::specs::Entities::digit_in))]
fn digit_in(base: u32, b: u8) -> Option<u32>
    ensures value { result ≡ entities.digit_in base b }
    ensures below { IfSome result (λ v. v < base) }
{
    let value = digit_value(b)?;
    if value < base { Some(value) } else { None }
}

#[tactic(auto, unfolding(crate::specs::Entities::digit_value))]
fn digit_value(b: u8) -> Option<u32>
    ensures { result ≡ entities.digit_value b }
{
    match b {
        b'0'..=b'9' => Some(u32::from(b - b'0')),
        b'a'..=b'f' => Some(u32::from(b - b'a') + 10),
        b'A'..=b'F' => Some(u32::from(b - b'A') + 10),
        _ => None,
    }
}
