//! Numbers in a line: decimal digits, leading zeros too, within a range.

ghost use Rattle.std.specs.Prelude.{◌↔◌, IsTrue};
ghost use Rattle.dcsctp_script_lines.specs.Number.{HasPlus, ReadsNumber, ReadsSignedNumber, ReadsLimit};

/// The number that the digits write. `None` if the text isn't digits alone, has none, or writes a number
/// above `most`.
pub fn number(text: &str, most: u64) -> Option<u64>
    ensures { ReadsNumber text.now most result }
{
    if has_plus(text) {
        return None;
    }
    match text.parse::<u64>() {
        Ok(value) if value <= most => Some(value),
        _ => None,
    }
}

/// The number that the digits write, which may have a minus in front. `None` if the text is anything else, or
/// the number isn't one of 32 bits.
pub fn signed_number(text: &str) -> Option<i32>
    ensures { ReadsSignedNumber text.now result }
{
    if has_plus(text) {
        return None;
    }
    text.parse::<i32>().ok()
}

/// A number up to `most`, or no limit if the text is `none`. `None` if it is neither.
pub fn limit(text: &str, most: u64) -> Option<Option<u64>>
    ensures { ReadsLimit text.now most result }
{
    if text == "none" {
        return Some(None);
    }
    match number(text, most) {
        Some(value) => Some(Some(value)),
        None => None,
    }
}

// Does the text begin with a plus?
fn has_plus(text: &str) -> bool
    ensures { IsTrue result ↔ HasPlus text.now }
{
    text.as_bytes().first() == Some(&b'+')
}
