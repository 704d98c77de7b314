//! A text of a list.

ghost use Rattle.std.specs.Prelude.{◌≡◌, [], map, string_bytes, get_or};

/// Returns the text at a place.
pub fn text_at<'a>(texts: &'a [String], place: u64) -> &'a str
    ensures { result.now ≡ get_or (map string_bytes texts.now) place [] }
{
    match texts.get(place as usize) {
        Some(text) => text.as_str(),
        None => "",
    }
}
