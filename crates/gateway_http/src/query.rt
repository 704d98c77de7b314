//! The values in a query.

ghost use Rattle.std.specs.Prelude.{◌≡◌, option_map, IfOk};
ghost use Rattle.std.specs.Cow.{cow_str_bytes};
ghost use Rattle.gateway_http.specs.Query.{value_of};

use std::alloc::{AllocError, Global};
use std::borrow::CowStr;

/// Returns the name's value if the name occurs exactly once in the query.
///
/// A query has pairs separated by `&`, encoded like a web form (URL Standard, section 5): `+` is a
/// space, and `%` with two digits a byte. U+FFFD replaces invalid UTF-8.
#[tactic(auto, unfolding(crate::specs::Query::value_of))]
pub fn value_of<'a>(
    alloc: Global,
    query: &'a [u8],
    name: &str,
) -> Result<Option<CowStr<'a>>, AllocError>
    ensures { IfOk result (λ value. option_map cow_str_bytes value ≡ value_of name.now query.now) }
{
    let mut found: Option<CowStr<'a>> = None;
    for pair in form_urlencoded::parse(alloc, query) {
        let (key, value) = pair?;
        if key.as_str() == name {
            if found.is_some() {
                return Ok(None);
            }
            found = Some(value);
        }
    }
    Ok(found)
}
