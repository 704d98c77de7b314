//! What is found in a message besides its command.

use desk_types::Text;
use line_book::Matter;

/// What an entry of the book says, and the words of its column `told`.
#[derive(PartialEq, Eq, Drop)]
pub struct Finding {
    pub matter: Matter,
    pub told: Text,
}
