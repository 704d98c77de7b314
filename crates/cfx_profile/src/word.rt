//! The messages of this project's profile, by name.

ghost use Rattle.std.specs.Prelude.{◌≡◌, Some};
ghost use Rattle.desk_types.specs.declared.stored_word.Word.{Word};
ghost use Rattle.cfx_profile.specs.Word.{message_name, word_of};

use desk_types::Word;

/// Returns the kind of message with this name, if there is one.
pub fn word_of(name: &str) -> Option<Word>
    ensures { result ≡ word_of name.now }
{
    Word::read(name.as_bytes().strip_prefix(b"TraceDesk.")?)
}

/// A law: reading a kind's name gives that kind. It does nothing at run time.
pub fn words_are_read()
    // So no two kinds have the same name.
    ensures { (word : Word) → word_of (message_name word) ≡ Some word }
{}
