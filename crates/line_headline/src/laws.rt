//! The calls that change a list, each with its effect on both lists.
//!
//! The body of each function is the call itself, so its clause follows from the call's contract.

ghost use Rattle.book_store.specs.Lists.{ForLists, Lists, Serves};
ghost use Rattle.line_headline.specs.Calls.{EndsAs, command_call, heard_call, said_call};

use book_store::BookStore;
use desk_feed::AnswerText;
use desk_types::Stamped;
use line_book::Matter;
use line_schema::Unavailable;
use sqlite::Alter;
use state_rows::KeepsRows;

/// Calls `answer` with a message.
pub fn hear<S: Alter, D: KeepsRows + Drop>(
    store: &mut BookStore<S, D>,
    told: &[u8],
) -> Result<AnswerText, Unavailable>
    // Each call gives it back, so that calls can follow each other.
    requires serves { Serves S.Store D.Stands store.old }
    // Without an answer the lists are as before, but a crash may leave those of an answer.
    ensures once { ForLists S.Store D.Stands store.old store.new (λ L. (M : Lists)
        × EndsAs S.Store D.Stands store.old L (heard_call told.now result) store.new M) }
    ensures serves { Serves S.Store D.Stands store.new }
{
    store.answer(told)
}

/// Calls `command` with the command of a file.
pub fn command<S: Alter, D: KeepsRows + Drop>(
    store: &mut BookStore<S, D>,
    stamped: &Stamped,
) -> Result<AnswerText, Unavailable>
    requires serves { Serves S.Store D.Stands store.old }
    ensures once { ForLists S.Store D.Stands store.old store.new (λ L. (M : Lists)
        × EndsAs S.Store D.Stands store.old L (command_call stamped.now result) store.new M) }
    ensures serves { Serves S.Store D.Stands store.new }
{
    store.command(stamped)
}

/// Calls `say` with a decision, a hold or a release.
pub fn say<S: Alter, D: KeepsRows + Drop>(
    store: &mut BookStore<S, D>,
    matter: Matter,
    told: &[u8],
) -> Result<u32, Unavailable>
    requires serves { Serves S.Store D.Stands store.old }
    ensures once { ForLists S.Store D.Stands store.old store.new (λ L. (M : Lists)
        × EndsAs S.Store D.Stands store.old L (said_call matter told.now result) store.new M) }
    ensures serves { Serves S.Store D.Stands store.new }
{
    store.say(matter, told)
}
