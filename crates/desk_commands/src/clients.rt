//! The source of connections.

use std::io::{Read, Write};

/// The clients of a port, who come one after another. Each has a reader and a writer.
pub trait Clients {
    ghost use Rattle.std.specs.Prelude.{List, [], ◌∷◌, IfOk, OnOk, OnErr};
    ghost use Rattle.desk_commands.specs.Clients.{Event, Sees};
    ghost use Rattle.desk_commands.specs.Clients.Event.{opened, unopened, came, none_came, left};

    type Reader: Read + Drop;

    type Writer: Write + Drop;

    /// Their events so far, if known.
    ghost Saw: { Self → List Event → Type 0 };

    /// Opens a port of this machine.
    fn listen(&mut self, port: u16) -> Result<(), NoClient>
        ensures ok { OnOk result (Sees Saw self.old self.new (opened port ∷ [])) }
        // A port that can't be had is seen too, so the reason why nobody was served is known.
        ensures err { OnErr result (Sees Saw self.old self.new (unopened port ∷ [])) };

    /// Waits for the next client, and returns its reader and its writer.
    fn accept(&mut self) -> Result<(Self::Reader, Self::Writer), NoClient>
        // Each client is one event, with what it will send: so answers are told for each client.
        ensures ok { IfOk result (λ pair. Sees Saw self.old self.new
            (came (Self.Reader.remaining pair.0) (Self.Writer.contents pair.1) ∷ [])) }
        ensures err { OnErr result (Sees Saw self.old self.new (none_came ∷ [])) };

    /// Closes a client's connection.
    fn leave(&mut self, reader: Self::Reader, writer: Self::Writer)
        ensures { Sees Saw self.old self.new
            (left (Self.Reader.remaining reader) (Self.Writer.contents writer) ∷ []) };
}

/// The port can't be opened, or no further client accepted.
#[derive(Clone, Copy, PartialEq, Eq, Drop)]
pub struct NoClient;
