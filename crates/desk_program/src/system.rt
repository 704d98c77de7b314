//! The files and the ports of the system. Their contents are not known before they are read.

use desk_commands::{Clients, NoClient};
use desk_feed::{Folder, UnreadFile, read_file};
use std::alloc::Global;
use std::fs::File;
use std::net::{TcpListener, TcpStream};

/// The files of the system. Each may fail.
#[derive(Drop)]
pub struct SystemFiles<'a> {
    rt: &'a HostRuntime,
}

impl<'a> SystemFiles<'a> {
    pub fn new(rt: &'a HostRuntime) -> SystemFiles<'a> {
        SystemFiles { rt }
    }
}

impl Folder for SystemFiles<'_> {
    ghost use Rattle.std.specs.Prelude.{None, ⊤};

    ghost holds = { λ _ _. None };

    ghost may_fail = { λ _ _. ⊤ };

    fn read(&self, alloc: Global, path: &str) -> Result<Vec<u8>, UnreadFile> {
        read_file(alloc, File::open(self.rt, path)?)
    }
}

/// The clients of a port of this machine.
#[derive(Drop)]
pub struct SystemClients<'a> {
    rt: &'a HostRuntime,
    listener: Option<TcpListener>,
}

impl<'a> SystemClients<'a> {
    pub fn new(rt: &'a HostRuntime) -> SystemClients<'a> {
        SystemClients { rt, listener: None }
    }
}

impl Clients for SystemClients<'_> {
    ghost use Rattle.std.specs.Prelude.{⊤};

    type Reader = TcpStream;

    type Writer = TcpStream;

    ghost Saw = { λ _ _. ⊤ };

    fn listen(&mut self, port: u16) -> Result<(), NoClient> {
        match TcpListener::bind(self.rt, ("127.0.0.1", port)) {
            Ok(listener) => {
                self.listener = Some(listener);
                Ok(())
            }
            Err(_) => Err(NoClient),
        }
    }

    /// Sends writes at once. An answer is a head and then a body, and the body would otherwise wait until the client
    /// acknowledges the head.
    fn accept(&mut self) -> Result<(TcpStream, TcpStream), NoClient> {
        let Some(listener) = &self.listener else {
            return Err(NoClient);
        };
        let Ok((stream, _)) = listener.accept() else {
            return Err(NoClient);
        };
        let _ = stream.set_nodelay(true);
        match stream.try_clone() {
            Ok(reader) => Ok((reader, stream)),
            Err(_) => Err(NoClient),
        }
    }

    fn leave(&mut self, _reader: TcpStream, _writer: TcpStream) {}
}
