//! A request over a socket of this machine.

use super::Full;
use desk_commands::{Clients, NoClient, serve_listener};
use desk_types::Wire;
use gateway_http::Gateway;
use std::io::{Read, Write};
use std::net::{Shutdown, TcpListener, TcpStream};
use std::test::Fail;

/// The clients of a listener.
#[derive(Drop)]
struct Callers {
    listener: TcpListener,
}

impl Clients for Callers {
    ghost use Rattle.std.specs.Prelude.{⊤};

    type Reader = TcpStream;

    type Writer = TcpStream;

    ghost Saw = { λ _ _. ⊤ };

    fn listen(&mut self, _port: u16) -> Result<(), NoClient> {
        Ok(())
    }

    fn accept(&mut self) -> Result<(TcpStream, TcpStream), NoClient> {
        let Ok((stream, _)) = self.listener.accept() else {
            return Err(NoClient);
        };
        match stream.try_clone() {
            Ok(reader) => Ok((reader, stream)),
            Err(_) => Err(NoClient),
        }
    }

    fn leave(&mut self, _reader: TcpStream, _writer: TcpStream) {}
}

/// A request over a socket of this machine. Its client has hung up when it is served, and reads the answer afterwards.
#[test]
fn sockets(rt: HostRuntime) -> Result<(), Fail> {
    let listener = TcpListener::bind(&rt, "127.0.0.1:0")?;
    let mut caller = TcpStream::connect(&rt, listener.local_addr()?)?;
    caller.write_all(b"GET /reel?reel=K1 HTTP/1.1\r\n\r\n")?;
    caller.shutdown(Shutdown::Write)?;
    let mut clients = Callers { listener };
    let mut output = Wire::new(Vec::new(rt.alloc()));
    let mut handler = Gateway {
        owner: &mut Full,
        routes: &mut None,
    };
    let status = serve_listener(rt.alloc(), &mut clients, 1, &mut output, &mut handler);
    let Gateway {
        owner: _,
        routes: _,
    } = handler;
    let mut told = Vec::new(rt.alloc());
    caller.read_to_end(&mut told)?;
    assert_eq!(rt; status, 1);
    assert_eq!(rt; output.into_inner().as_slice(), b"1 1\n".as_slice());
    assert!(rt; told.starts_with(b"HTTP/1.1 404 Not Found\r\n"));
    assert!(rt; told.ends_with(b"{\"Answer\":\"NotFound\",\"Kind\":\"Reel\"}"));
    Ok(())
}
