//! Shows that `serve` answers on the links of `TcpPorts`, over sockets of this machine: within one process two clients
//! connect, each sends a request, the server serves both links, and each client reads its response and the end of its
//! link. The first request is answered with its own body. The second is refused, and behind it more comes than
//! the server reads at once: what is left is read at the link's end, so that the client has the whole response. It
//! prints what each client read.
#![tactic(auto)]

mod echo;

use crate::echo::Echo;
use book_http::Routes;
use book_ports::TcpPorts;
use book_serve::{ServeEnd, serve};
use std::io;
use std::io::{ErrorKind, Read, Write};
use std::net::{Ipv4Addr, Shutdown, SocketAddr, TcpStream};

/// A request that is answered, and closes its link.
const ASKED: &str =
    "POST /command HTTP/1.1\r\nContent-Length: 23\r\nConnection: close\r\n\r\na text that comes whole";

/// A request that is refused.
const REFUSED: &str = "POST /nothing HTTP/1.1\r\nContent-Length: 90000\r\n\r\n";

/// How many bytes come behind the refused request.
const MORE: usize = 90_000;

/// The error of a server that failed.
fn failure() -> io::Error {
    io::Error::from(ErrorKind::Other)
}

/// The first of some ports that is free: from then on connections to it wait.
fn listen(ports: &mut TcpPorts<&HostRuntime>) -> Option<u16> {
    (47_321..47_821).find(|port| ports.listen(*port).is_ok())
}

/// A client that has sent these bytes to the port, and sends no more.
fn client(rt: &HostRuntime, port: u16, sent: &str, more: usize) -> io::Result<TcpStream> {
    let mut client = TcpStream::connect(rt, SocketAddr::from((Ipv4Addr::LOCALHOST, port)))?;
    client.write_all(sent.as_bytes())?;
    let rest = vec![in rt.alloc(); 120u8; more]?;
    client.write_all(&rest)?;
    client.shutdown(Shutdown::Write)?;
    Ok(client)
}

/// Prints what comes to the client, up to the end of its link.
fn show(rt: &HostRuntime, name: &str, client: &mut TcpStream) -> io::Result<()> {
    let mut came = String::new(rt.alloc());
    client.read_to_string(&mut came)?;
    println!(rt; "the {name} client read:")?;
    for line in came.lines() {
        println!(rt; "    {line}")?;
    }
    Ok(())
}

/// Serves the next two links that come to the port.
fn serve_two(rt: &HostRuntime, ports: &mut TcpPorts<&HostRuntime>, port: u16) -> io::Result<()> {
    let Ok(routes) = Routes::new(rt.alloc()) else {
        return Err(failure());
    };
    match serve::<(), (), Echo, _>(rt.alloc(), &mut Echo, &mut (), &routes, ports, port, 2) {
        ServeEnd::Done => Ok(()),
        _ => Err(failure()),
    }
}

fn main(rt: HostRuntime) -> io::Result<()> {
    let mut ports = TcpPorts::new(&rt);
    let Some(port) = listen(&mut ports) else {
        return Err(failure());
    };
    let taken = TcpPorts::new(&rt).listen(port);
    println!(rt;
        "the same port again: {}",
        if taken.is_ok() { "bound" } else { "failed" }
    )?;
    let mut first = client(&rt, port, ASKED, 0)?;
    let mut second = client(&rt, port, REFUSED, MORE)?;
    serve_two(&rt, &mut ports, port)?;
    show(&rt, "first", &mut first)?;
    show(&rt, "second", &mut second)
}
