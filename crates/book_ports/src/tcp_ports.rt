ghost use Rattle.std.specs.Prelude.{◌≡◌, ◌+◌, ◌-◌, ◌<◌, ◌∷◌, [], None, IfOk, IfSome, IsErr, IsOk, IsSome, OnOk, OnErr};
ghost use Rattle.std.specs.declared.net.ip_addr.IpAddr.TheVariants.{V4};
ghost use Rattle.std.specs.Net.Socket.{socket_ip, socket_port};
ghost use Rattle.book_keeper.specs.Faults.{HasCause, next_count};
ghost use Rattle.book_ports.specs.OverTcp.{HasNoFault, IsBoundTo};

use crate::{Ports, TcpLink};
use book_keeper::Failed;
use std::io;
use std::net::{Ipv4Addr, Net, SocketAddr, TcpListener, TcpStream};

/// A listener, and the port of this machine that it is bound to.
#[derive(Drop)]
struct Bound {
    port: u16,
    listener: TcpListener,
}

/// The ports of this machine, for connections over TCP from it alone: they are bound to 127.0.0.1. They count the
/// calls that fail, and report nothing of the links to come and the closed ones.
#[derive(Drop)]
pub struct TcpPorts<R> {
    net: R,
    bound: Option<Bound>,
    port: u16,
    open_links: u64,
    accepted_links: u64,
    faults: u64,
}

/// The address of a port for connections from this machine alone.
fn loopback(port: u16) -> SocketAddr
    ensures ip { socket_ip result ≡ V4 (record { octets = 127 ∷ 0 ∷ 0 ∷ 1 ∷ [] }) }
    ensures port { socket_port result ≡ port }
{
    SocketAddr::from((Ipv4Addr::LOCALHOST, port))
}

impl<R: Net<Listener = TcpListener, Stream = TcpStream>> TcpPorts<R> {
    /// Ports of which none is bound yet.
    pub fn new(net: R) -> TcpPorts<R>
        ensures { result ≡ record {
          net = net;
          bound = None;
          port = 0;
          open_links = 0;
          accepted_links = 0;
          faults = 0;
        } }
    {
        TcpPorts {
            net,
            bound: None,
            port: 0,
            open_links: 0,
            accepted_links: 0,
            faults: 0,
        }
    }

    /// Binds the port where it is not bound yet; from then on connections to it wait for `accept`. Another port that
    /// was bound is free again.
    /// Failed, and one fault counted, where the port can't be bound: then what was bound stays so.
    pub fn listen(&mut self, port: u16) -> Result<(), Failed>
        ensures bound { OnOk result (IsBoundTo port self.new) }
        ensures listened { OnOk result (self.new ≡ record self.old { bound = self.new.bound }) }
        ensures stays { IsBoundTo port self.old → IsOk result × (self.new ≡ self.old) }
        ensures failed { OnErr result (self.new ≡ record self.old { faults = next_count self.old.faults }) }
        ensures cause { HasCause self.old.faults self.new.faults result }
    {
        if let Some(bound) = &self.bound
            && bound.port == port
        {
            return Ok(());
        }
        match TcpListener::bind(&self.net, loopback(port)) {
            Ok(listener) => {
                self.bound = Some(Bound { port, listener });
                Ok(())
            }
            Err(_) => self.fail(),
        }
    }

    /// Counts a fault.
    fn fail<T>(&mut self) -> Result<T, Failed>
        ensures failed { IsErr result }
        ensures counted { self.new ≡ record self.old { faults = next_count self.old.faults } }
        ensures cause { HasCause self.old.faults self.new.faults result }
    {
        self.faults = self.faults.saturating_add(1);
        Err(Failed)
    }

    /// The next connection to the port that is bound; it waits for one. An error of std where there is none.
    fn next_link(&self) -> io::Result<TcpLink>
        ensures { IfOk result HasNoFault }
    {
        match &self.bound {
            Some(bound) => TcpLink::over(bound.listener.accept()?.0),
            None => Err(io::Error::from(io::ErrorKind::NotConnected)),
        }
    }
}

impl<R: Net<Listener = TcpListener, Stream = TcpStream>> Ports for TcpPorts<R> {
    ghost use Rattle.std.specs.Prelude.{None};

    type L = TcpLink;

    ghost port_given = { λ ports. ports.port };

    ghost open_links = { λ ports. ports.open_links };

    ghost accepted_links = { λ ports. ports.accepted_links };

    ghost coming = { λ _. None };

    ghost closed = { λ _. None };

    ghost faults = { λ ports. ports.faults };

    /// Binds the port where it is not bound yet, and waits for the next connection to it; it never answers None.
    /// Failed, and one fault counted, where the port can't be bound, std gives no connection, or 2^64 - 1 links were
    /// accepted.
    fn accept(&mut self, port: u16) -> Result<Option<TcpLink>, Failed>
        ensures given { IfOk result IsSome }
        ensures accepted { OnOk result (self.new ≡ record self.old {
          bound = self.new.bound;
          port = port;
          open_links = self.old.open_links + 1;
          accepted_links = self.old.accepted_links + 1;
        }) }
        ensures bound { OnOk result (IsBoundTo port self.new) }
        ensures no_fault { IfOk result (λ found. IfSome found HasNoFault) }
        ensures failed { OnErr result (self.new ≡ record self.old {
          bound = self.new.bound;
          faults = next_count self.old.faults;
        }) }
        ensures cause { HasCause self.old.faults self.new.faults result }
    {
        self.listen(port)?;
        let Some(open_links) = self.open_links.checked_add(1) else {
            return self.fail();
        };
        let Some(accepted_links) = self.accepted_links.checked_add(1) else {
            return self.fail();
        };
        match self.next_link() {
            Ok(link) => {
                self.port = port;
                self.open_links = open_links;
                self.accepted_links = accepted_links;
                Ok(Some(link))
            }
            Err(_) => self.fail(),
        }
    }

    /// Ends the connection, once what the other end still sends was read.
    fn close(&mut self, link: TcpLink)
        requires { 0 < self.old.open_links }
        ensures { self.new ≡ record self.old { open_links = self.old.open_links - 1 } }
    {
        link.end();
        self.open_links -= 1;
    }
}
