ghost use Rattle.std.specs.Prelude.{◌≡◌, ◌↔◌, ◌<◌, ◌∷◌, ◌++◌, [], All, Ok, None, IfOk, IfSome, OnErr, IsErr};
ghost use Rattle.book_keeper.specs.Calls.{FailsNext};
ghost use Rattle.book_keeper.specs.Faults.{HasCause};
ghost use Rattle.book_ports.specs.PortsInMemory.{IsUnused, after_accept, after_close, after_failed_accept, after_none};

use crate::{MemLink, Ports};
use book_commodity::{Many, OutOfMemory};
use book_keeper::Failed;
use std::alloc::Global;
use std::marker::Model;

/// Ports in memory, which give links of a list, report them, and fail at chosen calls of `accept`.
#[derive(Drop)]
pub struct MemPorts {
    coming: Vec<MemLink>,
    closed: Vec<MemLink>,
    open_links: usize,
    port: u16,
    fail: Many<u64>,
    calls: u64,
    faults: u64,
}

impl Model for MemPorts {
    ghost use Rattle.std.specs.Prelude.{◌+◌, ◌≤◌, All, vec_len, vec_capacity};
    ghost use Rattle.book_ports.specs.PortsInMemory.{IsUnused, PortsInMemory};

    ghost Value = { PortsInMemory };

    ghost view = { λ p. record {
      coming = p.coming.items;
      closed = p.closed.items;
      open_links = p.open_links;
      port = p.port;
      fail = p.fail;
      calls = p.calls;
      faults = p.faults;
    } };

    ghost invariant = { λ p. (vec_len p.coming + p.open_links + vec_len p.closed ≤ vec_capacity p.closed)
        × All IsUnused p.coming.items };
}

impl MemPorts {
    /// Ports that give these links in their order. The calls of `accept` whose numbers, counted from 1, stand in `fail`
    /// are to fail, and no others. Only this call takes memory, the room for the closed links: OutOfMemory where there
    /// is not enough.
    pub fn new(
        alloc: Global,
        links: Many<MemLink>,
        fail: Many<u64>,
    ) -> Result<MemPorts, OutOfMemory>
        requires { All IsUnused links }
        ensures { IfOk result (λ ports. ports ≡ record {
          coming = links;
          closed = [];
          open_links = 0;
          port = 0;
          fail = fail;
          calls = 0;
          faults = 0;
        }) }
    {
        let coming = links.into_vec();
        let closed = Vec::with_capacity(alloc, coming.len())?;
        Ok(MemPorts {
            coming,
            closed,
            open_links: 0,
            port: 0,
            fail,
            calls: 0,
            faults: 0,
        })
    }

    /// The closed links, in the order in which they were closed.
    pub fn closed(&self) -> &[MemLink]
        ensures { result.now ≡ self.now.closed }
    {
        self.closed.as_slice()
    }
}

impl Ports for MemPorts {
    ghost use Rattle.std.specs.Prelude.{◌+◌, Some, length};

    type L = MemLink;

    ghost port_given = { λ ports. ports.port };

    ghost open_links = { λ ports. ports.open_links };

    ghost accepted_links = { λ ports. ports.open_links + length ports.closed };

    ghost coming = { λ ports. Some ports.coming };

    ghost closed = { λ ports. Some ports.closed };

    ghost faults = { λ ports. ports.faults };

    /// Fails exactly at the calls that are to fail; else gives the first link to come, or None where there is none.
    fn accept(&mut self, port: u16) -> Result<Option<MemLink>, Failed>
        ensures fails { IsErr result ↔ FailsNext self.old.fail self.old.calls }
        ensures given { IfOk result (λ found. IfSome found (λ link. (self.old.coming ≡ link ∷ self.new.coming)
            × (self.new ≡ after_accept self.old port self.new.coming))) }
        ensures unused { IfOk result (λ found. IfSome found IsUnused) }
        ensures spent { result ≡ Ok None → (self.old.coming ≡ []) × (self.new ≡ after_none self.old) }
        ensures failed { OnErr result (self.new ≡ after_failed_accept self.old) }
        ensures cause { HasCause self.old.faults self.new.faults result }
    {
        self.calls = self.calls.saturating_add(1);
        if self.fail.as_slice().contains(&self.calls) {
            self.faults = self.faults.saturating_add(1);
            return Err(Failed);
        }
        if self.coming.is_empty() {
            return Ok(None);
        }
        let link = self.coming.remove(0);
        self.open_links += 1;
        self.port = port;
        Ok(Some(link))
    }

    /// Puts the link behind the closed ones.
    fn close(&mut self, link: MemLink)
        requires { 0 < self.old.open_links }
        ensures { self.new ≡ after_close self.old link }
    {
        let Ok(()) = self.closed.push(link) else {
            unreachable!();
        };
        self.open_links -= 1;
    }
}
