ghost use Rattle.std.specs.Prelude.{All, IfOk};
ghost use Rattle.book_ports.specs.PortsInMemory.{IsUnused};

use book_commodity::{Bytes, Many, discard};
use book_keeper::{MemSink, MemSource, Sink};
use book_ports::{MemLink, MemPorts};
use gate_rows::{Fault, Run, Sort, memory};
use std::alloc::Global;
use std::io;

/// How many bytes the responses of a link, and of all links, may have.
const ROOM: usize = 1 << 20;

/// A link of a run, at a place of its links.
fn link_of(alloc: Global, run: &Run, place: usize, more: Option<Fault>) -> io::Result<MemLink>
    ensures { IfOk result IsUnused }
{
    let bytes = Bytes::of(run.link(place).to_vec(alloc)?);
    let reads = run.failing(alloc, Sort::Read, more)?;
    let source = MemSource::new(bytes, run.piece.max(1), reads);
    let writes = run.failing(alloc, Sort::Write, more)?;
    match MemSink::new(alloc, ROOM, writes) {
        Ok(sink) => Ok(MemLink::new(source, sink)),
        Err(_) => Err(discard(source, memory())),
    }
}

/// The links of a run.
fn links_of(alloc: Global, run: &Run, more: Option<Fault>) -> io::Result<Many<MemLink>>
    ensures { IfOk result (All IsUnused) }
{
    let mut links = Vec::new(alloc);
    for place in 0..run.links.len() {
        links.push(link_of(alloc, run, place, more)?)?;
    }
    Ok(Many::of(links))
}

/// The ports of a run, to which its links come.
pub(crate) fn ports_of(alloc: Global, run: &Run, more: Option<Fault>) -> io::Result<MemPorts> {
    let accepts = run.failing(alloc, Sort::Accept, more)?;
    let links = links_of(alloc, run, more)?;
    match MemPorts::new(alloc, links, accepts) {
        Ok(ports) => Ok(ports),
        Err(_) => Err(memory()),
    }
}

/// Ports to which no link comes.
pub(crate) fn no_ports(alloc: Global) -> io::Result<MemPorts> {
    match MemPorts::new(alloc, Many::new(alloc), Many::new(alloc)) {
        Ok(ports) => Ok(ports),
        Err(_) => Err(memory()),
    }
}

/// What a run wrote: what each closed link was given and a line feed behind it, or what the output was given where no
/// link was closed.
pub(crate) fn written(alloc: Global, output: MemSink, ports: &MemPorts) -> io::Result<MemSink> {
    if ports.closed().is_empty() {
        return Ok(output);
    }
    let Ok(mut all) = MemSink::new(alloc, ROOM, Many::new(alloc)) else {
        return Err(discard(output, memory()));
    };
    for link in ports.closed() {
        let _ = all.write(link.written());
        let _ = all.write(b"\n");
    }
    Ok(discard(output, all))
}
