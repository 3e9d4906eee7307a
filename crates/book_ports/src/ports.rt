ghost use Rattle.std.specs.Prelude.{◌≡◌, ℕ, ◌+◌, ◌<◌, [], List, Ok, Option, Some, None, IfOk, IfSome, OnErr};
ghost use Rattle.book_keeper.specs.Faults.{HasCause};
ghost use Rattle.book_ports.specs.Accepting.{HasNothing, IsFirst, with_last};

use crate::Link;
use book_keeper::Failed;

/// Where links come from.
pub trait Ports {
    type L: Link;

    /// The port that the last `accept` which gave a link was given, 0 before the first.
    ghost port_given: { Self → ℕ };

    /// How many links were accepted and not closed yet.
    ghost open_links: { Self → ℕ };

    /// How many links were accepted so far, whatever became of them.
    ghost accepted_links: { Self → ℕ };

    /// The links that are still to come, in order, where the ports report them.
    ghost coming: { Self → Option (List Self.L) };

    /// The links that were closed, in order and as they were then, where the ports report them.
    ghost closed: { Self → Option (List Self.L) };

    /// The count of their faults.
    ghost faults: { Self → ℕ };

    /// Gives the next link that comes to the port, of which nothing was read or written yet and which has counted no
    /// fault; None where no more links come, which ports that do not report their links never say.
    /// Failed: the count of faults rose, and no link was given. A call that succeeds leaves the count.
    fn accept(&mut self, port: u16) -> Result<Option<Self::L>, Failed>
        ensures port { IfOk result (λ found. IfSome found (λ _. port_given self.new ≡ port)) }
        ensures opened { IfOk result (λ found. IfSome found (λ _. open_links self.new ≡ open_links self.old + 1)) }
        ensures accepted { IfOk result (λ found.
            IfSome found (λ _. accepted_links self.new ≡ accepted_links self.old + 1)) }
        ensures first { IfOk result (λ found. IfSome found (λ link. IsFirst link (coming self.old) (coming self.new))) }
        ensures unwritten { IfOk result (λ found. IfSome found (λ link. HasNothing (Self.L.written link))) }
        ensures no_read_fault { IfOk result (λ found. IfSome found (λ link. Self.L.Source.faults link ≡ 0)) }
        ensures no_write_fault { IfOk result (λ found. IfSome found (λ link. Self.L.Sink.faults link ≡ 0)) }
        ensures spent { result ≡ Ok None → (coming self.old ≡ Some []) × (coming self.new ≡ Some []) }
        ensures spent_port { result ≡ Ok None → port_given self.new ≡ port_given self.old }
        ensures spent_open { result ≡ Ok None → open_links self.new ≡ open_links self.old }
        ensures spent_accepted { result ≡ Ok None → accepted_links self.new ≡ accepted_links self.old }
        ensures failed_port { OnErr result (port_given self.new ≡ port_given self.old) }
        ensures failed_open { OnErr result (open_links self.new ≡ open_links self.old) }
        ensures failed_accepted { OnErr result (accepted_links self.new ≡ accepted_links self.old) }
        ensures failed_coming { OnErr result (coming self.new ≡ coming self.old) }
        ensures closed { closed self.new ≡ closed self.old }
        ensures cause { HasCause (faults self.old) (faults self.new) result };

    /// Takes a link back, at its end; it takes no memory.
    fn close(&mut self, link: Self::L)
        requires { 0 < open_links self.old }
        ensures closed { closed self.new ≡ with_last link (closed self.old) }
        ensures open { open_links self.new + 1 ≡ open_links self.old }
        ensures accepted { accepted_links self.new ≡ accepted_links self.old }
        ensures port { port_given self.new ≡ port_given self.old }
        ensures coming { coming self.new ≡ coming self.old }
        ensures faults { faults self.new ≡ faults self.old };
}
