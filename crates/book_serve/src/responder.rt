ghost use Rattle.std.specs.Prelude.{◌≡◌, ℕ, ◌≤◌, List, Err, IfOk};
ghost use Rattle.book_keeper.specs.Faults.{Rose};
ghost use Rattle.book_lines.specs.Marks.{Mark, Memory, Keeper, memory_answer, keeper_answer};
ghost use Rattle.book_http.specs.declared.next.Request.{Request};
ghost use Rattle.book_serve.specs.Exchange.{IsResponse};

use book_commodity::Bytes;
use book_http::Request;
use book_lines::Unanswered;
use std::alloc::Global;

/// A machine that answers requests over what `K` keeps. `W` is a marker by which a crate above both may join them.
pub trait Responder<W, K> {
    /// From a state a request with a mark is answered by a status and a body, and a state follows.
    ghost answers: { Self → Request → Mark → ℕ → List ℕ → Self → Type 0 };

    /// What is kept stands for the state.
    ghost stands: { Self → K → Type 0 };

    /// What is kept may be this after it was that, whatever requests were answered between.
    ghost follows: { K → K → Type 0 };

    /// The count of faults of what is kept.
    ghost faults: { K → ℕ };

    /// The bytes of the response to a request, which says so where the request closes the link. All of it is made
    /// before a change is kept, so that no answered change is lost for memory. Memory and Keeper say why there is no
    /// response; the state is then what `answers` says for that mark.
    fn respond(
        &mut self,
        alloc: Global,
        keeper: &mut K,
        request: Request,
    ) -> Result<Bytes, Unanswered>
        requires { stands self.old keeper.old }
        ensures answered { IfOk result (λ bytes. IsResponse answers self.old request bytes self.new) }
        ensures memory { result ≡ Err Unanswered.Memory
            → answers self.old request Memory 507 memory_answer self.new }
        ensures keeper { result ≡ Err Unanswered.Keeper
            → answers self.old request Keeper 503 keeper_answer self.new
            × Rose (faults keeper.old) (faults keeper.new) }
        ensures later { faults keeper.old ≤ faults keeper.new }
        ensures stands { stands self.new keeper.new }
        ensures follows { follows keeper.old keeper.new };

    /// Where no request was answered, what is kept is as it was.
    ghost follows_itself: { (keeper : K) → follows keeper keeper };

    /// What follows on what followed on the first follows on the first.
    ghost follows_through: { (first second third : K) → follows first second → follows second third
        → follows first third };
}
