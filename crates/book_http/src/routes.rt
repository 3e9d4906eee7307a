ghost use Rattle.std.specs.Prelude.{◌≡◌, IfOk, OnOk, IsUtf8, option_map};
ghost use Rattle.matchit.specs.Seek.{first};
ghost use Rattle.book_http.specs.Route.{Finds};
ghost use Rattle.book_http.specs.Routing.{all_routes, with_route};

use crate::route::{Route, RouteKind, route_of_kind};
use book_commodity::OutOfMemory;
use matchit::Router;
use std::alloc::Global;
use std::marker::Model;

/// The routes, made once.
#[derive(Drop)]
pub struct Routes {
    router: Router<RouteKind>,
}

impl Model for Routes {
    ghost use Rattle.std.specs.Prelude.{◌≡◌};
    ghost use Rattle.book_http.specs.Routing.{RouteRows, all_routes};

    ghost Value = { RouteRows };

    ghost view = { λ r. r.router };

    ghost invariant = { λ r. r.router ≡ all_routes };
}

/// Adds the route that this text writes.
fn add(router: &mut Router<RouteKind>, text: &str, kind: RouteKind) -> Result<(), OutOfMemory>
    ensures { OnOk result (router.new ≡ with_route text.now kind router.old) }
{
    match router.insert(text, kind) {
        Ok(()) => Ok(()),
        Err(_) => Err(OutOfMemory),
    }
}

/// The router of the seven routes.
fn make_router(alloc: Global) -> Result<Router<RouteKind>, OutOfMemory>
    ensures { IfOk result (λ router. router ≡ all_routes) }
{
    let mut router = Router::new(alloc);
    add(&mut router, "/command", RouteKind::Command)?;
    add(&mut router, "/status", RouteKind::Status)?;
    add(&mut router, "/trial/{day}", RouteKind::Trial)?;
    add(&mut router, "/sheet/{day}", RouteKind::Sheet)?;
    add(&mut router, "/income/{from}/{to}", RouteKind::Income)?;
    add(&mut router, "/register/{account}", RouteKind::Register)?;
    add(&mut router, "/lots/{account}", RouteKind::Lots)?;
    Ok(router)
}

impl Routes {
    /// The routes; it takes their memory once.
    pub fn new(alloc: Global) -> Result<Routes, OutOfMemory>
        ensures { IfOk result (λ routes. routes ≡ all_routes) }
    {
        let router = make_router(alloc)?;
        Ok(Routes { router })
    }

    /// The kind of route that the router finds for a target.
    fn kind_of(&self, target: &str) -> Option<RouteKind>
        ensures { result ≡ option_map (λ route. route.value) (first all_routes target.now) }
    {
        match self.router.at(target) {
            Ok(found) => Some(*found.value),
            Err(_) => None,
        }
    }

    /// The route of a target, if it has one.
    pub(crate) fn find(&self, alloc: Global, target: &[u8]) -> Result<Option<Route>, OutOfMemory>
        requires { IsUtf8 target.now }
        ensures { IfOk result (Finds target.now) }
    {
        let Ok(target) = str::from_utf8(target) else {
            unreachable!()
        };
        match self.kind_of(target) {
            Some(kind) => route_of_kind(alloc, kind, target),
            None => Ok(None),
        }
    }
}
