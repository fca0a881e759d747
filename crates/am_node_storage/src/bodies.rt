ghost use Rattle.std.specs.Prelude.{◌≡◌, ◌≤◌, ◌==◌, ◌&&◌, [], length, option_map, not, nat_le};
ghost use Rattle.std.specs.List.{list_any, list_all};
ghost use Rattle.am_node_defs.specs.Bodies.{is_body_of_send, find_body, keep_body, drop_bodies};

use am_base::body::{Body, BodyRef};
use am_base::name::Name;
use am_node_defs::bodies::KeptBody;
use arrayvec::ArrayVec;
use std::marker::Model;

/// At most sixteen kept bodies, the oldest first. Contracts see it as their list.
#[derive(Drop)]
pub struct Pool {
    bodies: ArrayVec<KeptBody, 16>,
}

impl Model for Pool {
    ghost use Rattle.std.specs.Prelude.{List, ◌≤◌, length};
    ghost use Rattle.am_node_defs.specs.declared.bodies.KeptBody.{KeptBody};

    ghost Value = { List KeptBody };

    ghost view = { λ p. p.bodies.items };

    ghost invariant = { λ p. length p.bodies.items ≤ 16 };
}

impl Pool {
    /// A pool without bodies.
    pub fn new() -> Pool
        ensures { result ≡ [] }
    {
        Pool {
            bodies: ArrayVec::new(),
        }
    }

    /// The body of this name's send with this request; None exactly where it isn't kept.
    pub fn find(&self, from: Name, req: u32) -> Option<&Body>
        ensures { option_map (λ body. body.now) result ≡ find_body from req self.now }
    {
        self.bodies
            .as_slice()
            .iter()
            .find(|kept| kept.from == from && kept.req == req)
            .map(|kept| &kept.body)
    }

    /// Whether the body of this name's send with this request is kept.
    pub fn holds(&self, from: Name, req: u32) -> bool
        ensures { result ≡ list_any (is_body_of_send from req) self.now }
    {
        self.bodies
            .as_slice()
            .iter()
            .any(|kept| kept.from == from && kept.req == req)
    }

    /// Keeps a body, unless one of the same send is there; a full pool gives up its oldest.
    pub fn keep(&mut self, from: Name, req: u32, body: &BodyRef)
        ensures value { self.new ≡ keep_body from req body.now self.old }
        ensures few { length self.new ≤ 16 }
    {
        if self.holds(from, req) {
            return;
        }
        let kept = KeptBody {
            from,
            req,
            body: body.to_body(),
        };
        if self.bodies.is_full() {
            self.bodies.remove(0);
            self.bodies.push(kept);
            return;
        }
        self.bodies.push(kept);
    }

    /// Whether none of this name's bodies up to a request is kept.
    fn has_none_upto(&self, from: Name, req: u32) -> bool
        ensures { result ≡ list_all (λ kept. not ((kept.from == from) && nat_le kept.req req))
            self.now }
    {
        self.bodies
            .as_slice()
            .iter()
            .all(|kept| !(kept.from == from && kept.req <= req))
    }

    /// Gives up this name's bodies up to a request. Where there is none, no body is moved.
    pub fn drop_upto(&mut self, from: Name, req: u32)
        ensures { self.new ≡ drop_bodies from req self.old }
    {
        if self.has_none_upto(from, req) {
            return;
        }
        self.bodies
            .retain(|kept| !(kept.from == from && kept.req <= req));
    }
}
