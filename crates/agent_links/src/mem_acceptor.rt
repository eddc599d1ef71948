//! Sessions in memory, for tests.
ghost use Rattle.std.specs.Prelude.{◌≡◌, ◌↔◌, ◌+◌, ◌≤◌, [], ◌∷◌, ◌++◌, None, Ok, Some, IfOk, IfSome, OnErr, OnOk};
ghost use Rattle.std.specs.Prelude.{IsErr, length, map, option_to_list};
ghost use Rattle.agent_bytes.specs.Faults.{Rose, one_more};
ghost use Rattle.agent_links.specs.Sessions.{Gives};
ghost use Rattle.agent_links.specs.Memory.{IsFresh, NextFails, session_of};

use crate::acceptor::Post;
use crate::count::counted_up;
use agent_bytes::{Failed, MemSink, MemSource};
use std::alloc::{AllocError, Global};
use std::collections::VecDeque;
use std::marker::Model;

/// One worker's share of the incoming sessions, in memory, with a list of the calls that are to fail.
#[derive(Drop)]
pub struct MemPost {
    sessions: VecDeque<(MemSource, MemSink)>,
    failing: Vec<u64>,
    seconds: u64,
    calls: u64,
    faults: u64,
}

impl Model for MemPost {
    ghost use Rattle.std.specs.Prelude.{All};
    ghost use Rattle.agent_links.specs.Memory.{AcceptorState, IsFresh};

    ghost Value = { AcceptorState };

    ghost view = { λ s. record {
      sessions = s.sessions.items;
      failing = s.failing.items;
      seconds = s.seconds;
      calls = s.calls;
      faults = s.faults;
    } };

    ghost invariant = { λ s. All IsFresh s.sessions.items };
}

impl MemPost {
    /// No sessions, and a clock that stands at `seconds`. The calls of `next` whose numbers are in `failing` are to
    /// fail while a session is left; the first call has the number 0.
    pub fn new(alloc: Global, failing: Vec<u64>, seconds: u64) -> MemPost
        ensures { result ≡ record {
          sessions = [];
          failing = failing.items;
          seconds = seconds;
          calls = 0;
          faults = 0;
        } }
    {
        MemPost {
            sessions: VecDeque::new(alloc),
            failing,
            seconds,
            calls: 0,
            faults: 0,
        }
    }

    /// Adds a session behind those that are there. `Err`: there is no memory.
    pub fn add(&mut self, source: MemSource, sink: MemSink) -> Result<(), AllocError>
        requires { IsFresh (source, sink) }
        ensures added { OnOk result (self.new ≡ record self.old {
          sessions = self.old.sessions ++ (source, sink) ∷ [];
        }) }
        ensures kept { OnErr result (self.new ≡ self.old) }
    {
        self.sessions.push_back((source, sink))?;
        Ok(())
    }

    /// How many calls of `next` have failed.
    pub fn faults(&self) -> u64
        ensures { result ≡ self.now.faults }
    {
        self.faults
    }
}

impl Post for MemPost {
    type In = MemSource;

    type Out = MemSink;

    ghost left = { λ post. length post.sessions };

    ghost sessions = { λ post. Some (map session_of post.sessions) };

    ghost faults = { λ post. post.faults };

    #[tactic(auto, using(crate::proofs::SessionLemmas::first_given))]
    fn next(&mut self) -> Result<Option<(MemSource, MemSink)>, Failed>
        // It fails exactly where its number is listed and a session is left.
        ensures fails { IsErr result ↔ NextFails self.old }

        // Each call is counted. A session is the first of those that are left, and a failed call takes none.
        ensures taken { IfOk result (λ given. self.old.sessions ≡ option_to_list given ++ self.new.sessions) }
        ensures gave { OnOk result (self.new ≡ record self.old {
          sessions = self.new.sessions;
          calls = one_more self.old.calls;
        }) }
        ensures refused { OnErr result (self.new ≡ record self.old {
          calls = one_more self.old.calls;
          faults = one_more self.old.faults;
        }) }

        // As every acceptor.
        ensures given { IfOk result (λ given. IfSome given (λ halves.
            Gives (Some (map session_of self.old.sessions)) (Some halves.0.left) (Some halves.1.written)
            (Some (map session_of self.new.sessions)))) }
        ensures fresh { IfOk result (λ given. IfSome given (λ halves.
            (halves.0.faults ≡ 0) × (halves.1.faults ≡ 0))) }
        ensures fewer { IfOk result (λ given. IfSome given (λ _.
            length self.old.sessions ≡ length self.new.sessions + 1)) }
        ensures ended { (result ≡ Ok None) ↔ (length self.old.sessions ≡ 0) }
        ensures none { (result ≡ Ok None) → (length self.new.sessions ≡ 0)
            × (Some (map session_of self.new.sessions) ≡ Some (map session_of self.old.sessions)) }
        ensures failed { OnErr result (Rose self.old.faults self.new.faults) }
        ensures counted { self.old.faults ≤ self.new.faults }
    {
        let fails = self.failing.contains(&self.calls) && !self.sessions.is_empty();
        self.calls = counted_up(self.calls);
        if fails {
            self.faults = counted_up(self.faults);
            return Err(Failed);
        }
        Ok(self.sessions.pop_front())
    }

    fn now(&self) -> u64 {
        self.seconds
    }
}
