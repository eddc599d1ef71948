//! Files and sessions in memory, for tests.
ghost use Rattle.std.specs.Prelude.{◌≡◌, ◌≢◌, ◌≤◌, [], ◌∷◌, ◌++◌, Some, Err, IfOk, OnOk, OnErr, All, map, drop, get_or};
ghost use Rattle.std.proofs.Common.{ap};
ghost use Rattle.agent_bytes.specs.Faults.{Rose};
ghost use Rattle.agent_bytes.specs.Memory.{bytes_named};
ghost use Rattle.agent_links.specs.Shares.{shared, part, parts};
ghost use Rattle.agent_links.specs.Memory.{IsFresh, session_of, silent_halves};

use crate::count::counted_up;
use crate::listener_factory::{Yard, YardRefusal};
use crate::mem_acceptor::MemPost;
use crate::shares::share_of;
use agent_bytes::{FileRefusal, Files, MemFiles, MemSink, MemSource};
use std::alloc::{AllocError, Global};
use std::collections::VecDeque;
use std::marker::Model;

/// Files in memory, and the sessions that come, with lists of the calls that are to fail.
#[derive(Drop)]
pub struct MemYard {
    files: MemFiles,
    sessions: VecDeque<(MemSource, MemSink)>,
    failing: Vec<u64>,
    failing_next: Vec<u64>,
    seconds: u64,
    calls: u64,
    faults: u64,
}

impl Model for MemYard {
    ghost use Rattle.std.specs.Prelude.{All};
    ghost use Rattle.agent_links.specs.Memory.{FactoryState, IsFresh};

    ghost Value = { FactoryState };

    ghost view = { λ s. record {
      files = s.files;
      sessions = s.sessions.items;
      failing = s.failing.items;
      failing_next = s.failing_next.items;
      seconds = s.seconds;
      calls = s.calls;
      faults = s.faults;
    } };

    ghost invariant = { λ s. All IsFresh s.sessions.items };
}

impl MemYard {
    /// These files, no sessions, and a clock that stands at `seconds`. The calls of `listen` whose numbers are in
    /// `failing` are to fail, and at each acceptor those of `next` in `failing_next`; the first call has the number 0.
    pub fn new(
        alloc: Global,
        files: MemFiles,
        failing: Vec<u64>,
        failing_next: Vec<u64>,
        seconds: u64,
    ) -> MemYard
        ensures { result ≡ record {
          files = files;
          sessions = [];
          failing = failing.items;
          failing_next = failing_next.items;
          seconds = seconds;
          calls = 0;
          faults = 0;
        } }
    {
        MemYard {
            files,
            sessions: VecDeque::new(alloc),
            failing,
            failing_next,
            seconds,
            calls: 0,
            faults: 0,
        }
    }

    /// Adds a session behind those that are there. `Err`: there is no memory.
    pub fn add(&mut self, source: MemSource, sink: MemSink) -> Result<(), AllocError>
        requires { IsFresh (source, sink) }
        ensures added { OnOk result (self.new ≡ record self.old {
          sessions = self.old.sessions ++ (source, sink) ∷ [];
        }) }
        ensures kept { OnErr result (self.new ≡ self.old) }
    {
        self.sessions.push_back((source, sink))?;
        Ok(())
    }

    /// How many calls of `listen` have failed.
    pub fn faults(&self) -> u64
        ensures { result ≡ self.now.faults }
    {
        self.faults
    }

    // The next session, or one without bytes and without room where none is left.
    fn next_session(&mut self, alloc: Global) -> Result<(MemSource, MemSink), AllocError>
        ensures next { IfOk result (λ halves. halves ≡ get_or self.old.sessions 0 silent_halves) }
        ensures fresh { IfOk result IsFresh }
        ensures rest { self.new ≡ record self.old { sessions = drop 1 self.old.sessions } }
    {
        match self.sessions.pop_front() {
            Some(halves) => Ok(halves),
            None => silent(alloc),
        }
    }

    // An acceptor of the next `share` sessions.
    fn acceptor(&mut self, alloc: Global, share: u64) -> Result<MemPost, AllocError>
        ensures part { IfOk result (λ post. post ≡ record {
          sessions = part silent_halves self.old.sessions 0 share;
          failing = self.old.failing_next;
          seconds = self.old.seconds;
          calls = 0;
          faults = 0;
        }) }
        ensures rest { IfOk result (λ _.
            self.new ≡ record self.old { sessions = drop share self.old.sessions }) }
        ensures counts { self.new.faults ≡ self.old.faults }
        ensures files { self.new.files ≡ self.old.files }
    {
        let mut post = MemPost::new(alloc, self.failing_next.clone()?, self.seconds);
        for _ in 0..share {
            let (source, sink) = self.next_session(alloc)?;
            post.add(source, sink)?;
        }
        Ok(post)
    }

    // An acceptor for each worker.
    fn acceptors(
        &mut self,
        alloc: Global,
        sessions: u32,
        workers: u32,
    ) -> Result<Vec<MemPost>, AllocError>
        ensures parts { IfOk result (λ posts. map (λ post. post.sessions) posts.items
            ≡ parts silent_halves self.old.sessions sessions workers) }
        ensures each { IfOk result (λ posts. All (λ post.
            (post.failing ≡ self.old.failing_next) × (post.seconds ≡ self.old.seconds)
            × (post.calls ≡ 0) × (post.faults ≡ 0)) posts.items) }
        ensures rest { IfOk result (λ _. self.new ≡ record self.old {
          sessions = drop (shared sessions workers workers) self.old.sessions;
        }) }
        ensures counts { self.new.faults ≡ self.old.faults }
        ensures files { self.new.files ≡ self.old.files }
    {
        let mut posts = Vec::new(alloc);
        for worker in 0..workers {
            posts.push(self.acceptor(alloc, share_of(sessions, workers, worker))?)?;
        }
        Ok(posts)
    }
}

// A session past the end of the list.
fn silent(alloc: Global) -> Result<(MemSource, MemSink), AllocError>
    ensures { IfOk result (λ halves. halves ≡ silent_halves) }
{
    let sink = MemSink::new(alloc, 0, Vec::new(alloc))?;
    Ok((MemSource::new(Vec::new(alloc), Vec::new(alloc)), sink))
}

impl Files for MemYard {
    ghost files = { λ yard. Some (bytes_named yard.files.files) };

    ghost faults = { λ yard. yard.files.faults };

    ghost SameBeside = { λ before after.
        (after.sessions ≡ before.sessions) × (after.faults ≡ before.faults) };

    fn read_file(&mut self, alloc: Global, name: &str, limit: u64) -> Result<Vec<u8>, FileRefusal> {
        self.files.read_file(alloc, name, limit)
    }
}

impl Yard for MemYard {
    type Post = MemPost;

    ghost offered = { λ yard. Some (map session_of yard.sessions) };

    ghost yard_faults = { λ yard. yard.faults };

    fn listen(
        &mut self,
        alloc: Global,
        _addr: &str,
        sessions: u32,
        workers: u32,
    ) -> Result<Vec<MemPost>, YardRefusal> {
        let fails = self.failing.contains(&self.calls);
        self.calls = counted_up(self.calls);
        if fails {
            self.faults = counted_up(self.faults);
            return Err(YardRefusal::Failed);
        }
        match self.acceptors(alloc, sessions, workers) {
            Ok(posts) => Ok(posts),
            Err(_) => Err(YardRefusal::Memory),
        }
    }

    ghost beside_files = { λ before after same. (ap (λ all. Some (map session_of all)) same.0, same.1) };
}
