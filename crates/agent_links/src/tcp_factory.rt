//! Listening on an address of TCP, beside the files of the runtime.
ghost use Rattle.std.specs.Prelude.{◌≡◌, ◌≢◌, ◌<◌, ◌≤◌, None, Err, IfOk, All, map, refl};
ghost use Rattle.agent_bytes.specs.Faults.{Rose};
ghost use Rattle.agent_links.specs.Shares.{shares};

use crate::count::counted_up;
use crate::listener_factory::{Yard, YardRefusal};
use crate::shares::share_of;
use crate::tcp_acceptor::TcpPost;
use agent_bytes::{FileRefusal, Files, RealFiles};
use std::alloc::{AllocError, Global};
use std::marker::Model;
use std::net::{Net, SocketAddr, TcpListener, TcpStream};
use std::rt;
use std::sync::Arc;
use std::time::Clock;

/// How many seconds a write may move nothing, where nothing else is said.
const PATIENCE: u64 = 30;

/// The files and the network of the runtime. It tells neither files nor sessions. An address is an IP address, IPv4 or
/// IPv6 in brackets, or the name of a host, and a port: `127.0.0.1:4100`, `[::]:4100`.
#[derive(Drop)]
pub struct TcpYard<'a, R: rt::Files + Net<Listener = TcpListener, Stream = TcpStream> + Clock> {
    rt: &'a R,
    files: RealFiles<'a, R>,
    address: Option<SocketAddr>,
    patience: u64,
    faults: u64,
}

impl<'a, R: rt::Files + Net<Listener = TcpListener, Stream = TcpStream> + Clock> Model
    for TcpYard<'a, R> {
    ghost use Rattle.std.specs.Prelude.{ℕ, ◌<◌};

    // The counts of faults of the files and of `listen`.
    ghost Value = { ℕ × ℕ };

    ghost view = { λ s. (s.files, s.faults) };

    ghost invariant = { λ s. 0 < s.patience };
}

impl<'a, R: rt::Files + Net<Listener = TcpListener, Stream = TcpStream> + Clock> TcpYard<'a, R> {
    /// The files and the network of `rt`, with no fault so far. A write that moves nothing for 30 seconds is a fault.
    pub fn new(rt: &'a R) -> TcpYard<'a, R>
        ensures { result ≡ (0, 0) }
    {
        TcpYard {
            rt,
            files: RealFiles::new(rt),
            address: None,
            patience: PATIENCE,
            faults: 0,
        }
    }

    /// The same, where a write may move nothing for `seconds`.
    pub fn with_patience(mut self, seconds: u64) -> TcpYard<'a, R>
        requires { 0 < seconds }
        ensures { result ≡ self.entry }
    {
        self.patience = seconds;
        self
    }

    /// Where the last call of `listen` that wasn't refused listens, with the port that the system chose for port 0.
    pub fn address(&self) -> Option<SocketAddr> {
        self.address
    }

    /// How many calls of `listen` have failed.
    pub fn faults(&self) -> u64
        ensures { result ≡ self.now.1 }
    {
        self.faults
    }

    // An acceptor for each worker, all of one listener.
    #[tactic(auto, using(crate::proofs::SessionLemmas::all_with_last, crate::proofs::SessionLemmas::map_with_last))]
    fn acceptors(
        &self,
        alloc: Global,
        listener: TcpListener,
        sessions: u32,
        workers: u32,
    ) -> Result<Vec<TcpPost<'a, R>>, AllocError>
        ensures shares { IfOk result (λ posts. map (λ post. post.0) posts.items ≡ shares sessions workers) }
        ensures fresh { IfOk result (λ posts. All (λ post. post.1 ≡ 0) posts.items) }
    {
        let listener = Arc::new(alloc, listener)?;
        let mut posts = Vec::new(alloc);
        for worker in 0..workers {
            let share = share_of(sessions, workers, worker);
            let shared = Arc::try_clone(&listener)?;
            posts.push(TcpPost::new(self.rt, alloc, shared, share, self.patience)?)?;
        }
        Ok(posts)
    }
}

impl<'a, R: rt::Files + Net<Listener = TcpListener, Stream = TcpStream> + Clock> Files
    for TcpYard<'a, R> {
    ghost files = { λ _. None };

    ghost faults = { λ s. s.0 };

    ghost SameBeside = { λ before after. after.1 ≡ before.1 };

    fn read_file(&mut self, alloc: Global, name: &str, limit: u64) -> Result<Vec<u8>, FileRefusal> {
        self.files.read_file(alloc, name, limit)
    }
}

impl<'a, R: rt::Files + Net<Listener = TcpListener, Stream = TcpStream> + Clock + Sync> Yard
    for TcpYard<'a, R> {
    type Post = TcpPost<'a, R>;

    ghost offered = { λ _. None };

    ghost yard_faults = { λ s. s.1 };

    fn listen(
        &mut self,
        alloc: Global,
        addr: &str,
        sessions: u32,
        workers: u32,
    ) -> Result<Vec<TcpPost<'a, R>>, YardRefusal> {
        let Ok(listener) = TcpListener::bind(self.rt, addr) else {
            self.faults = counted_up(self.faults);
            return Err(YardRefusal::Failed);
        };
        self.address = listener.local_addr().ok();
        match self.acceptors(alloc, listener, sessions, workers) {
            Ok(posts) => Ok(posts),
            Err(_) => Err(YardRefusal::Memory),
        }
    }

    ghost beside_files = { λ before after same. (refl, same) };
}
