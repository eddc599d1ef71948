//! The connections that a listener of TCP gives to one worker.
ghost use Rattle.std.specs.Prelude.{◌≡◌, ◌<◌, ◌≤◌, ◌+◌, None, IfOk, vec_len};
ghost use Rattle.agent_bytes.specs.Faults.{Rose};

use crate::acceptor::Post;
use crate::connection::Connection;
use crate::count::counted_up;
use crate::tcp_sink::TcpOut;
use crate::tcp_source::TcpIn;
use agent_bytes::Failed;
use anyhow::Error;
use std::alloc::{AllocError, Global};
use std::io;
use std::io::ErrorKind;
use std::marker::Model;
use std::net::{TcpListener, TcpStream};
use std::sync::Arc;
use std::time::{Clock, Duration, SystemTime, UNIX_EPOCH};

/// One worker's share of the incoming sessions, over TCP: each is the next connection that comes to the listener,
/// which all workers share.
#[derive(Drop)]
pub struct TcpPost<'a, R: Clock> {
    rt: &'a R,
    listener: Arc<TcpListener, Global>,
    // one for each session that is left; the last is the next
    unopened: Vec<Arc<Connection, Global>>,
    // that of the session before
    given: Option<Arc<Connection, Global>>,
    // how many seconds a write may move nothing
    patience: u64,
    faults: u64,
}

impl<'a, R: Clock> Model for TcpPost<'a, R> {
    ghost use Rattle.std.specs.Prelude.{ℕ, vec_len};

    // How many sessions are left, and the count of faults.
    ghost Value = { ℕ × ℕ };

    ghost view = { λ s. (vec_len s.unopened, s.faults) };
}

// A connection for each session, none of them open.
fn unopened(alloc: Global, share: u64) -> Result<Vec<Arc<Connection, Global>>, AllocError>
    ensures { IfOk result (λ connections. vec_len connections ≡ share) }
{
    let mut connections = Vec::new(alloc);
    for _ in 0..share {
        connections.push(Arc::new(alloc, Connection::new())?)?;
    }
    Ok(connections)
}

impl<'a, R: Clock> TcpPost<'a, R> {
    /// An acceptor for `share` sessions. A write that moves nothing for `patience` seconds is to be a fault. The memory
    /// for all sessions is taken here. `Err`: there is none.
    pub fn new(
        rt: &'a R,
        alloc: Global,
        listener: Arc<TcpListener, Global>,
        share: u64,
        patience: u64,
    ) -> Result<TcpPost<'a, R>, AllocError>
        requires { 0 < patience }
        ensures { IfOk result (λ post. post ≡ (share, 0)) }
    {
        Ok(TcpPost {
            rt,
            listener,
            unopened: unopened(alloc, share)?,
            given: None,
            patience,
            faults: 0,
        })
    }

    /// How many calls of `next` have failed.
    pub fn faults(&self) -> u64
        ensures { result ≡ self.now.1 }
    {
        self.faults
    }

    // Waits for a peer. One that left before it was accepted is no fault of the listener.
    fn accept(&self) -> io::Result<TcpStream> {
        for _ in 0..u64::MAX {
            match self.listener.accept() {
                Ok((stream, _)) => return Ok(stream),
                Err(fault) => {
                    if fault.kind() != ErrorKind::ConnectionAborted {
                        return Err(fault);
                    }
                }
            }
        }
        Err(io::Error::from(ErrorKind::ConnectionAborted))
    }

    // The halves of the next connection. Where its socket can't be set up, it isn't open, and their first calls fail.
    fn halves(&self, connection: &Arc<Connection, Global>) -> Result<(TcpIn, TcpOut), Error>
        ensures { IfOk result (λ halves. (halves.0 ≡ 0) × (halves.1 ≡ 0)) }
    {
        let source = TcpIn::new(Arc::try_clone(connection)?);
        let sink = TcpOut::new(Arc::try_clone(connection)?);
        let stream = self.accept()?;
        if set_up(&stream, self.patience).is_ok() {
            connection.open(stream);
        }
        Ok((source, sink))
    }

    // Closes the connection that was given before.
    fn close_given(&mut self)
        ensures { self.new ≡ self.old }
    {
        if let Some(connection) = self.given.take() {
            connection.hang_up();
            connection.close();
        }
    }
}

// What is written is sent at once, and a write waits so many seconds at most.
fn set_up(stream: &TcpStream, patience: u64) -> io::Result<()> {
    stream.set_nodelay(true)?;
    stream.set_write_timeout(Some(Duration::from_secs(patience)))
}

impl<'a, R: Clock + Sync> Post for TcpPost<'a, R> {
    type In = TcpIn;

    type Out = TcpOut;

    ghost left = { λ s. s.0 };

    ghost sessions = { λ _. None };

    ghost faults = { λ s. s.1 };

    fn next(&mut self) -> Result<Option<(TcpIn, TcpOut)>, Failed> {
        self.close_given();
        let answer = match self.unopened.last() {
            Some(connection) => self.halves(connection),
            None => return Ok(None),
        };
        match answer {
            Ok(halves) => {
                self.given = self.unopened.pop();
                Ok(Some(halves))
            }
            Err(_) => {
                self.faults = counted_up(self.faults);
                Err(Failed)
            }
        }
    }

    fn now(&self) -> u64 {
        match SystemTime::now(self.rt) {
            Ok(now) => match now.duration_since(UNIX_EPOCH) {
                Ok(since) => since.as_secs(),
                Err(_) => 0,
            },
            Err(_) => 0,
        }
    }
}
