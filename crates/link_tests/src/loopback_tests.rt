//! Connections over loopback: what is read and written, how they end, and what a fault of one leaves to the others.

use crate::links::{Link, acceptor, next_link, peer_gets, read_in_pieces, send_bytes};
use agent_bytes::{Failed, Sink, Source, write_all};
use agent_links::{Post, TcpIn, TcpOut, TcpPost, TcpYard, Yard, YardRefusal};
use std::alloc::Global;
use std::net::Shutdown;
use std::process::Abort;
use std::test::Fail;
use std::time::{Clock, Duration, Instant};

/// Longer than any test here waits.
const PATIENCE: u64 = 30;

const FRAME: &[u8] = b"\0\0\0\x05hello";

#[test]
fn a_frame_goes_there_in_pieces_and_back_behind_the_peer_s_end(
    rt: HostRuntime,
) -> Result<(), Fail> {
    let (mut post, address) = acceptor(&rt, rt.alloc(), 1, PATIENCE)?;
    let mut link = next_link(&rt, &mut post, address)?;
    send_bytes(&link.peer, FRAME)?;
    link.peer.shutdown(Shutdown::Write)?;
    let frame = read_in_pieces(&mut link.source, rt.alloc())?;
    assert_eq!(rt; frame.as_slice(), FRAME);
    write_all(&mut link.sink, &frame)?;
    check_answer(&rt, &link)
}

fn check_answer(rt: &impl Abort, link: &Link) -> Result<(), Fail> {
    let mut answer = [0u8; 16];
    let count = peer_gets(&link.peer, &mut answer)?;
    assert_eq!(rt; count, FRAME.len());
    assert_eq!(rt; &answer[..9], FRAME);
    Ok(())
}

#[test]
fn a_sink_that_ends_ends_its_source_and_its_peer(rt: HostRuntime) -> Result<(), Fail> {
    let (mut post, address) = acceptor(&rt, rt.alloc(), 1, PATIENCE)?;
    let mut link = next_link(&rt, &mut post, address)?;
    link.sink.end();
    check_ended(&rt, &mut link)
}

fn check_ended(rt: &impl Abort, link: &mut Link) -> Result<(), Fail> {
    let mut into = [0u8; 4];
    assert_eq!(rt; peer_gets(&link.peer, &mut into)?, 0);
    assert_eq!(rt; link.source.read(&mut into), Ok(0));
    assert_eq!(rt; (link.source.faults(), link.sink.faults()), (0, 0));
    Ok(())
}

#[test]
fn a_peer_that_resets_is_a_fault_of_its_link_alone(rt: HostRuntime) -> Result<(), Fail> {
    let (mut post, address) = acceptor(&rt, rt.alloc(), 2, PATIENCE)?;
    let Link {
        peer,
        mut source,
        mut sink,
    } = next_link(&rt, &mut post, address)?;
    write_all(&mut sink, FRAME)?;
    // A peer that closes with bytes unread resets the connection.
    drop(peer);
    check_reset(&rt, &mut source, &mut sink);
    let mut link = next_link(&rt, &mut post, address)?;
    assert_eq!(rt; post.faults(), 0);
    write_all(&mut link.sink, FRAME)?;
    check_answer(&rt, &link)
}

fn check_reset(rt: &impl Abort, source: &mut TcpIn, sink: &mut TcpOut) {
    let mut into = [0u8; 4];
    assert_eq!(rt; source.read(&mut into), Err(Failed));
    assert_eq!(rt; source.faults(), 1);
    assert_eq!(rt; sink.write(FRAME), Err(Failed));
    assert_eq!(rt; sink.faults(), 1);
}

#[test]
fn a_connection_is_let_go_at_the_next_call(rt: HostRuntime) -> Result<(), Fail> {
    let (mut post, address) = acceptor(&rt, rt.alloc(), 2, PATIENCE)?;
    let mut first = next_link(&rt, &mut post, address)?;
    let _second = next_link(&rt, &mut post, address)?;
    let mut into = [0u8; 4];
    assert_eq!(rt; peer_gets(&first.peer, &mut into)?, 0);
    check_reset(&rt, &mut first.source, &mut first.sink);
    check_used_up(&rt, &mut post);
    Ok(())
}

fn check_used_up<R: Clock + Sync>(rt: &impl Abort, post: &mut TcpPost<'_, R>) {
    assert!(rt; matches!(post.next(), Ok(None)));
    assert_eq!(rt; post.faults(), 0);
}

#[test]
fn a_peer_that_never_reads_is_a_fault_of_its_sink(rt: HostRuntime) -> Result<(), Fail> {
    let (mut post, address) = acceptor(&rt, rt.alloc(), 1, 1)?;
    let mut link = next_link(&rt, &mut post, address)?;
    let started = Instant::now(&rt)?;
    assert!(rt; fills_up(&mut link.sink, rt.alloc())?);
    assert!(rt; started.elapsed(&rt)? >= Duration::from_secs(1));
    assert_eq!(rt; link.sink.faults(), 1);
    let mut into = [0u8; 4];
    assert_eq!(rt; link.source.read(&mut into), Ok(0));
    Ok(())
}

/// Whether a write fails before 64 MiB were taken, which is more than the system keeps.
fn fills_up(sink: &mut TcpOut, alloc: Global) -> Result<bool, Fail> {
    let bytes = vec![in alloc; 0u8; 65_536]?;
    for _ in 0..1024 {
        if write_all(sink, &bytes).is_err() {
            return Ok(true);
        }
    }
    Ok(false)
}

#[test]
fn an_address_in_use_or_none_is_refused_and_counted(rt: HostRuntime) -> Result<(), Fail> {
    let alloc: Global = rt.alloc();
    let (_post, address) = acceptor(&rt, alloc, 1, PATIENCE)?;
    let used = format!(in alloc; "{address}")?;
    let mut yard = TcpYard::new(&rt);
    let in_use = yard.listen(alloc, used.as_str(), 1, 1);
    assert!(rt;
        matches!(in_use, Err(YardRefusal::Failed)),
        "an address in use"
    );
    assert_eq!(rt; yard.faults(), 1);
    let no_port = yard.listen(alloc, "127.0.0.1", 1, 1);
    assert!(rt; matches!(no_port, Err(YardRefusal::Failed)), "no port");
    assert_eq!(rt; yard.faults(), 2);
    let great_port = yard.listen(alloc, "127.0.0.1:65536", 1, 1);
    assert!(rt;
        matches!(great_port, Err(YardRefusal::Failed)),
        "a port past the last one"
    );
    assert_eq!(rt; yard.faults(), 3);
    let no_address = yard.listen(alloc, "no address", 1, 1);
    assert!(rt;
        matches!(no_address, Err(YardRefusal::Failed)),
        "no address"
    );
    assert_eq!(rt; yard.faults(), 4);
    Ok(())
}

#[test]
fn an_acceptor_tells_the_time(rt: HostRuntime) -> Result<(), Fail> {
    let (post, _address) = acceptor(&rt, rt.alloc(), 1, PATIENCE)?;
    // 2020 and 2120
    let now = post.now();
    assert!(rt; 1_577_836_800 < now && now < 4_733_510_400, "at {now}");
    Ok(())
}

/// With as many descriptors as a limit of 64 leaves, since each link is let go before the next.
#[test]
fn six_hundred_links_come_one_after_another(rt: HostRuntime) -> Result<(), Fail> {
    let alloc: Global = rt.alloc();
    let (mut post, address) = acceptor(&rt, alloc, 600, PATIENCE)?;
    let mut halves = Vec::new(alloc);
    for _ in 0..600 {
        let Link {
            peer,
            source,
            mut sink,
        } = next_link(&rt, &mut post, address)?;
        write_all(&mut sink, FRAME)?;
        let mut answer = [0u8; 16];
        assert_eq!(rt; peer_gets(&peer, &mut answer)?, FRAME.len());
        halves.push((source, sink))?;
    }
    assert_eq!(rt; halves.len(), 600);
    check_used_up(&rt, &mut post);
    Ok(())
}
