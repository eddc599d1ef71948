//! Sessions in memory: how a list is dealt, and the calls that are to fail.

use agent_bytes::{Failed, MemFiles, MemSink, MemSource, Source};
use agent_links::{MemPost, MemYard, Post, Yard, YardRefusal};
use std::alloc::{AllocError, Global};
use std::process::Abort;
use std::test::Fail;

fn add_session(yard: &mut MemYard, alloc: Global, bytes: &[u8]) -> Result<(), AllocError> {
    let source = MemSource::new(bytes.to_vec(alloc)?, Vec::new(alloc));
    let sink = MemSink::new(alloc, 4, Vec::new(alloc))?;
    yard.add(source, sink)
}

/// Three sessions, of which the first call of `listen` fails, and at each acceptor the second of `next`.
fn three_sessions(alloc: Global) -> Result<MemYard, AllocError> {
    let files = MemFiles::new(alloc, Vec::new(alloc));
    let mut yard = MemYard::new(alloc, files, vec![in alloc; 0]?, vec![in alloc; 1]?, 7);
    for bytes in [b"a", b"b", b"c"] {
        add_session(&mut yard, alloc, bytes)?;
    }
    Ok(yard)
}

/// How many bytes the next session has, and the first of them; or none where no session is left.
fn next_told(post: &mut MemPost) -> Result<Option<(usize, u8)>, Failed> {
    match post.next()? {
        Some((mut source, _sink)) => {
            let mut into = [0u8; 4];
            let count = source.read(&mut into)?;
            Ok(Some((count, into[0])))
        }
        None => Ok(None),
    }
}

#[test]
fn a_list_is_dealt_in_order_and_ends_in_empty_sessions(rt: HostRuntime) -> Result<(), Fail> {
    let alloc: Global = rt.alloc();
    let mut yard = three_sessions(alloc)?;
    assert!(rt;
        matches!(
            yard.listen(alloc, "anywhere", 5, 2),
            Err(YardRefusal::Failed)
        )
    );
    assert_eq!(rt; yard.faults(), 1);
    let mut posts = yard.listen(alloc, "anywhere", 5, 2)?;
    assert_eq!(rt; posts.len(), 2);
    let (Some(mut second), Some(mut first)) = (posts.pop(), posts.pop()) else {
        return Err(Fail::new("two acceptors"));
    };
    check_first(&rt, &mut first);
    check_second(&rt, &mut second);
    Ok(())
}

fn check_first(rt: &impl Abort, post: &mut MemPost) {
    assert_eq!(rt; next_told(post), Ok(Some((1, b'a'))));
    assert_eq!(rt; next_told(post), Err(Failed));
    assert_eq!(rt; post.faults(), 1);
    assert_eq!(rt; next_told(post), Ok(Some((1, b'b'))));
    assert_eq!(rt; next_told(post), Ok(Some((1, b'c'))));
    assert_eq!(rt; next_told(post), Ok(None));
    assert_eq!(rt; post.now(), 7);
}

fn check_second(rt: &impl Abort, post: &mut MemPost) {
    assert_eq!(rt; next_told(post), Ok(Some((0, 0))));
    assert_eq!(rt; next_told(post), Err(Failed));
    assert_eq!(rt; next_told(post), Ok(Some((0, 0))));
    assert_eq!(rt; next_told(post), Ok(None));
}
