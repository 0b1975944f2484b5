use es_outside::{Host, HostAnswer, Prim, Reply, Sink, SinkFailed, write_all};
use std::alloc::{AllocError, Global};
use std::test::Fail;
use sure_outside::{SlowSink, SureHost, SureSink};

fn room(alloc: Global) -> Result<Vec<u8>, AllocError> {
    Vec::from_slice(alloc, b"......")
}

/// What a host answers, as a text.
fn answer_text(alloc: Global, host: &mut SureHost) -> &'static str {
    match host.answer(alloc, &[]) {
        HostAnswer::Give(Prim::Null) => "gives null",
        HostAnswer::Throw(Prim::Null) => "throws null",
        HostAnswer::Give(Prim::Undefined) => "gives undefined",
        _ => "another answer",
    }
}

#[test]
fn a_sure_host_replies_in_order(rt: HostRuntime) -> Result<(), Fail> {
    let alloc = rt.alloc();
    let mut replies = Vec::new(alloc);
    replies.push(Reply::Throw(Prim::Null))?;
    replies.push(Reply::Give(Prim::Null))?;
    let mut host = SureHost::new(alloc, replies);
    for want in [
        "throws null",
        "gives null",
        "gives undefined",
        "gives undefined",
    ] {
        assert_eq!(rt; answer_text(alloc, &mut host), want);
    }
    let heard = host.heard().ok_or("a sure host tells what it heard")?;
    assert_eq!(rt; heard.len(), 4);
    Ok(())
}

#[test]
fn a_sure_sink_tells_while_all_fits(rt: HostRuntime) -> Result<(), Fail> {
    let mut sink = SureSink::new(rt.alloc(), room(rt.alloc())?);
    assert_eq!(rt; write_all(&mut sink, b"abcdef"), Ok(()));
    assert_eq!(rt; sink.bytes(), Some(b"abcdef".as_slice()));
    assert_eq!(rt; sink.write(b"gh"), Ok(2));
    assert_eq!(rt; sink.bytes(), None);
    Ok(())
}

#[test]
fn a_slow_sink_takes_a_few_bytes(rt: HostRuntime) -> Result<(), Fail> {
    let alloc = rt.alloc();
    let mut sink = SlowSink::new(alloc, 2, room(alloc)?, Vec::from_slice(alloc, &[2])?);
    assert_eq!(rt; sink.write(b"abc"), Ok(2));
    assert_eq!(rt; sink.write(b"c"), Ok(1));
    assert_eq!(rt; sink.write(b"d"), Err(SinkFailed), "call 2 is listed");
    assert_eq!(rt; write_all(&mut sink, b"def"), Ok(()));
    assert_eq!(rt;
        write_all(&mut sink, b"g"),
        Err(SinkFailed),
        "the room is full"
    );
    assert_eq!(rt; sink.bytes(), b"abcdef".as_slice());
    Ok(())
}
