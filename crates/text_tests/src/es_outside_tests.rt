use es_outside::{
    FaultCount, FileAnswer, Files, Host, HostAnswer, HostNames, Hosts, HostsRefused, HostsRefused2,
    ListHost, MemoryFiles, MemorySink, Prim, Prims, Sink, SinkFailed, Units, write_all,
};
use std::alloc::{AllocError, Global};
use std::test::Fail;

fn bytes(alloc: Global, text: &str) -> Result<Vec<u8>, AllocError> {
    Vec::from_slice(alloc, text.as_bytes())
}

/// Files `a` and `b`, of which `a` stands twice.
fn two_files(alloc: Global, failing: &[u32]) -> Result<MemoryFiles, Fail> {
    let mut list = Vec::new(alloc);
    list.push((String::from_str(alloc, "a")?, bytes(alloc, "old")?))?;
    list.push((String::from_str(alloc, "b")?, bytes(alloc, "")?))?;
    list.push((String::from_str(alloc, "a")?, bytes(alloc, "newer")?))?;
    Ok(MemoryFiles::new(alloc, list, Vec::from_slice(alloc, failing)?)?)
}

/// What a read answers, as a text.
fn read_text<F: Files>(
    alloc: Global,
    files: &mut F,
    path: &str,
    limit: u32,
) -> Result<String, AllocError> {
    match files.read(alloc, path, limit) {
        FileAnswer::Found(read) => {
            let mut text = String::from_str(alloc, "found ")?;
            for byte in read {
                text.push(byte as char)?;
            }
            Ok(text)
        }
        FileAnswer::Missing => String::from_str(alloc, "missing"),
        FileAnswer::Failed => String::from_str(alloc, "failed"),
        FileAnswer::OutOfMemory => String::from_str(alloc, "out of memory"),
    }
}

#[test]
fn files_answer_by_path_and_limit(rt: HostRuntime) -> Result<(), Fail> {
    let alloc = rt.alloc();
    let mut files = two_files(alloc, &[])?;
    for (path, limit, want) in [
        ("a", 5, "found newer"),
        ("a", 4, "found newer"),
        ("a", 3, "found newe"),
        ("a", 0, "found n"),
        ("b", 0, "found "),
        ("c", 9, "missing"),
    ] {
        let answer = read_text(alloc, &mut files, path, limit)?;
        assert_eq!(rt; answer.as_str(), want);
    }
    Ok(())
}

#[test]
fn listed_reads_fail(rt: HostRuntime) -> Result<(), Fail> {
    let alloc = rt.alloc();
    let mut files = two_files(alloc, &[1, 2])?;
    for want in ["found newer", "failed", "failed", "found newer"] {
        let answer = read_text(alloc, &mut files, "a", 9)?;
        assert_eq!(rt; answer.as_str(), want);
    }
    Ok(())
}

#[test]
fn a_room_is_filled_from_the_front(rt: HostRuntime) -> Result<(), Fail> {
    let alloc = rt.alloc();
    let mut sink = MemorySink::new(
        alloc,
        bytes(alloc, "......")?,
        Vec::from_slice(alloc, &[1])?,
    );
    assert_eq!(rt; sink.write(b"ab"), Ok(2));
    assert_eq!(rt; sink.write(b"c"), Err(SinkFailed), "call 1 is listed");
    assert_eq!(rt;
        sink.write(b"cdefg"),
        Err(SinkFailed),
        "a room that is too small"
    );
    assert_eq!(rt; sink.bytes(), b"ab".as_slice());
    assert_eq!(rt; write_all(&mut sink, b""), Ok(()), "nothing to write");
    assert_eq!(rt; write_all(&mut sink, b"cdef"), Ok(()));
    assert_eq!(rt; sink.bytes(), b"abcdef".as_slice());
    assert_eq!(rt; write_all(&mut sink, b"g"), Err(SinkFailed));
    Ok(())
}

/// A sink that takes one byte a call, and fails after so many.
#[derive(Drop)]
struct Dropper {
    taken: Vec<u8>,
    left: u32,
    faults: FaultCount,
}

impl Sink for Dropper {
    ghost use Rattle.std.specs.Prelude.{None};

    ghost bytes = { λ _. None };

    ghost faults = { λ sink. sink.faults };

    fn write(&mut self, piece: &[u8]) -> Result<usize, SinkFailed> {
        if self.left == 0 || self.taken.push(piece[0]).is_err() {
            self.faults.raise();
            return Err(SinkFailed);
        }
        self.left -= 1;
        Ok(1)
    }
}

#[test]
fn a_front_is_written_up_to_a_fault(rt: HostRuntime) -> Result<(), Fail> {
    let alloc = rt.alloc();
    let mut sink = Dropper {
        taken: Vec::new(alloc),
        left: 3,
        faults: FaultCount::new(),
    };
    assert_eq!(rt; write_all(&mut sink, b"ab"), Ok(()));
    assert_eq!(rt; write_all(&mut sink, b"cde"), Err(SinkFailed));
    assert_eq!(rt; sink.taken.as_slice(), b"abc".as_slice());
    Ok(())
}

/// What a host answers, as a text.
fn answer_text<H: Host>(alloc: Global, host: &mut H, args: &[Prim]) -> Result<String, AllocError> {
    match host.answer(alloc, args) {
        HostAnswer::Give(Prim::Undefined) => String::from_str(alloc, "undefined"),
        HostAnswer::Give(Prim::Number(number)) => format!(in alloc; "{number}"),
        HostAnswer::Give(_) => String::from_str(alloc, "another value"),
        HostAnswer::Throw(_) => String::from_str(alloc, "throw"),
        HostAnswer::Failed => String::from_str(alloc, "failed"),
        HostAnswer::OutOfMemory => String::from_str(alloc, "out of memory"),
    }
}

#[test]
fn a_host_answers_in_order(rt: HostRuntime) -> Result<(), Fail> {
    let alloc = rt.alloc();
    let mut answers = Vec::new(alloc);
    answers.push(HostAnswer::Give(Prim::Number(7)))?;
    answers.push(HostAnswer::Failed)?;
    answers.push(HostAnswer::OutOfMemory)?;
    answers.push(HostAnswer::Throw(Prim::Text(Units::of(alloc, "e")?)))?;
    let mut host = ListHost::new(alloc, answers);
    let mut args = Vec::new(alloc);
    args.push(Prim::Bool(true))?;
    let args = Prims::of(args);
    for want in [
        "7",
        "failed",
        "out of memory",
        "throw",
        "undefined",
        "undefined",
    ] {
        let answer = answer_text(alloc, &mut host, args.list())?;
        assert_eq!(rt; answer.as_str(), want);
    }
    let heard = host.heard().ok_or("a list host tells what it heard")?;
    assert_eq!(rt; heard.len(), 5, "the call without memory isn't heard");
    assert!(rt; matches!(heard[4].list(), [Prim::Bool(true)]));
    Ok(())
}

#[test]
fn units_of_a_text(rt: HostRuntime) -> Result<(), Fail> {
    let units = Units::of(rt.alloc(), "a\u{e9}\u{1f600}")?;
    assert_eq!(rt; units.units(), [0x61, 0xe9, 0xd83d, 0xde00].as_slice());
    Ok(())
}

/// Hosts with these names, which give nothing.
fn host_list(alloc: Global, names: &[&str]) -> Result<Vec<(String, Box<dyn Host>)>, AllocError> {
    let mut list: Vec<(String, Box<dyn Host>)> = Vec::new(alloc);
    for name in names {
        let host: Box<dyn Host> = Box::new(alloc, ListHost::new(alloc, Vec::new(alloc)))?;
        list.push((String::from_str(alloc, name)?, host))?;
    }
    Ok(list)
}

fn name_list(alloc: Global, names: &[&str]) -> Result<Vec<String>, AllocError> {
    let mut list = Vec::new(alloc);
    for name in names {
        list.push(String::from_str(alloc, name)?)?;
    }
    Ok(list)
}

#[test]
fn hosts_by_name(rt: HostRuntime) -> Result<(), Fail> {
    let alloc = rt.alloc();
    let hosts = Hosts::new(alloc, host_list(alloc, &["print", "$", "_9"])?)
        .ok()
        .ok_or("no name is refused")?;
    assert_eq!(rt; hosts.len(), 3);
    assert_eq!(rt; hosts.name(1), Some("$"));
    assert_eq!(rt; hosts.name(3), None);
    assert_eq!(rt; hosts.position("_9"), Some(2));
    assert_eq!(rt; hosts.position("_"), None);
    let list = hosts.into_list();
    assert_eq!(rt; list.len(), 3);
    Ok(())
}

#[test]
fn names_without_hosts(rt: HostRuntime) -> Result<(), Fail> {
    let alloc = rt.alloc();
    let names = HostNames::of(name_list(alloc, &["print", "$", "_9"])?)
        .ok()
        .ok_or("no name is refused")?;
    assert_eq!(rt; names.len(), 3);
    assert_eq!(rt; names.name(1), Some("$"));
    assert_eq!(rt; names.name(3), None);
    assert_eq!(rt; names.position("_9"), Some(2));
    assert_eq!(rt; names.position("_"), None);
    Ok(())
}

#[test]
fn names_of_hosts(rt: HostRuntime) -> Result<(), Fail> {
    let alloc = rt.alloc();
    let hosts = Hosts::new(alloc, host_list(alloc, &["print", "$"])?)
        .ok()
        .ok_or("no name is refused")?;
    let names = hosts.names(alloc)?;
    assert_eq!(rt; names.len(), 2);
    assert_eq!(rt; names.name(0), Some("print"));
    assert_eq!(rt; names.position("$"), Some(1));
    Ok(())
}

/// Lists of names with the number and the index of the first that can't stand.
const REFUSALS: [([&str; 3], u8, usize); 11] = [
    (["a", "a", "if"], HostsRefused::DUPLICATE_HOST, 1),
    (["a", "if", "if"], HostsRefused::BAD_HOST_NAME, 1),
    (["a", "b", "a"], HostsRefused::DUPLICATE_HOST, 2),
    (["", "a", "a"], HostsRefused::BAD_HOST_NAME, 0),
    (["a", "1a", "a"], HostsRefused::BAD_HOST_NAME, 1),
    (["a", "\u{e9}", "a"], HostsRefused::BAD_HOST_NAME, 1),
    (["await", "a", "b"], HostsRefused::BAD_HOST_NAME, 0),
    (["arguments", "a", "b"], HostsRefused::BAD_HOST_NAME, 0),
    (["a", "Symbol", "b"], HostsRefused::BAD_HOST_NAME, 1),
    (["a", "b", "Object"], HostsRefused::BAD_HOST_NAME, 2),
    (["a", "b", "JSON"], HostsRefused::BAD_HOST_NAME, 2),
];

#[test]
fn refused_hosts(rt: HostRuntime) -> Result<(), Fail> {
    let alloc = rt.alloc();
    for (names, number, at) in REFUSALS {
        let refused = Hosts::new(alloc, host_list(alloc, &names)?)
            .err()
            .ok_or("a name is refused")?;
        assert_eq!(rt; (refused.number, refused.at), (number, at));
        assert_eq!(rt; refused.list.len(), 3);
    }
    Ok(())
}

#[test]
fn refused_names(rt: HostRuntime) -> Result<(), Fail> {
    let alloc = rt.alloc();
    for (names, number, at) in REFUSALS {
        let refused = HostNames::of(name_list(alloc, &names)?)
            .err()
            .ok_or("a name is refused")?;
        assert_eq!(rt; refused, HostsRefused2 { number, at });
    }
    Ok(())
}
