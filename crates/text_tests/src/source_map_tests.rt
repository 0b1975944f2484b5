use es_text::Place;
use source_map::{Map, MapFault, Target, Text, map_of_script, map_text, read_map, write_map};
use sqlite_items::Items;
use std::alloc::{AllocError, Global};
use std::test::Fail;

const EMPTY: &str = "{\"version\":3,\"sources\":[],\"names\":[],\"mappings\":\"\"}";

/// The text of a map with one source, one name and these characters.
fn text_with(alloc: Global, mappings: &str) -> Result<String, AllocError> {
    let mut text = String::from_str(
        alloc,
        "{\"version\":3,\"sources\":[\"a.js\"],\"names\":[\"n\"],\"mappings\":\"",
    )?;
    text.push_str(mappings)?;
    text.push_str("\"}")?;
    Ok(text)
}

fn fault_with(alloc: Global, mappings: &str) -> Result<Option<MapFault>, AllocError> {
    let text = text_with(alloc, mappings)?;
    Ok(read_map(alloc, text.as_bytes()).err())
}

/// The target at a place of the script, as its line, its column and whether it has a name.
fn target(map: Option<&Target>) -> Option<(u64, u64, bool)> {
    let target = map?;
    Some((
        target.place.line,
        target.place.column,
        target.name.is_some(),
    ))
}

#[test]
fn the_empty_map(rt: HostRuntime) -> Result<(), Fail> {
    let map = Map {
        sources: Items::new(rt.alloc()),
        names: Items::new(rt.alloc()),
        segments: Items::new(rt.alloc()),
    };
    let text = write_map(rt.alloc(), &map)?;
    assert_eq!(rt; text.as_slice(), EMPTY.as_bytes());
    assert_eq!(rt; text.len(), 51);
    let back = read_map(rt.alloc(), &text)?;
    assert_eq!(rt;
        (back.sources.len(), back.names.len(), back.segments.len()),
        (0, 0, 0)
    );
    Ok(())
}

// The columns 0, 1, 0, 16, 0, 123, 634 are reached by the numbers 0, 1, -1, 16, -16, 123, 511.
#[test]
fn numbers_as_the_format_has_them(rt: HostRuntime) -> Result<(), Fail> {
    let text = text_with(rt.alloc(), "AAAA;AAAC;AAAD;AAAgB;AAAhB;AAA2H;AAA+f")?;
    let map = read_map(rt.alloc(), text.as_bytes())?;
    for (line, column) in [(0, 0), (1, 1), (2, 0), (3, 16), (4, 0), (5, 123), (6, 634)] {
        let found = target(map.find(Place { line, column: 0 }));
        assert_eq!(rt; found, Some((0, column, false)));
    }
    assert_eq!(rt; write_map(rt.alloc(), &map)?.as_slice(), text.as_bytes());
    Ok(())
}

#[test]
fn segments_of_one_four_and_five_fields(rt: HostRuntime) -> Result<(), Fail> {
    let text = text_with(rt.alloc(), "A,CAAAA;;EACE,C")?;
    let map = read_map(rt.alloc(), text.as_bytes())?;
    assert_eq!(rt; map.segments.len(), 4);
    assert_eq!(rt; target(map.find(Place { line: 0, column: 0 })), None);
    assert_eq!(rt;
        target(map.find(Place { line: 0, column: 1 })),
        Some((0, 0, true))
    );
    assert_eq!(rt;
        target(map.find(Place { line: 2, column: 2 })),
        Some((1, 2, false))
    );
    assert_eq!(rt; target(map.find(Place { line: 2, column: 3 })), None);
    assert_eq!(rt; target(map.find(Place { line: 1, column: 0 })), None);
    assert_eq!(rt; write_map(rt.alloc(), &map)?.as_slice(), text.as_bytes());
    Ok(())
}

#[test]
fn the_first_fault(rt: HostRuntime) -> Result<(), Fail> {
    let cases = [
        ("A!", MapFault::BadDigit { at: 1 }),
        ("AA", MapFault::BadFields { at: 0 }),
        ("AAAA,AAAA", MapFault::BadIndex { at: 5 }),
        // A field that its segment cuts off, one of eight digits, and one beyond 2147483647.
        ("AAAg,A", MapFault::BadDigit { at: 3 }),
        ("gggggggA", MapFault::BadDigit { at: 0 }),
        ("AAAggggggE", MapFault::BadDigit { at: 3 }),
        // An empty segment beside another, at its place.
        (",A", MapFault::BadFields { at: 0 }),
        ("A,", MapFault::BadFields { at: 2 }),
        ("AAAAAA", MapFault::BadFields { at: 0 }),
        ("AAA", MapFault::BadFields { at: 0 }),
        // A sum below 0, and indices past the lists.
        ("AAAD", MapFault::BadIndex { at: 3 }),
        ("ACAA", MapFault::BadIndex { at: 1 }),
        ("AAAAC", MapFault::BadIndex { at: 4 }),
        // An index before a digit's fault, and a count before an index.
        ("AC!", MapFault::BadIndex { at: 1 }),
        ("AC", MapFault::BadFields { at: 0 }),
        ("D!", MapFault::BadIndex { at: 0 }),
        ("DA", MapFault::BadFields { at: 0 }),
        ("AAAA,AA!A", MapFault::BadIndex { at: 5 }),
    ];
    for (mappings, want) in cases {
        assert_eq!(rt; fault_with(rt.alloc(), mappings)?, Some(want), "{mappings}");
    }
    let text = format!(in rt.alloc(); "{} {}", MapFault::NoMap, MapFault::BadDigit { at: 1 })?;
    assert_eq!(rt; text.as_str(), "NoMap BadDigit at 1");
    // Lines without segments are no fault, nor are seven digits that spell 0.
    assert_eq!(rt; fault_with(rt.alloc(), ";;;A;;ggggggA")?, None);
    Ok(())
}

#[test]
fn faults_of_the_document(rt: HostRuntime) -> Result<(), Fail> {
    let cases = [
        ("{}", MapFault::BadJson),
        ("[]", MapFault::BadJson),
        (
            "{\"version\":3,\"sources\":[1],\"names\":[],\"mappings\":\"\"}",
            MapFault::BadJson,
        ),
        (
            "{\"version\":2,\"sources\":[],\"names\":[],\"mappings\":\"\"}",
            MapFault::BadVersion,
        ),
        (
            "{\"version\":3.0,\"sources\":[],\"names\":[],\"mappings\":\"\"}",
            MapFault::BadVersion,
        ),
        (
            "{\"version\":3e0,\"sources\":[],\"names\":[],\"mappings\":\"\"}",
            MapFault::BadVersion,
        ),
        (
            "{\"version\":\"3\",\"sources\":[],\"names\":[],\"mappings\":\"\"}",
            MapFault::BadVersion,
        ),
        (
            "{\"sources\":[],\"names\":[],\"mappings\":\"\"}",
            MapFault::BadVersion,
        ),
        (
            "{\"version\":2,\"sources\":[],\"names\":[]}",
            MapFault::BadJson,
        ),
        (
            "{\"version\":3,\"sources\":[],\"names\":[],\"mappings\":\"AAAA\"}",
            MapFault::BadIndex { at: 1 },
        ),
    ];
    for (text, want) in cases {
        assert_eq!(rt;
            read_map(rt.alloc(), text.as_bytes()).err(),
            Some(want),
            "{text}"
        );
    }
    let more =
        "{\"file\":\"x\",\"mappings\":\"A\",\"names\":[],\"sources\":[],\"sourceRoot\":\"\",\"version\":3}";
    assert_eq!(rt; read_map(rt.alloc(), more.as_bytes())?.segments.len(), 1);
    Ok(())
}

#[test]
fn texts_are_quoted(rt: HostRuntime) -> Result<(), Fail> {
    let mut sources = Items::new(rt.alloc());
    sources.push(Text::of(rt.alloc(), "a \"b\"\n\\\u{e9}.js")?)?;
    let map = Map {
        sources,
        names: Items::new(rt.alloc()),
        segments: Items::new(rt.alloc()),
    };
    let text = write_map(rt.alloc(), &map)?;
    let want =
        "{\"version\":3,\"sources\":[\"a \\\"b\\\"\\n\\\\\u{e9}.js\"],\"names\":[],\"mappings\":\"\"}";
    assert_eq!(rt; text.as_slice(), want.as_bytes());
    Ok(())
}

#[test]
fn the_map_of_a_script(rt: HostRuntime) -> Result<(), Fail> {
    // The line holds `{"version":3,"sources":[],"names":[],"mappings":""}`, as `base64` of coreutils encodes it.
    let line =
        "1;\n//# sourceMappingURL=data:application/json;base64,eyJ2ZXJzaW9uIjozLCJzb3VyY2VzIjpbXSwibmFtZXMiOltdLCJtYXBwaW5ncyI6IiJ9\n\n";
    assert_eq!(rt;
        map_text(rt.alloc(), line.as_bytes())?.as_slice(),
        EMPTY.as_bytes()
    );
    assert_eq!(rt;
        map_of_script(rt.alloc(), line.as_bytes())?.segments.len(),
        0
    );
    let cases = [
        ("1;", MapFault::NoMap),
        ("", MapFault::NoMap),
        ("\n\n", MapFault::NoMap),
        (
            "//# sourceMappingURL=data:application/json;base64,\n1;",
            MapFault::NoMap,
        ),
        (
            "//# sourceMappingURL=data:application/json;base64,e",
            MapFault::BadBase64,
        ),
        (
            "//# sourceMappingURL=data:application/json;base64,e30",
            MapFault::BadBase64,
        ),
        (
            "//# sourceMappingURL=data:application/json;base64,e31=",
            MapFault::BadBase64,
        ),
        (
            "//# sourceMappingURL=data:application/json;base64,e30=",
            MapFault::BadJson,
        ),
        (
            "//# sourceMappingURL=data:application/json;base64,",
            MapFault::BadJson,
        ),
    ];
    for (script, want) in cases {
        assert_eq!(rt;
            map_of_script(rt.alloc(), script.as_bytes()).err(),
            Some(want),
            "{script}"
        );
    }
    Ok(())
}

#[test]
fn many_segments_there_and_back(rt: HostRuntime) -> Result<(), Fail> {
    let mut mappings = String::from_str(rt.alloc(), "AAAA")?;
    for _ in 0..10_000 {
        mappings.push_str(",CAAC,gBAAD,CAAA,EAAE,CAAF,wHAAC,CAAD,CAAA,C;AACA")?;
    }
    let text = text_with(rt.alloc(), mappings.as_str())?;
    let map = read_map(rt.alloc(), text.as_bytes())?;
    assert_eq!(rt; map.segments.len(), 100_001);
    assert_eq!(rt; write_map(rt.alloc(), &map)?.as_slice(), text.as_bytes());
    assert_eq!(rt;
        target(map.find(Place {
            line: 9_999,
            column: 1
        })),
        Some((9_999, 1, false))
    );
    Ok(())
}
