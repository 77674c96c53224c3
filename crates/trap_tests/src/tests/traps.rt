//! Faulty parts, and a trap with two junctions.

use qc_base::{End, JunctionId, Name, NoMemory, PlaceId};
use samples::{are_named, segment, zone};
use std::alloc::Global;
use std::process::Abort;
use std::test::Fail;
use trap_model::{
    Channel, Counted, EndName, GivenLabels, JoinPart, Kind, Labels, Need, Trap, TrapFault,
    TrapParts,
};

// Parts of a trap, in short.
#[derive(Drop)]
struct Sketch {
    parts: TrapParts,
}

impl Sketch {
    fn new(alloc: Global) -> Sketch {
        Sketch {
            parts: TrapParts {
                zones: Vec::new(alloc),
                segments: Vec::new(alloc),
                junctions: Vec::new(alloc),
                joins: Vec::new(alloc),
            },
        }
    }

    fn zone(&mut self, alloc: Global, name: &[u8], capacity: u32) -> Result<(), Fail> {
        let able = [Need::One, Need::Read];
        self.parts.zones.push(zone(alloc, name, capacity, &able)?)?;
        Ok(())
    }

    fn segment(&mut self, alloc: Global, name: &[u8], slots: u32, load: u32) -> Result<(), Fail> {
        self.parts
            .segments
            .push(segment(alloc, name, slots, load)?)?;
        Ok(())
    }

    fn junction(&mut self, alloc: Global, name: &[u8]) -> Result<(), Fail> {
        self.parts.junctions.push(Name::from_bytes(alloc, name)?)?;
        Ok(())
    }

    // A join of two names, each perhaps with a dot and its end.
    fn join(&mut self, alloc: Global, first: &[u8], second: &[u8]) -> Result<(), Fail> {
        self.parts.joins.push(JoinPart {
            first: end_name(alloc, first)?,
            second: end_name(alloc, second)?,
        })?;
        Ok(())
    }
}

fn end_name(alloc: Global, text: &[u8]) -> Result<EndName, NoMemory> {
    let (name, end) = match text {
        [name @ .., b'.', b'a'] => (name, Some(End::A)),
        [name @ .., b'.', b'b'] => (name, Some(End::B)),
        _ => (text, None),
    };
    Ok(EndName {
        name: Name::from_bytes(alloc, name)?,
        end,
    })
}

fn build(rt: &impl Abort, alloc: Global, sketch: Sketch) -> Result<Trap, TrapFault> {
    let Sketch { parts } = sketch;
    assert!(rt; are_named(&parts));
    Trap::build(alloc, parts)
}

// So many zones, segments and junctions, which may share names.
fn many(alloc: Global, zones: u32, segments: u32, junctions: u32) -> Result<Sketch, Fail> {
    let mut sketch = Sketch::new(alloc);
    for _k in 0..zones {
        sketch.zone(alloc, b"z", 33)?;
    }
    for _k in 0..segments {
        sketch.segment(alloc, b"s", 0, 0)?;
    }
    for _k in 0..junctions {
        sketch.junction(alloc, b"J")?;
    }
    Ok(sketch)
}

// Segments of sixteen slots, `aa` to `aq`, which are one slot more than the most.
fn too_long(alloc: Global) -> Result<Sketch, Fail> {
    let mut sketch = Sketch::new(alloc);
    sketch.zone(alloc, b"A", 1)?;
    for letter in b"abcdefghijklmnopq" {
        sketch.segment(alloc, &[b'a', *letter], 16, 16)?;
    }
    sketch.join(alloc, b"A", b"x")?;
    Ok(sketch)
}

// Zones `A` and `B`, segments `s`, `t` and `u`, and junction `J`.
fn plain(alloc: Global) -> Result<Sketch, Fail> {
    let mut sketch = Sketch::new(alloc);
    sketch.zone(alloc, b"A", 1)?;
    sketch.zone(alloc, b"B", 32)?;
    sketch.segment(alloc, b"s", 1, 1)?;
    sketch.segment(alloc, b"t", 16, 16)?;
    sketch.segment(alloc, b"u", 1, 1)?;
    sketch.junction(alloc, b"J")?;
    Ok(sketch)
}

fn refuses(rt: &impl Abort, alloc: Global, sketch: Sketch, fault: TrapFault) {
    match build(rt, alloc, sketch) {
        Ok(_) => panic!(rt; "a trap"),
        Err(e) => assert!(rt; e == fault),
    }
}

#[test]
fn too_many_parts(rt: HostRuntime) -> Result<(), Fail> {
    let alloc = rt.alloc();
    refuses(&rt, alloc, many(alloc, 0, 257, 33)?, TrapFault::NoZone);
    for (zones, segments, junctions, what) in [
        (33, 257, 30, Counted::Zones),
        (1, 257, 33, Counted::Segments),
        (1, 256, 33, Counted::Junctions),
    ] {
        refuses(
            &rt,
            alloc,
            many(alloc, zones, segments, junctions)?,
            TrapFault::TooMany { what },
        );
    }
    refuses(
        &rt,
        alloc,
        too_long(alloc)?,
        TrapFault::TooMany {
            what: Counted::Slots,
        },
    );
    Ok(())
}

#[test]
fn faulty_parts(rt: HostRuntime) -> Result<(), Fail> {
    let alloc = rt.alloc();
    let name = Name::from_bytes(alloc, b"s")?;
    refuses(
        &rt,
        alloc,
        many(alloc, 1, 2, 1)?,
        TrapFault::Double { name },
    );

    let mut sketch = plain(alloc)?;
    sketch.junction(alloc, b"A")?;
    let name = Name::from_bytes(alloc, b"A")?;
    refuses(&rt, alloc, sketch, TrapFault::Double { name });

    let mut sketch = plain(alloc)?;
    sketch.zone(alloc, b"C", 33)?;
    sketch.segment(alloc, b"v", 0, 0)?;
    let zone = Name::from_bytes(alloc, b"C")?;
    refuses(&rt, alloc, sketch, TrapFault::Capacity { zone });

    let mut sketch = plain(alloc)?;
    sketch.segment(alloc, b"v", 17, 0)?;
    let segment = Name::from_bytes(alloc, b"v")?;
    refuses(&rt, alloc, sketch, TrapFault::Length { segment });

    let mut sketch = plain(alloc)?;
    sketch.segment(alloc, b"v", 1, 17)?;
    sketch.segment(alloc, b"w", 0, 1)?;
    let segment = Name::from_bytes(alloc, b"v")?;
    refuses(&rt, alloc, sketch, TrapFault::Load { segment });
    Ok(())
}

#[test]
fn faulty_joins(rt: HostRuntime) -> Result<(), Fail> {
    let alloc = rt.alloc();
    let unknown: [(&[u8], &[u8]); 6] = [
        (b"A.a", b"x.a"),
        (b"x", b"s.a"),
        (b"A", b"s.a"),
        (b"A.b", b"s"),
        (b"J.a", b"s.a"),
        (b"A.a", b"B"),
    ];
    for (first, second) in unknown {
        let mut sketch = plain(alloc)?;
        sketch.join(alloc, first, second)?;
        sketch.join(alloc, b"A.a", b"B.a")?;
        refuses(&rt, alloc, sketch, TrapFault::Unknown { row: 1 });
    }
    let pairs: [(&[u8], &[u8]); 4] = [
        (b"A.a", b"B.a"),
        (b"s.b", b"t.a"),
        (b"J", b"J"),
        (b"A.b", b"J"),
    ];
    for (first, second) in pairs {
        let mut sketch = plain(alloc)?;
        sketch.join(alloc, b"A.b", b"s.b")?;
        sketch.join(alloc, first, second)?;
        refuses(&rt, alloc, sketch, TrapFault::Pair { row: 2 });
    }
    let taken: [(&[u8], &[u8]); 4] = [
        (b"A.b", b"t.a"),
        (b"s.b", b"B.a"),
        (b"J", b"s.b"),
        (b"u.a", b"J"),
    ];
    for (first, second) in taken {
        let mut sketch = plain(alloc)?;
        sketch.join(alloc, b"A.b", b"s.b")?;
        sketch.join(alloc, b"J", b"u.a")?;
        sketch.join(alloc, first, second)?;
        sketch.join(alloc, b"A.a", b"x.a")?;
        refuses(&rt, alloc, sketch, TrapFault::EndTaken { row: 3 });
    }
    Ok(())
}

#[test]
fn faulty_arms(rt: HostRuntime) -> Result<(), Fail> {
    let alloc = rt.alloc();
    let arms: [(&[u8], &[u8]); 2] = [(b"s.a", b"s.b"), (b"t.b", b"t.a")];
    for (first, second) in arms {
        let mut sketch = plain(alloc)?;
        sketch.join(alloc, first, b"J")?;
        sketch.join(alloc, b"u.a", b"J")?;
        sketch.join(alloc, b"J", second)?;
        let junction = Name::from_bytes(alloc, b"J")?;
        refuses(&rt, alloc, sketch, TrapFault::Arms { junction });
    }
    let mut sketch = plain(alloc)?;
    sketch.join(alloc, b"s.a", b"J")?;
    let junction = Name::from_bytes(alloc, b"J")?;
    refuses(&rt, alloc, sketch, TrapFault::Arms { junction });

    let mut sketch = plain(alloc)?;
    sketch.segment(alloc, b"v", 1, 1)?;
    sketch.segment(alloc, b"w", 1, 1)?;
    for end in [b"s.a", b"t.a", b"u.a", b"v.a", b"w.a"] {
        sketch.join(alloc, end, b"J")?;
    }
    let junction = Name::from_bytes(alloc, b"J")?;
    refuses(&rt, alloc, sketch, TrapFault::Arms { junction });
    Ok(())
}

// Two zones, four segments of five slots in all, two junctions.
fn crossroads(rt: &impl Abort, alloc: Global) -> Result<Trap, Fail> {
    let mut sketch = Sketch::new(alloc);
    sketch.zone(alloc, b"A", 4)?;
    sketch.zone(alloc, b"B", 5)?;
    sketch.segment(alloc, b"s", 2, 1)?;
    sketch.segment(alloc, b"t", 1, 2)?;
    sketch.segment(alloc, b"u", 1, 3)?;
    sketch.segment(alloc, b"v_1", 1, 6)?;
    sketch.junction(alloc, b"J")?;
    sketch.junction(alloc, b"K")?;
    sketch.join(alloc, b"A.b", b"s.a")?;
    sketch.join(alloc, b"t.a", b"B.b")?;
    sketch.join(alloc, b"K", b"u.b")?;
    sketch.join(alloc, b"s.b", b"J")?;
    sketch.join(alloc, b"J", b"t.b")?;
    sketch.join(alloc, b"u.a", b"J")?;
    sketch.join(alloc, b"v_1.a", b"K")?;
    match build(rt, alloc, sketch) {
        Ok(trap) => Ok(trap),
        Err(_) => panic!(rt; "no trap"),
    }
}

fn channel(kind: Kind, from: u32, from_end: End, to: u32, to_end: End) -> Channel {
    Channel {
        kind,
        from: PlaceId(from),
        from_end,
        to: PlaceId(to),
        to_end,
        junction: None,
    }
}

fn cross(junction: u32, from: u32, from_end: End, to: u32, to_end: End) -> Channel {
    Channel {
        kind: Kind::Cross,
        from: PlaceId(from),
        from_end,
        to: PlaceId(to),
        to_end,
        junction: Some(JunctionId(junction)),
    }
}

#[test]
fn channels_of_two_junctions(rt: HostRuntime) -> Result<(), Fail> {
    let trap = crossroads(&rt, rt.alloc())?;
    let (a, b) = (End::A, End::B);
    let expected = [
        channel(Kind::Split, 0, b, 2, a),
        channel(Kind::Merge, 2, a, 0, b),
        channel(Kind::Split, 1, b, 4, a),
        channel(Kind::Merge, 4, a, 1, b),
        channel(Kind::Move, 2, b, 3, a),
        channel(Kind::Move, 3, a, 2, b),
        cross(0, 3, b, 4, b),
        cross(0, 3, b, 5, a),
        cross(0, 4, b, 3, b),
        cross(0, 4, b, 5, a),
        cross(0, 5, a, 3, b),
        cross(0, 5, a, 4, b),
        cross(1, 5, b, 6, a),
        cross(1, 6, a, 5, b),
    ];
    assert!(rt; trap.channels() == expected.as_slice());
    Ok(())
}

#[test]
fn numbers_of_channels(rt: HostRuntime) -> Result<(), Fail> {
    let trap = crossroads(&rt, rt.alloc())?;
    for (zone, end, split, merge) in [
        (0, End::A, None, None),
        (0, End::B, Some(0), Some(1)),
        (1, End::A, None, None),
        (1, End::B, Some(2), Some(3)),
        (2, End::A, None, None),
    ] {
        assert!(rt; trap.split_at(PlaceId(zone), end) == split);
        assert!(rt; trap.merge_at(PlaceId(zone), end) == merge);
    }
    for (from, to, number) in [
        (2, 3, Some(4)),
        (3, 2, Some(5)),
        (1, 2, None),
        (3, 4, None),
        (6, 7, None),
        (u32::MAX, 0, None),
    ] {
        assert!(rt; trap.move_of(PlaceId(from), PlaceId(to)) == number);
    }
    for (junction, from, to, number) in [
        (0, 3, 4, Some(6)),
        (0, 5, 4, Some(11)),
        (1, 5, 6, Some(12)),
        (1, 6, 5, Some(13)),
        (0, 5, 6, None),
        (0, 4, 4, None),
        (2, 5, 6, None),
    ] {
        let answer = trap.cross_of(JunctionId(junction), PlaceId(from), PlaceId(to));
        assert!(rt; answer == number);
    }
    Ok(())
}

#[test]
fn texts_of_places(rt: HostRuntime) -> Result<(), Fail> {
    let trap = crossroads(&rt, rt.alloc())?;
    let texts: [&[u8]; 7] = [b"A", b"B", b"s.0", b"s.1", b"t.0", b"u.0", b"v_1.0"];
    for (k, text) in texts.iter().enumerate() {
        let mut out = Vec::from_slice(rt.alloc(), b"at ")?;
        trap.print_place(PlaceId(k as u32), &mut out)?;
        assert!(rt; out.as_slice().strip_prefix(b"at ".as_slice()) == Some(*text));
        assert!(rt; trap.place_named(text) == Some(PlaceId(k as u32)));
    }
    let none: [&[u8]; 9] = [
        b"", b"s", b"J", b"s.2", b"s.01", b"s.", b".0", b"s.0.0", b"A.0",
    ];
    for text in none {
        assert!(rt; trap.place_named(text) == None);
    }
    assert!(rt; trap.junction_named(b"J") == Some(JunctionId(0)));
    assert!(rt; trap.junction_named(b"K") == Some(JunctionId(1)));
    assert!(rt; trap.junction_named(b"A") == None);
    Ok(())
}

#[test]
fn limits_and_abilities(rt: HostRuntime) -> Result<(), Fail> {
    let trap = crossroads(&rt, rt.alloc())?;
    assert!(rt; trap.places() == 7 && trap.zones().len() == 2 && trap.segments().len() == 4);
    assert!(rt; trap.junctions().len() == 2);
    let limits = [4, 5, 1, 1, 2, 3, 6];
    for k in 0..trap.places() {
        assert!(rt; trap.limit(PlaceId(k)) == limits[k as usize % 7]);
    }
    if trap.zones().len() > 1 {
        assert!(rt; trap.able(PlaceId(1), Need::One) && !trap.able(PlaceId(1), Need::Two));
        assert!(rt; trap.able(PlaceId(1), Need::Read));
    }
    Ok(())
}

#[test]
fn labels_in_order(rt: HostRuntime) -> Result<(), Fail> {
    let alloc = rt.alloc();
    let mut names = Vec::new(alloc);
    names.push(Name::from_bytes(alloc, b"q[1]")?)?;
    names.push(Name::from_bytes(alloc, b"q[0]")?)?;
    let mut zones = Vec::new(alloc);
    zones.push(Labels::from_vec(names))?;
    let given = GivenLabels::from_vec(zones);
    for labels in given.items() {
        for (label, text) in labels.items().iter().zip([b"q[1]", b"q[0]"]) {
            assert!(rt; label.bytes() == text.as_slice());
        }
        assert!(rt; labels.items().len() == 2);
    }
    assert!(rt; given.items().len() == 1);
    Ok(())
}
