//! Trap files that are read, and each refusal.

use qc_base::{Name, NoMemory};
use std::alloc::Global;
use std::process::Abort;
use std::test::Fail;
use trap_model::TrapFault;
use trap_read::{KeyAt, Section, TrapText, read};

const TWO_ZONES: &[u8] = b"[[zone]]\nname = \"A\"\ncapacity = 4\ncan = [\"one\", \"read\"]\n\
    [[zone]]\nname = \"B\"\ncapacity = 3\n[[segment]]\nname = \"s\"\nslots = 1\nload = 2\n\
    [[join]]\nends = [\"A.b\", \"s.a\"]\n[[join]]\nends = [\"B.a\", \"s.b\"]\n";

const INLINE: &[u8] =
    b"zone = [{ name = 'A', \"capacity\" = 3, can = [\"two\"] }, { name = \"B\", capacity = 0x4 }]\n\
    place.B = [\"q[1]\", \"q[0]\"]\n";

// A key, and where it is.
fn key(alloc: Global, section: Section, row: u32, key: &[u8]) -> Result<KeyAt, NoMemory> {
    let key = Name::from_bytes(alloc, key)?;
    Ok(KeyAt { section, row, key })
}

// The refusal of a text.
fn refusal(alloc: Global, text: &[u8]) -> Option<TrapText> {
    match read(alloc, text) {
        Ok(_) => None,
        Err(refusal) => Some(refusal),
    }
}

// Whether the text is refused for an unknown key.
fn is_extra(alloc: Global, text: &[u8], key: KeyAt) -> bool {
    refusal(alloc, text) == Some(TrapText::Extra { key })
}

// Whether the text is refused for a missing key.
fn is_missing(alloc: Global, text: &[u8], key: KeyAt) -> bool {
    refusal(alloc, text) == Some(TrapText::Missing { key })
}

// Whether the text is refused for the kind under a key.
fn is_kind(alloc: Global, text: &[u8], key: KeyAt) -> bool {
    refusal(alloc, text) == Some(TrapText::Kind { key })
}

// Whether the text is refused for the value under a key.
fn is_range(alloc: Global, text: &[u8], key: KeyAt) -> bool {
    refusal(alloc, text) == Some(TrapText::Range { key })
}

#[test]
fn reads_two_zones_joined_by_a_segment(rt: HostRuntime) -> Result<(), Fail> {
    let alloc = rt.alloc();
    let Ok((trap, given)) = read(alloc, TWO_ZONES) else {
        panic!(rt; "refused");
    };
    let [first, second] = trap.zones() else {
        panic!(rt; "not two zones");
    };
    assert_eq!(rt; first.name.bytes(), b"A".as_slice());
    assert!(rt; first.one && first.read && !first.two);
    assert!(rt; second.capacity == 3 && !second.one);
    assert_eq!(rt; trap.channels().len(), 4);
    assert!(rt; given.is_none());
    Ok(())
}

#[test]
fn reads_inline_tables_and_dotted_keys(rt: HostRuntime) -> Result<(), Fail> {
    let alloc = rt.alloc();
    let Ok((trap, given)) = read(alloc, INLINE) else {
        panic!(rt; "refused");
    };
    let Some(given) = given else {
        panic!(rt; "no table of places");
    };
    let [first, second] = given.items() else {
        panic!(rt; "not two zones");
    };
    let [label, _] = second.items() else {
        panic!(rt; "not two labels");
    };
    assert_eq!(rt; trap.zones().len(), 2);
    assert!(rt; first.items().is_empty());
    assert_eq!(rt; label.bytes(), b"q[1]".as_slice());
    Ok(())
}

#[test]
fn refuses_what_is_no_toml(rt: HostRuntime) -> Result<(), Fail> {
    let alloc = rt.alloc();
    assert_eq!(rt; refusal(alloc, b"[[zone]\n"), Some(TrapText::Toml));
    assert_eq!(rt; refusal(alloc, b"\xFF"), Some(TrapText::Toml));
    assert_eq!(rt;
        refusal(alloc, b"zone = []\nzone = []\n"),
        Some(TrapText::Toml)
    );
    Ok(())
}

#[test]
fn refuses_unknown_keys(rt: HostRuntime) -> Result<(), Fail> {
    let alloc = rt.alloc();
    let top = key(alloc, Section::Top, 0, b"Zone")?;
    assert!(rt; is_extra(alloc, b"zone = 1\nzones = 2\nZone = 3\n", top));
    let second = key(alloc, Section::Zone, 2, b"color")?;
    let text = b"[[zone]]\nname = \"A\"\ncapacity = 4\n[[zone]]\ncolor = 1\nname = 7\n";
    assert!(rt; is_extra(alloc, text, second));
    let junction = key(alloc, Section::Junction, 1, b"arms")?;
    assert!(rt; is_extra(alloc, b"junction = [{ name = \"J\", arms = 3 }]", junction));
    Ok(())
}

#[test]
fn refuses_missing_keys(rt: HostRuntime) -> Result<(), Fail> {
    let alloc = rt.alloc();
    let name = key(alloc, Section::Zone, 1, b"name")?;
    assert!(rt; is_missing(alloc, b"[[zone]]\ncapacity = true\n", name));
    let load = key(alloc, Section::Segment, 1, b"load")?;
    assert!(rt; is_missing(alloc, b"segment = [{ name = \"s\", slots = 1 }]", load));
    let ends = key(alloc, Section::Join, 1, b"ends")?;
    assert!(rt; is_missing(alloc, b"[[join]]\n", ends));
    Ok(())
}

#[test]
fn refuses_top_keys_of_other_kinds(rt: HostRuntime) -> Result<(), Fail> {
    let alloc = rt.alloc();
    let segment = key(alloc, Section::Top, 0, b"segment")?;
    assert!(rt;
        is_kind(
            alloc,
            b"join = 1\nzone = []\n[segment]\nname = \"s\"\n",
            segment
        )
    );
    let zone = key(alloc, Section::Top, 0, b"zone")?;
    assert!(rt; is_kind(alloc, b"zone = [{ name = 1 }, 2]\n", zone));
    let place = key(alloc, Section::Top, 0, b"place")?;
    assert!(rt; is_kind(alloc, b"[[place]]\nA = []\n", place));
    Ok(())
}

#[test]
fn refuses_values_of_other_kinds(rt: HostRuntime) -> Result<(), Fail> {
    let alloc = rt.alloc();
    let capacity = key(alloc, Section::Zone, 1, b"capacity")?;
    assert!(rt; is_kind(alloc, b"[[zone]]\nname = \"A\"\ncapacity = 4.0\n", capacity));
    let capacity = key(alloc, Section::Zone, 1, b"capacity")?;
    assert!(rt;
        is_kind(
            alloc,
            b"[[zone]]\nname = \"A\"\ncapacity = true\n",
            capacity
        )
    );
    let can = key(alloc, Section::Zone, 1, b"can")?;
    let text = b"[[zone]]\nname = \"A\"\ncapacity = 4\ncan = [\"three\", 1]\n";
    assert!(rt; is_kind(alloc, text, can));
    let ends = key(alloc, Section::Join, 2, b"ends")?;
    assert!(rt;
        is_kind(
            alloc,
            b"join = [{ ends = [\"A.a\", \"s.a\"] }, { ends = [1, 2, 3] }]",
            ends
        )
    );
    Ok(())
}

#[test]
fn refuses_values_out_of_range(rt: HostRuntime) -> Result<(), Fail> {
    let alloc = rt.alloc();
    let name = key(alloc, Section::Junction, 1, b"name")?;
    assert!(rt; is_range(alloc, b"[[junction]]\nname = \"9\"\n", name));
    let capacity = key(alloc, Section::Zone, 1, b"capacity")?;
    assert!(rt; is_range(alloc, b"[[zone]]\nname = \"A\"\ncapacity = -1\n", capacity));
    let slots = key(alloc, Section::Segment, 1, b"slots")?;
    assert!(rt;
        is_range(
            alloc,
            b"[[segment]]\nname = \"s\"\nslots = 65536\nload = 1.0\n",
            slots
        )
    );
    let can = key(alloc, Section::Zone, 1, b"can")?;
    let text = b"[[zone]]\nname = \"A\"\ncapacity = 4\ncan = [\"one\", \"one\"]\n";
    assert!(rt; is_range(alloc, text, can));
    Ok(())
}

#[test]
fn refuses_ends_out_of_range(rt: HostRuntime) -> Result<(), Fail> {
    let alloc = rt.alloc();
    let ends = key(alloc, Section::Join, 1, b"ends")?;
    assert!(rt; is_range(alloc, b"join = [{ ends = [\"A.a\"] }]", ends));
    let ends = key(alloc, Section::Join, 1, b"ends")?;
    assert!(rt; is_range(alloc, b"join = [{ ends = [\"A.c\", \"J\"] }]", ends));
    Ok(())
}

#[test]
fn refuses_keys_of_place(rt: HostRuntime) -> Result<(), Fail> {
    let alloc = rt.alloc();
    let zone = b"zone = [{ name = \"B\", capacity = 4 }]\n[place]\nB = 1\nC = 2\n";
    let kind = key(alloc, Section::Place, 0, b"B")?;
    assert!(rt; is_kind(alloc, zone, kind));
    let zone = b"zone = [{ name = \"B\", capacity = 4 }]\n[place]\nB = 1\nA = 2\n";
    let range = key(alloc, Section::Place, 0, b"A")?;
    assert!(rt; is_range(alloc, zone, range));
    Ok(())
}

#[test]
fn refuses_parts_that_make_no_trap(rt: HostRuntime) -> Result<(), Fail> {
    let alloc = rt.alloc();
    assert_eq!(rt;
        refusal(alloc, b""),
        Some(TrapText::Trap(TrapFault::NoZone))
    );
    let zone = Name::from_bytes(alloc, b"A")?;
    let fault = TrapText::Trap(TrapFault::Capacity { zone });
    assert_eq!(rt;
        refusal(alloc, b"[[zone]]\nname = \"A\"\ncapacity = 33\n"),
        Some(fault)
    );
    Ok(())
}
