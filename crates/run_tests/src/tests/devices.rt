//! Reads and writes over memory.

use qc_base::{Failed, MemShelf, MemSink, ReadFault, Shelf, read_whole, write_all};
use std::test::Fail;

#[test]
fn a_file_longer_than_a_piece_is_read_whole(rt: HostRuntime) -> Result<(), Fail> {
    let alloc = rt.alloc();
    let content = vec![in alloc; 7u8; 100_000]?;
    let mut shelf = MemShelf::new(alloc, Vec::new(alloc));
    shelf.add("a", &content)?;
    let read = read_whole(alloc, &mut shelf, "a", 100_000)?;
    assert!(rt; read.as_slice() == content.as_slice());
    assert!(rt; read_whole(alloc, &mut shelf, "a", 99_999).err() == Some(ReadFault::Long));
    assert!(rt; read_whole(alloc, &mut shelf, "b", 100_000).err() == Some(ReadFault::Failed));
    Ok(())
}

#[test]
fn a_file_added_again_is_replaced(rt: HostRuntime) -> Result<(), Fail> {
    let alloc = rt.alloc();
    let mut shelf = MemShelf::new(alloc, Vec::new(alloc));
    shelf.add("a", b"first")?;
    shelf.add("b", b"other")?;
    shelf.add("a", b"second")?;
    assert!(rt; shelf.content("a") == Some(b"second".as_slice()));
    assert!(rt; shelf.content("b") == Some(b"other".as_slice()));
    assert!(rt; shelf.content("c").is_none());
    Ok(())
}

#[test]
fn pieces_are_put_one_after_another(rt: HostRuntime) -> Result<(), Fail> {
    let alloc = rt.alloc();
    let mut shelf = MemShelf::new(alloc, vec![in alloc; 2]?);
    shelf.hold("a", 5)?;
    assert!(rt; shelf.content("a").is_none());
    assert!(rt; shelf.put("a", 0, b"abc") == Ok(()));
    assert!(rt; shelf.put("a", 3, b"de") == Ok(()));
    assert!(rt; shelf.put("a", 0, b"x") == Err(Failed));
    assert!(rt; shelf.content("a") == Some(b"abcde".as_slice()));
    assert!(rt; shelf.put("a", 0, b"x") == Ok(()));
    assert!(rt; shelf.content("a") == Some(b"x".as_slice()));
    Ok(())
}

#[test]
fn a_put_past_the_room_fails(rt: HostRuntime) -> Result<(), Fail> {
    let alloc = rt.alloc();
    let mut shelf = MemShelf::new(alloc, Vec::new(alloc));
    shelf.add("a", b"abc")?;
    shelf.hold("a", 2)?;
    assert!(rt; shelf.put("a", 3, b"d") == Err(Failed));
    assert!(rt; shelf.put("b", 0, b"") == Err(Failed));
    assert!(rt; shelf.put("a", 0, b"xyz") == Ok(()));
    assert!(rt; shelf.content("a") == Some(b"xyz".as_slice()));
    Ok(())
}

#[test]
fn a_read_that_fails_is_not_tried_again(rt: HostRuntime) -> Result<(), Fail> {
    let alloc = rt.alloc();
    let mut shelf = MemShelf::new(alloc, vec![in alloc; 1]?);
    shelf.add("a", b"abc")?;
    let read = read_whole(alloc, &mut shelf, "a", 3);
    assert!(rt; read.err() == Some(ReadFault::Failed));
    let again = read_whole(alloc, &mut shelf, "a", 3)?;
    assert!(rt; again.as_slice() == b"abc".as_slice());
    Ok(())
}

#[test]
fn bytes_are_handed_over_piece_by_piece(rt: HostRuntime) -> Result<(), Fail> {
    let alloc = rt.alloc();
    let mut sink = MemSink::new(alloc, 3, 8, Vec::new(alloc))?;
    assert!(rt; write_all(&mut sink, b"12345678") == Ok(()));
    assert!(rt; write_all(&mut sink, b"") == Ok(()));
    assert!(rt; write_all(&mut sink, b"9") == Err(Failed));
    assert!(rt; sink.bytes() == b"12345678".as_slice());
    Ok(())
}
