//! Lists of words, and links that move between the lists of literals.

ghost use Rattle.std.specs.Prelude.{◌≡◌, ◌≢◌, []};
ghost use Rattle.watch_lists.specs.Watched.{IsAdded, list_of};

use sat_base::Lit;
use std::test::Fail;
use watch_lists::{Watches, Words};

#[test]
fn a_word_is_replaced(rt: HostRuntime) -> Result<(), Fail> {
    let mut words = Words::new(rt.alloc());
    words.push(7)?;
    words.push(9)?;
    words.set(0, 8);
    assert!(rt; words.len() == 2);
    assert!(rt; words.get(0) == 8);
    assert!(rt; words.get(1) == 9);
    Ok(())
}

#[test]
fn words_stay_while_the_memory_grows(rt: HostRuntime) -> Result<(), Fail> {
    let mut words = Words::new(rt.alloc());
    for word in 0..1000 {
        words.push(word)?;
    }
    for _ in 0..1000 {
        words.push(u32::MAX)?;
    }
    let len = words.len();
    let mut sum = 0u64;
    for k in 0..len {
        sum = sum.wrapping_add(u64::from(words.get(k)));
    }
    assert!(rt; len == 2000);
    assert!(rt; sum == 499_500 + 1000 * 4_294_967_295);
    Ok(())
}

#[test]
fn a_link_moves_to_another_list(rt: HostRuntime) -> Result<(), Fail> {
    let mut watches = Watches::new(rt.alloc());
    watches.add_vars(3)?;
    let (one, two, three) = (Lit::new(1, true), Lit::new(2, true), Lit::new(3, true));
    assert!(rt; watches.add_clause(one, two)? == 0);
    assert!(rt; watches.add_clause(one, three)? == 1);
    assert!(rt; watches.head(one) == Some(2));
    assert!(rt; watches.next(2) == Some(0));
    assert!(rt; watches.next(0).is_none());
    watches.relink(one, Some(2), 0, three);
    assert!(rt; watches.head(one) == Some(2));
    assert!(rt; watches.next(2).is_none());
    assert!(rt; watches.head(two) == Some(1));
    assert!(rt; watches.head(three) == Some(0));
    assert!(rt; watches.next(0) == Some(3));
    assert!(rt; watches.next(3).is_none());
    Ok(())
}

#[test]
fn the_first_link_moves_to_an_empty_list(rt: HostRuntime) -> Result<(), Fail> {
    let mut watches = Watches::new(rt.alloc());
    watches.add_vars(2)?;
    let (one, two) = (Lit::new(1, true), Lit::new(2, false));
    watches.add_clause(one, two)?;
    watches.add_vars(1)?;
    let other = Lit::new(3, false);
    assert!(rt; watches.head(other).is_none());
    watches.relink(two, None, 1, other);
    assert!(rt; watches.head(two).is_none());
    assert!(rt; watches.head(other) == Some(1));
    assert!(rt; watches.head(one) == Some(0));
    Ok(())
}

#[test]
fn lists_stay_while_the_memory_grows(rt: HostRuntime) -> Result<(), Fail> {
    let mut watches = Watches::new(rt.alloc());
    watches.add_vars(2)?;
    let (one, two) = (Lit::new(1, true), Lit::new(2, true));
    watches.add_clause(one, two)?;
    watches.add_vars(250)?;
    assert!(rt; watches.head(one) == Some(0));
    assert!(rt; watches.head(two) == Some(1));
    for var in 3..253 {
        assert!(rt; watches.head(Lit::new(var, true)).is_none());
        assert!(rt; watches.head(Lit::new(var, false)).is_none());
    }
    Ok(())
}

// Moves all links of one literal to another while its list is walked.
fn move_all(watches: &mut Watches, lit: Lit, to: Lit)
    requires lit { IsAdded watches.old lit }
    requires to { IsAdded watches.old to }
    requires differ { lit ≢ to }
    ensures empty { list_of watches.new lit ≡ [] }
    ensures vars { watches.new.vars ≡ watches.old.vars }
{
    let mut next = watches.head(lit);
    while let Some(link) = next {
        next = watches.next(link);
        watches.relink(lit, None, link, to);
    }
}

#[test]
fn links_move_while_their_list_is_walked(rt: HostRuntime) -> Result<(), Fail> {
    let mut watches = Watches::new(rt.alloc());
    watches.add_vars(3)?;
    let (one, two, three) = (Lit::new(1, true), Lit::new(2, true), Lit::new(3, false));
    watches.add_clause(one, two)?;
    watches.add_clause(two, one)?;
    watches.add_clause(one, two)?;
    move_all(&mut watches, one, three);
    assert!(rt; watches.head(one).is_none());
    assert!(rt; watches.head(three) == Some(0));
    watches.each_link_once();
    Ok(())
}
