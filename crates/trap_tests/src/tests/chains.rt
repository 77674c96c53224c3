//! Passes between short chains.

ghost use Rattle.std.specs.Prelude.{◌≡◌, ◌+◌, ◌≤◌, length, IfOk};

use ion_chain::{Chain, Transfer};
use qc_base::{End, Ion, PlaceId};
use std::alloc::Global;
use std::process::Abort;
use std::test::Fail;

fn chain_of(alloc: Global, numbers: &[u32], room: u32) -> Result<Chain, Fail>
    requires { length numbers.now ≤ room }
    ensures len { IfOk result (λ chain. length chain.ions ≡ length numbers.now) }
    ensures room { IfOk result (λ chain. room ≤ length chain.ions + chain.spare) }
{
    let mut chain = Chain::with_room(alloc, room)?;
    for &number in numbers {
        chain.add(Ion(number));
    }
    Ok(chain)
}

fn reads(chain: &Chain, numbers: &[u32]) -> bool {
    chain
        .ions()
        .iter()
        .map(|ion| ion.0)
        .eq(numbers.iter().copied())
}

// Source and exit, how many ions, target and entrance; what is left and what is joined.
type Pass = (
    (&'static [u32], End),
    u32,
    (&'static [u32], End),
    &'static [u32],
    &'static [u32],
);

const PASSES: [Pass; 10] = [
    // A split into an empty slot, by its end b and by its end a.
    ((&[0, 1, 2], End::B), 2, (&[], End::B), &[0], &[2, 1]),
    ((&[0, 1, 2], End::B), 2, (&[], End::A), &[0], &[1, 2]),
    // A merge out of a slot, by its end a and by its end b.
    ((&[2], End::A), 1, (&[0, 1], End::B), &[], &[0, 1, 2]),
    ((&[2], End::B), 1, (&[0, 1], End::B), &[], &[0, 1, 2]),
    // The outermost ion goes in first.
    ((&[2, 3], End::A), 2, (&[0, 1], End::B), &[], &[0, 1, 2, 3]),
    ((&[2, 3], End::B), 2, (&[0, 1], End::B), &[], &[0, 1, 3, 2]),
    ((&[0, 1, 2], End::A), 2, (&[3], End::A), &[2], &[1, 0, 3]),
    ((&[0, 1], End::B), 1, (&[2, 3], End::A), &[0], &[1, 2, 3]),
    // All ions, and none.
    ((&[0, 1, 2], End::A), 3, (&[], End::B), &[], &[0, 1, 2]),
    ((&[0, 1], End::B), 0, (&[2], End::A), &[0, 1], &[2]),
];

#[test]
fn passes(rt: HostRuntime) -> Result<(), Fail> {
    for &((source, end), count, (target, into), left, joined) in &PASSES {
        assert!(rt; count as usize <= source.len());
        assert!(rt; source.len() <= 4 && target.len() <= 4);
        let mut source = chain_of(rt.alloc(), source, 4)?;
        let mut target = chain_of(rt.alloc(), target, 8)?;
        source.pass(end, count, &mut target, into);
        assert!(rt; reads(&source, left));
        assert!(rt; reads(&target, joined));
    }
    Ok(())
}

#[test]
fn swaps(rt: HostRuntime) -> Result<(), Fail> {
    let mut chain = chain_of(rt.alloc(), &[0, 1, 2], 3)?;
    chain.swap_at(0);
    assert!(rt; reads(&chain, &[1, 0, 2]));
    chain.swap_at(1);
    assert!(rt; reads(&chain, &[1, 2, 0]));
    Ok(())
}

#[test]
fn transfer_between_places(rt: HostRuntime) -> Result<(), Fail> {
    let alloc = rt.alloc();
    let mut chains = Vec::new(alloc);
    chains.push(chain_of(alloc, &[0, 1, 2], 3)?)?;
    chains.push(chain_of(alloc, &[3, 4], 2)?)?;
    chains.push(chain_of(alloc, &[], 2)?)?;
    let split = Transfer {
        from: PlaceId(0),
        from_end: End::B,
        to: PlaceId(2),
        to_end: End::B,
        count: 2,
    };
    split.perform(&mut chains);
    assert!(rt; reads(&chains[0], &[0]));
    assert!(rt; reads(&chains[1], &[3, 4]));
    assert!(rt; reads(&chains[2], &[2, 1]));
    Ok(())
}
