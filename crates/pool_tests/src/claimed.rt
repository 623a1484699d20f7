//! Numbers that workers draw.
use crate::rows::{add_number, are_bytes};
use lit_claims::{ClaimSet, Claims};
use std::alloc::Global;
use tt_base::{Bytes, NoMemory};

/// Numbers, with a blank behind each.
fn told(alloc: Global, numbers: [u64; 4]) -> Result<Bytes, NoMemory> {
    let mut told = Bytes::new(alloc);
    for number in numbers {
        add_number(&mut told, number)?;
        told.append(b" ")?;
    }
    Ok(told)
}

/// What the two seats of new claims draw, the first one first and last; and how many numbers that is in all.
fn drawn_by_two(alloc: Global) -> Result<Bytes, NoMemory> {
    let ClaimSet { claims, seats } = Claims::new(alloc, 2)?;
    let mut seats = seats.into_vec();
    let (Some(mut first), Some(mut second)) = (seats.pop(), seats.pop()) else {
        return Ok(Bytes::new(alloc));
    };
    let one = claims.draw(&mut first);
    let two = claims.draw(&mut second);
    if one >= 100_000 {
        return Ok(Bytes::new(alloc));
    }
    let three = claims.draw(&mut first);
    claims.join(&mut first, second);
    told(alloc, [one, two, three, claims.close(first)])
}

#[test]
fn seats_draw_one_number_after_the_other(rt: HostRuntime) -> Result<(), NoMemory> {
    assert!(rt; are_bytes(drawn_by_two(rt.alloc()), b"0 1 2 3 ")?);
    Ok(())
}
