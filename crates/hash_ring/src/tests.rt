//! What no clause says: printed texts, and choices that another program has found.

use crate::{Ring, RingFault};
use std::alloc::Global;
use std::test::Fail;

fn ring_of(alloc: Global, names: &[&str]) -> Result<Ring, RingFault> {
    let mut ring = Ring::new(alloc);
    for name in names {
        ring.add(name)?;
    }
    Ok(ring)
}

const HOSTS: [&str; 5] = [
    "10.0.0.1:20880",
    "10.0.0.2:20880",
    "10.0.0.3:20880",
    "10.0.0.4:20880",
    "10.0.0.5:20880",
];

#[test]
fn keys_get_the_names_found_elsewhere(rt: HostRuntime) -> Result<(), Fail> {
    let ring = ring_of(rt.alloc(), &HOSTS)?;
    assert_eq!(rt; ring.choose(b"alpha"), Some(HOSTS[2]));
    assert_eq!(rt; ring.choose(b"beta"), Some(HOSTS[0]));
    assert_eq!(rt; ring.choose(b"delta"), Some(HOSTS[3]));
    assert_eq!(rt; ring.choose(b"order-17"), Some(HOSTS[4]));
    assert_eq!(rt; ring.choose(b"order-18"), Some(HOSTS[1]));
    Ok(())
}

#[test]
fn a_key_behind_all_points_gets_the_first(rt: HostRuntime) -> Result<(), Fail> {
    let ring = ring_of(rt.alloc(), &HOSTS)?;
    assert_eq!(rt; ring.choose(b"w404"), Some(HOSTS[2]));
    Ok(())
}

#[test]
fn of_two_names_at_one_number_the_first_is_chosen(rt: HostRuntime) -> Result<(), Fail> {
    let ring = ring_of(rt.alloc(), &["n11", "n1"])?;
    assert_eq!(rt; ring.choose(b"k8"), Some("n1"));
    assert_eq!(rt; ring.choose(b"k23"), Some("n1"));
    Ok(())
}

#[test]
fn names_come_and_go(rt: HostRuntime) -> Result<(), Fail> {
    let mut ring = Ring::new(rt.alloc());
    assert!(rt; ring.choose(b"a").is_none());
    ring.add("p1")?;
    assert_eq!(rt; ring.choose(b"a"), Some("p1"));
    assert_eq!(rt; ring.add("p1"), Err(RingFault::Repeated));
    assert!(rt; ring.remove("p1"));
    assert!(rt; !ring.remove("p1"));
    assert!(rt; ring.choose(b"a").is_none());
    Ok(())
}

#[test]
fn only_keys_of_the_name_taken_out_move(rt: HostRuntime) -> Result<(), Fail> {
    let names = ["p1", "p2", "p3", "p4", "p5"];
    let full = ring_of(rt.alloc(), &names)?;
    let mut less = ring_of(rt.alloc(), &names)?;
    assert!(rt; less.remove("p3"));
    let mut moved = 0u32;
    for number in 0..1000u32 {
        let key = format!(in rt.alloc(); "key {number}")?;
        let before = full.choose(key.as_bytes());
        let after = less.choose(key.as_bytes());
        if before == Some("p3") {
            assert!(rt; after != Some("p3"));
            moved = moved.saturating_add(1);
        } else {
            assert_eq!(rt; after, before);
        }
    }
    assert_eq!(rt; moved, 217);
    Ok(())
}

#[test]
fn a_bad_name_and_one_too_many_are_refused(rt: HostRuntime) -> Result<(), Fail> {
    let mut ring = Ring::new(rt.alloc());
    assert_eq!(rt; ring.add("a b"), Err(RingFault::BadName { at: 1 }));
    assert_eq!(rt; ring.add(""), Err(RingFault::BadName { at: 0 }));
    for number in 0..1024u32 {
        let name = format!(in rt.alloc(); "n{number}")?;
        ring.add(name.as_str())?;
    }
    assert_eq!(rt; ring.add("one more"), Err(RingFault::BadName { at: 3 }));
    assert_eq!(rt; ring.add("n7"), Err(RingFault::Repeated));
    assert_eq!(rt; ring.add("another"), Err(RingFault::TooMany));
    Ok(())
}

#[test]
fn faults_are_told(rt: HostRuntime) -> Result<(), Fail> {
    let bad = format!(in rt.alloc(); "{}", RingFault::BadName { at: 7 })?;
    assert_eq!(rt; bad.as_str(), "the name is bad at 7");
    let full = format!(in rt.alloc(); "{}", RingFault::TooMany)?;
    assert_eq!(rt; full.as_str(), "the ring is full");
    Ok(())
}
