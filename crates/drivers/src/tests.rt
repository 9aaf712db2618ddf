// The edges of the two drivers.
use crate::{looping, uart};
use driver::Driver;
use item::{Band, Item, Refusal};
use std::test::Fail;

const A: Item = Item::Byte(b'A');

const B: Item = Item::Byte(b'B');

#[test]
fn one_place_is_full_at_once_and_used_again(rt: HostRuntime) {
    let (mut waiting, mut records, mut echo) = ([Item::End; 1], [Item::End; 1], [Item::End; 1]);
    let mut line = uart::over(&mut waiting, &mut records, &mut echo);
    assert_eq!(rt; line.offer(Band::Echo, A), Err(Refusal::NoSpace));
    assert_eq!(rt; uart::lay_out(&mut line), Ok(()));
    assert_eq!(rt; line.send(), Err(Refusal::Nothing));
    for _ in 0..3u8 {
        assert_eq!(rt; line.offer(Band::Echo, Item::End), Ok(()));
        assert_eq!(rt; line.offer(Band::Echo, A), Err(Refusal::NoSpace));
        assert_eq!(rt; line.send(), Ok((Band::Echo, Item::End)));
        assert_eq!(rt; line.arrive(&[A, B]), Err(Refusal::NoSpace));
        assert_eq!(rt; line.arrive(&[B]), Ok(()));
        assert_eq!(rt; line.fetch(), Some(B));
        assert_eq!(rt; line.fetch(), None);
    }
}

#[test]
fn three_places_go_round(rt: HostRuntime) {
    let (mut waiting, mut records, mut echo) = ([Item::End; 3], [Item::End; 3], [Item::End; 3]);
    let mut line = uart::over(&mut waiting, &mut records, &mut echo);
    assert_eq!(rt; uart::lay_out(&mut line), Ok(()));
    assert_eq!(rt; line.arrive(&[A]), Ok(()));
    for k in 0..20u8 {
        assert_eq!(rt; line.arrive(&[Item::Byte(k), B]), Ok(()));
        assert_eq!(rt; line.arrive(&[A]), Err(Refusal::NoSpace));
        assert!(rt; line.fetch().is_some());
        assert_eq!(rt; line.fetch(), Some(Item::Byte(k)));
        assert_eq!(rt; line.waiting(), 1);
    }
    assert_eq!(rt; line.fetch(), Some(B));
}

#[test]
fn memory_of_no_place_or_too_many_is_refused(rt: HostRuntime) {
    let (mut none, mut some, mut more) = ([Item::End; 0], [Item::End; 2], [Item::End; 1025]);
    let mut line = uart::over(&mut none, &mut some, &mut more);
    assert_eq!(rt; uart::lay_out(&mut line), Err(Refusal::OutOfBounds));
    assert_eq!(rt; line.waiting_room(), 0);
    assert_eq!(rt; line.offered_room(Band::Records), 0);
    assert_eq!(rt; line.arrive(&[A]), Err(Refusal::NoSpace));
}

#[test]
fn a_record_begun_is_not_broken_into(rt: HostRuntime) {
    let (mut waiting, mut records, mut echo) = ([Item::End; 4], [Item::End; 4], [Item::End; 4]);
    let mut line = uart::over(&mut waiting, &mut records, &mut echo);
    assert_eq!(rt; uart::lay_out(&mut line), Ok(()));
    assert_eq!(rt; line.offer(Band::Records, A), Ok(()));
    assert_eq!(rt; line.send(), Ok((Band::Records, A)));
    assert_eq!(rt; line.begun(), Some(Band::Records));
    for _ in 0..4u8 {
        assert_eq!(rt; line.offer(Band::Echo, Item::Note(1)), Ok(()));
    }
    assert_eq!(rt; line.offer(Band::Echo, B), Err(Refusal::NoSpace));
    assert_eq!(rt; line.send(), Err(Refusal::Nothing));
    assert_eq!(rt; line.offer(Band::Records, Item::End), Ok(()));
    assert_eq!(rt; line.send(), Ok((Band::Records, Item::End)));
    assert_eq!(rt; line.begun(), None);
    assert_eq!(rt; line.send(), Ok((Band::Echo, Item::Note(1))));
}

#[test]
fn what_comes_back_to_a_full_list_is_not_sent(rt: HostRuntime) -> Result<(), Fail> {
    let mut plug = looping::new();
    for _ in 0..64u8 {
        assert_eq!(rt; plug.arrive(&[B]), Ok(()));
    }
    assert_eq!(rt; plug.offer(Band::Echo, A), Ok(()));
    assert_eq!(rt; plug.send(), Err(Refusal::NoSpace));
    assert_eq!(rt; plug.offered(Band::Echo), 1);
    assert_eq!(rt; plug.fetch(), Some(B));
    assert_eq!(rt; plug.send(), Ok((Band::Echo, A)));
    assert_eq!(rt; plug.waiting(), 64);
    assert_eq!(rt; plug.offer(Band::Echo, Item::End), Ok(()));
    assert_eq!(rt; plug.send(), Ok((Band::Echo, Item::End)));
    plug.start();
    assert_eq!(rt; plug.waiting(), 0);
    Ok(())
}
