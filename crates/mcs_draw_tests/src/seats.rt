//! Seats of one word, in one thread.

use mcs_draw::Draw;
use std::test::Fail;

#[test]
fn two_seats_draw_in_turn(rt: HostRuntime) -> Result<(), Fail> {
    let (draw, mut first) = Draw::new(rt.alloc(), 5, 6)?;
    let mut second = draw.split(&mut first, 2)?;
    let shared = first.left() == 4 && second.left() == 2;
    let one = draw.draw(&mut first, 1);
    let two = draw.draw(&mut second, 2);
    let three = draw.draw(&mut first, 3);
    draw.join(&mut first, second);
    let left = first.left();
    let closed = draw.close(first);
    assert!(rt; shared && one == 6 && two == 8 && three == 11 && left == 0);
    assert!(rt; closed.total() == 11 && closed.draws() == 6);
    Ok(())
}

#[test]
fn what_is_left_is_joined_too(rt: HostRuntime) -> Result<(), Fail> {
    let (draw, mut first) = Draw::new(rt.alloc(), 100, 10)?;
    let mut second = draw.split(&mut first, 9)?;
    let third = draw.split(&mut second, 4)?;
    let total = draw.draw(&mut second, 5);
    draw.join(&mut second, third);
    draw.join(&mut second, first);
    let left = second.left();
    let closed = draw.close(second);
    assert!(rt; total == 105 && left == 5);
    assert!(rt; closed.total() == 105 && closed.draws() == 5);
    Ok(())
}

#[test]
fn a_room_of_nothing(rt: HostRuntime) -> Result<(), Fail> {
    let (draw, mut seat) = Draw::new(rt.alloc(), 9, 0)?;
    let (left, total) = (seat.left(), draw.draw(&mut seat, 0));
    let closed = draw.close(seat);
    assert!(rt; left == 0 && total == 9);
    assert!(rt; closed.total() == 9 && closed.draws() == 0);
    Ok(())
}

#[test]
fn the_greatest_word(rt: HostRuntime) -> Result<(), Fail> {
    let room = (1 << 63) - 2;
    let (draw, mut seat) = Draw::new(rt.alloc(), 1, room)?;
    let total = draw.draw(&mut seat, room);
    let closed = draw.close(seat);
    assert!(rt; total == 9_223_372_036_854_775_807);
    assert!(rt; closed.total() == total && closed.draws() == room);
    Ok(())
}
