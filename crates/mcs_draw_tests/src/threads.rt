//! Seats of one word, in two threads.

ghost use Rattle.std.specs.Prelude.{◌≡◌, ◌+◌};

use mcs_draw::{Draw, Seat};
use std::test::Fail;
use std::thread;

/// Draws all that the seat may draw, 1 at a time.
fn draw_all(draw: &Draw, seat: Seat) -> Seat
    requires word { seat.word ≡ draw.now.word }
    ensures word { result.word ≡ seat.word }
    ensures left { result.account.left ≡ 0 }
    ensures drawn { result.account.drawn ≡ seat.account.left + seat.account.drawn }
{
    let mut seat = seat;
    while seat.left() > 0 {
        draw.draw(&mut seat, 1);
    }
    seat
}

#[test]
fn two_threads_draw_a_thousand_times(rt: HostRuntime) -> Result<(), Fail> {
    let (draw, mut one) = Draw::new(rt.alloc(), 7, 2000)?;
    let two = draw.split(&mut one, 1000)?;
    let (mut one, two) = thread::join(
        &rt,
        || -> Seat
            requires { one.word ≡ draw.word }
            ensures { (result.word ≡ one.word) × (result.account.left ≡ 0)
                × (result.account.drawn ≡ one.account.left + one.account.drawn) }
        { draw_all(&draw, one) },
        || -> Seat
            requires { two.word ≡ draw.word }
            ensures { (result.word ≡ two.word) × (result.account.left ≡ 0)
                × (result.account.drawn ≡ two.account.left + two.account.drawn) }
        { draw_all(&draw, two) },
    );
    draw.join(&mut one, two);
    let closed = draw.close(one);
    assert!(rt; closed.total() == 2007 && closed.draws() == 2000);
    Ok(())
}
