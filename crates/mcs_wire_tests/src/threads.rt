//! Wires whose ends are in several threads.

ghost use Rattle.std.specs.Prelude.{◌≡◌, ◌+◌, ◌<◌, ◌≤◌, [], IfOk};
ghost use Rattle.std.specs.Arc.{arc_value};
ghost use Rattle.mcs_wire.specs.Wires.{AllName};
ghost use Rattle.mcs_wire_tests.specs.Loads.{IsReady, AreReady};

use crate::letters::{plan_of_two, stops};
use mcs_base::Memory;
use mcs_import::Plan;
use mcs_node::Letter;
use mcs_wire::{Address, Ends, Inbox, Settled, settle, wire};
use std::alloc::Global;
use std::sync::{Arc, Wait};
use std::thread;
use std::thread::Threads;

/// More letters than an address sends in these tests.
const MANY: u64 = 1_000_000;

/// An address, and the letters that it is to send.
#[derive(Drop)]
struct Load {
    address: Address,
    letters: Vec<Letter>,
}

/// Two loads of one wire.
#[derive(Drop)]
struct Pair {
    one: Load,
    two: Load,
}

/// The letters of two loads: of `each` levels, and of as many levels after these.
#[derive(Drop)]
struct Letters {
    low: Vec<Letter>,
    high: Vec<Letter>,
}

/// Such letters.
fn letters_of(alloc: Global, plan: &Arc<Plan>, each: u32) -> Result<Letters, Memory>
    ensures low { IfOk result (λ letters. AllName (arc_value plan.now) letters.low.items) }
    ensures high { IfOk result (λ letters. AllName (arc_value plan.now) letters.high.items) }
{
    let low = stops(alloc, plan, 0, each)?;
    let high = stops(alloc, plan, each, each)?;
    Ok(Letters { low, high })
}

/// Sends the letters, the last one first.
fn send_all<R: Wait>(rt: &R, load: Load) -> Address
    requires { IsReady load.address load.letters.items }
    ensures { result.wire ≡ load.address.wire }
{
    let Load {
        mut address,
        mut letters,
    } = load;
    while let Some(letter) = letters.pop() {
        if address.sent() < MANY {
            address.send(rt, letter);
        }
    }
    address
}

/// Sends the letters of both loads, each in a thread of its own.
fn send_by_two<R: Threads + Wait + Sync>(rt: &R, pair: Pair) -> Address
    requires { AreReady pair.one.address pair.one.letters.items pair.two.address
        pair.two.letters.items }
    ensures { result.wire ≡ pair.one.address.wire }
{
    let Pair { one, two } = pair;
    let (mut address, other) = thread::join(
        rt,
        || -> Address
            requires { IsReady one.address one.letters.items }
            ensures { result.wire ≡ one.address.wire }
        { send_all(rt, one) },
        || -> Address
            requires { IsReady two.address two.letters.items }
            ensures { result.wire ≡ two.address.wire }
        { send_all(rt, two) },
    );
    join_few(&mut address, other);
    address
}

/// Sends the letters of four loads, each in a thread of its own.
fn send_by_four<R: Threads + Wait + Sync>(rt: &R, low: Pair, high: Pair) -> Address
    requires low { AreReady low.one.address low.one.letters.items low.two.address
        low.two.letters.items }
    requires high { AreReady high.one.address high.one.letters.items high.two.address
        high.two.letters.items }
    requires wire { high.one.address.wire ≡ low.one.address.wire }
    ensures { result.wire ≡ low.one.address.wire }
{
    let (mut address, other) = thread::join(
        rt,
        || -> Address
            requires { AreReady low.one.address low.one.letters.items low.two.address
                low.two.letters.items }
            ensures { result.wire ≡ low.one.address.wire }
        { send_by_two(rt, low) },
        || -> Address
            requires { AreReady high.one.address high.one.letters.items high.two.address
                high.two.letters.items }
            ensures { result.wire ≡ high.one.address.wire }
        { send_by_two(rt, high) },
    );
    join_few(&mut address, other);
    address
}

/// Joins the other address, if both have sent few letters.
fn join_few(address: &mut Address, other: Address)
    requires { other.wire ≡ address.old.wire }
    ensures { address.new.wire ≡ address.old.wire }
{
    if address.sent() < MANY && other.sent() < MANY {
        address.join(other);
    }
}

/// Splits off two parts, which are joined.
fn split_two(address: &mut Address) -> Result<Address, Memory>
    requires parts { 2 < address.old.parts }
    requires none { address.old.sent ≡ [] }
    ensures wire { (address.new.wire ≡ address.old.wire)
        × IfOk result (λ two. two.wire ≡ address.old.wire) }
    ensures parts { IfOk result (λ two. (two.parts ≡ 2)
        × (address.new.parts + 2 ≡ address.old.parts)) }
    ensures none { IfOk result (λ two. (two.sent ≡ []) × (address.new.sent ≡ [])) }
{
    let mut two = address.split()?;
    match address.split() {
        Ok(other) => {
            two.join(other);
            Ok(two)
        }
        Err(want) => {
            drop(two);
            Err(want)
        }
    }
}

/// Two addresses of one wire.
#[derive(Drop)]
struct Both {
    one: Address,
    two: Address,
}

/// The address and another one, which is split off.
fn split_one(address: Address) -> Result<Both, Memory>
    requires parts { 2 ≤ address.parts }
    ensures wire { IfOk result (λ both. (both.one.wire ≡ address.wire)
        × (both.two.wire ≡ address.wire)) }
{
    let mut address = address;
    match address.split() {
        Ok(two) => Ok(Both { one: address, two }),
        Err(want) => {
            drop(address);
            Err(want)
        }
    }
}

/// Four addresses of one wire.
#[derive(Drop)]
struct Four {
    low: Both,
    high: Both,
}

/// Each of two addresses and another one, which is split off.
fn split_each(one: Address, two: Address) -> Result<Four, Memory>
    requires parts { (one.parts ≡ 2) × (two.parts ≡ 2) }
    ensures low { IfOk result (λ four. (four.low.one.wire ≡ one.wire)
        × (four.low.two.wire ≡ one.wire)) }
    ensures high { IfOk result (λ four. (four.high.one.wire ≡ two.wire)
        × (four.high.two.wire ≡ two.wire)) }
{
    let low = match split_one(one) {
        Ok(low) => low,
        Err(want) => {
            drop(two);
            return Err(want);
        }
    };
    match split_one(two) {
        Ok(high) => Ok(Four { low, high }),
        Err(want) => {
            drop(low);
            Err(want)
        }
    }
}

/// Splits an address of four parts into four. It splits off two of them, which are joined. Each of
/// the two addresses of two parts then splits off another one.
fn split_in_four(address: Address) -> Result<Four, Memory>
    requires parts { address.parts ≡ 4 }
    requires none { address.sent ≡ [] }
    ensures low { IfOk result (λ four. (four.low.one.wire ≡ address.wire)
        × (four.low.two.wire ≡ address.wire)) }
    ensures high { IfOk result (λ four. (four.high.one.wire ≡ address.wire)
        × (four.high.two.wire ≡ address.wire)) }
{
    let mut address = address;
    match split_two(&mut address) {
        Ok(two) => split_each(address, two),
        Err(want) => {
            drop(address);
            Err(want)
        }
    }
}

/// Four addresses of a wire, and its inbox.
#[derive(Drop)]
struct FourEnds {
    four: Four,
    inbox: Inbox,
}

/// Those of a new wire.
fn four_ends(alloc: Global, plan: &Arc<Plan>) -> Result<FourEnds, Memory>
    ensures plan { IfOk result (λ ends. (ends.inbox.wire.plan ≡ arc_value plan.now)
        × (ends.inbox.wire.addresses ≡ 4)) }
    ensures low { IfOk result (λ ends. (ends.four.low.one.wire ≡ ends.inbox.wire)
        × (ends.four.low.two.wire ≡ ends.inbox.wire)) }
    ensures high { IfOk result (λ ends. (ends.four.high.one.wire ≡ ends.inbox.wire)
        × (ends.four.high.two.wire ≡ ends.inbox.wire)) }
{
    let Ends { address, inbox } = wire(alloc, Arc::try_clone(plan)?, 4096, 4)?;
    match split_in_four(address) {
        Ok(four) => Ok(FourEnds { four, inbox }),
        Err(want) => {
            drop(inbox);
            Err(want)
        }
    }
}

/// Two addresses of one wire, each with its letters.
fn loaded(both: Both, letters: Letters) -> Pair
    requires low { AllName both.one.wire.plan letters.low.items }
    requires high { AllName both.one.wire.plan letters.high.items }
    requires wire { both.two.wire ≡ both.one.wire }
    ensures wire { result.one.address.wire ≡ both.one.wire }
    ensures ready { AreReady result.one.address result.one.letters.items result.two.address
        result.two.letters.items }
{
    let Both { one, two } = both;
    let Letters { low, high } = letters;
    Pair {
        one: Load {
            address: one,
            letters: low,
        },
        two: Load {
            address: two,
            letters: high,
        },
    }
}

/// An inbox, and how many letters of each level were taken from it.
#[derive(Drop)]
struct Taken {
    inbox: Inbox,
    counts: Vec<u32>,
}

/// Takes so many letters, and counts their levels.
fn take_some<R: Wait>(rt: &R, taken: Taken, count: u32) -> Taken
    ensures { result.inbox.wire ≡ taken.inbox.wire }
{
    let Taken {
        mut inbox,
        mut counts,
    } = taken;
    for _ in 0..count {
        let letter = inbox.take(rt);
        count_level(&mut counts, &letter);
        drop(letter);
    }
    Taken { inbox, counts }
}

/// Counts the level of the letter, if it has a place among the counts.
fn count_level(counts: &mut [u32], letter: &Letter) {
    if let Some(count) = counts.get_mut(letter.level() as usize) {
        *count = count.saturating_add(1);
    }
}

/// A settled wire, and how many letters of each level were taken from it or left in it.
#[derive(Drop)]
struct Counted {
    settled: Settled,
    counts: Vec<u32>,
}

/// Settles the wire, and counts the levels of the letters left; `None` if the address does not have
/// all parts.
fn settle_all<R: Wait>(
    rt: &R,
    alloc: Global,
    address: Address,
    taken: Taken,
    parts: u32,
) -> Result<Option<Counted>, Memory>
    requires wire { taken.inbox.wire ≡ address.wire }
    requires parts { address.wire.addresses ≡ parts }
{
    let Taken { inbox, mut counts } = taken;
    if address.parts() != parts {
        drop((address, inbox, counts));
        return Ok(None);
    }
    let settled = settle(rt, alloc, address, inbox)?;
    for letter in settled.left() {
        count_level(&mut counts, letter);
    }
    Ok(Some(Counted { settled, counts }))
}

/// Four threads send letters of `each` levels, two of them the same ones, while another one takes
/// some of them.
fn four_send<R: Threads + Wait + Sync>(
    rt: &R,
    alloc: Global,
    plan: &Arc<Plan>,
    each: u32,
    count: u32,
) -> Result<Option<Counted>, Memory> {
    let counts = vec![in alloc; 0; 2 * each as usize]?;
    let letters = letters_of(alloc, plan, each)?;
    let others = letters_of(alloc, plan, each)?;
    let FourEnds { four, inbox } = four_ends(alloc, plan)?;
    let low = loaded(four.low, letters);
    let high = loaded(four.high, others);
    let taken = Taken { inbox, counts };
    let (address, taken) = thread::join(
        rt,
        || -> Address
            requires low { AreReady low.one.address low.one.letters.items low.two.address
                low.two.letters.items }
            requires high { AreReady high.one.address high.one.letters.items high.two.address
                high.two.letters.items }
            requires wire { high.one.address.wire ≡ low.one.address.wire }
            ensures { result.wire ≡ low.one.address.wire }
        { send_by_four(rt, low, high) },
        || -> Taken
            ensures { result.inbox.wire ≡ taken.inbox.wire }
        { take_some(rt, taken, count) },
    );
    settle_all(rt, alloc, address, taken, 4)
}

/// Whether each level was counted so often.
fn are_all(counts: &[u32], times: u32) -> bool {
    for count in counts {
        if *count != times {
            return false;
        }
    }
    true
}

/// Whether so many letters were sent and so many taken, and each of so many levels was counted so
/// often.
fn is_counted(counted: &Counted, sent: u64, got: u64, levels: usize, times: u32) -> bool {
    let Counted { settled, counts } = counted;
    settled.sent() == sent
        && settled.got() == got
        && settled.left().len() as u64 == sent.saturating_sub(got)
        && counts.len() == levels
        && are_all(counts, times)
}

/// Whether all that four threads send arrives, while a fifth takes some.
fn are_four_heard<R: Threads + Wait + Sync>(rt: &R, alloc: Global) -> bool {
    let Some(plan) = plan_of_two(alloc) else {
        return false;
    };
    let counted = four_send(rt, alloc, &plan, 1000, 2500);
    let is_right = match &counted {
        Ok(Some(counted)) => is_counted(counted, 4000, 2500, 2000, 2),
        _ => false,
    };
    drop((plan, counted));
    is_right
}

#[test]
fn four_threads_send_and_one_takes(rt: HostRuntime) {
    assert!(rt; are_four_heard(&rt, rt.alloc()));
}

/// One thread sends letters of so many levels through an inbox that holds one, while another one
/// takes all of them. Two threads are needed: if the kit can't start another one, it runs the two
/// closures one after the other, and the first waits forever.
fn two_exchange<R: Threads + Wait + Sync>(
    rt: &R,
    alloc: Global,
    plan: &Arc<Plan>,
    count: u32,
) -> Result<Option<Counted>, Memory> {
    let counts = vec![in alloc; 0; count as usize]?;
    let letters = stops(alloc, plan, 0, count)?;
    let Ends { address, inbox } = wire(alloc, Arc::try_clone(plan)?, 1, 1)?;
    let load = Load { address, letters };
    let taken = Taken { inbox, counts };
    let (address, taken) = thread::join(
        rt,
        || -> Address
            requires { IsReady load.address load.letters.items }
            ensures { result.wire ≡ load.address.wire }
        { send_all(rt, load) },
        || -> Taken
            ensures { result.inbox.wire ≡ taken.inbox.wire }
        { take_some(rt, taken, count) },
    );
    settle_all(rt, alloc, address, taken, 1)
}

/// Whether all that one thread sends arrives, while another takes it.
fn is_one_heard<R: Threads + Wait + Sync>(rt: &R, alloc: Global) -> bool {
    let Some(plan) = plan_of_two(alloc) else {
        return false;
    };
    let counted = two_exchange(rt, alloc, &plan, 500);
    let is_right = match &counted {
        Ok(Some(counted)) => is_counted(counted, 500, 500, 500, 1),
        _ => false,
    };
    drop((plan, counted));
    is_right
}

#[test]
fn two_threads_exchange_through_one_place(rt: HostRuntime) {
    assert!(rt; is_one_heard(&rt, rt.alloc()));
}
