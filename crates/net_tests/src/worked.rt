// The worked texts, in each order.

use crate::both::{Both, Step, both_of};
use crate::orders::{Order, run};
use std::alloc::Global;
use std::process::Abort;
use worked_texts::{Case, runs_and_examples};

// So many choices are made at most.
const CHOICES: u32 = 100;

const ORDERS: [Order; 3] = [Order::Next, Order::LastPacket, Order::PacketsLast];

const SEEDS: [Order; 6] = [
    Order::Seeded(1),
    Order::Seeded(2),
    Order::Seeded(7),
    Order::Seeded(42),
    Order::Seeded(1996),
    Order::Seeded(31_337),
];

// Whether each choice of an order and each delivery behind them is made, and the network and the
// book agree at the end.
fn goes_through(alloc: Global, both: &mut Both, order: Order) -> bool {
    run(alloc, both, order, CHOICES) == Step::Made
        && both.deliver_all(alloc) == Step::Made
        && both.agree(alloc)
}

fn is_run(alloc: Global, text: &[u8], order: Order) -> bool {
    match both_of(alloc, text) {
        Some(mut both) => goes_through(alloc, &mut both, order),
        None => false,
    }
}

fn expect_orders(rt: &impl Abort, alloc: Global, text: &[u8], orders: &[Order]) {
    for order in orders {
        assert!(rt; is_run(alloc, text, *order), "{order:?}");
    }
}

fn expect_case(rt: &impl Abort, alloc: Global, case: &Case, orders: &[Order]) {
    match case.source(alloc) {
        Ok(source) => expect_orders(rt, alloc, source.as_slice(), orders),
        Err(_) => assert!(rt; false, "no memory"),
    }
}

fn expect_cases(rt: &impl Abort, alloc: Global, cases: &[Case], orders: &[Order]) {
    for case in cases {
        expect_case(rt, alloc, case, orders);
    }
}

fn expect_all(rt: &impl Abort, alloc: Global, orders: &[Order]) {
    for cases in runs_and_examples() {
        expect_cases(rt, alloc, cases, orders);
    }
}

// Each event of the network is one of the book, in whatever order; and the two end alike.
#[test]
fn worked_texts_in_each_order(rt: HostRuntime) {
    expect_all(&rt, rt.alloc(), &ORDERS);
}

#[test]
fn worked_texts_at_random(rt: HostRuntime) {
    expect_all(&rt, rt.alloc(), &SEEDS);
}
